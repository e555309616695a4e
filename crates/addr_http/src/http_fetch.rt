// A fetcher of ids that begin with `http://`, over a connector. Its count of faults is the connector's and its own
// together, so that each fault that it answers has a count that rose.
ghost use Rattle.std.specs.Prelude.{◌≡◌, ◌<◌, ◌+◌, ◌^◌, None};
ghost use Rattle.addr_wire.specs.Counts.{Counts};
ghost use Rattle.addr_http.specs.Asking.{AskedAt, CountsAt};
ghost use Rattle.addr_http.specs.Conversations.{Asks, Serves};
ghost use Rattle.addr_http.specs.Targets.{address_in, request_text};

use crate::fetch_answer::answer_of;
use crate::fetching::{Request, ask};
use crate::outcome::Outcome;
use crate::targets::{Target, as_text, request_with, target_in};
use addr_base::{Failed, NoMemory};
use addr_fetch::{Fetch, Pour, Poured};
use addr_wire::Connect;
use std::alloc::Global;

/// A fetcher over a connector.
#[derive(Drop)]
pub struct HttpFetch<C> {
    conn: C,
    own: u64,
}

impl<C: Connect> HttpFetch<C> {
    ghost use Rattle.addr_http.specs.Fetching.{CountsBy, Fetches, http_count, http_now};

    pub fn new(conn: C) -> HttpFetch<C>
        ensures { http_now C.now result ≡ record { conn = C.now conn; own = 0 } }
    {
        HttpFetch { conn, own: 0 }
    }

    /// The connector.
    pub fn connector(&self) -> &C
        ensures { C.now result.now ≡ (http_now C.now self.now).conn }
    {
        &self.conn
    }

    /// Pours the file that an id leads to, of at most so many bytes, each piece as a receive gives it. After any answer
    /// but `Whole` a front of a body may have been poured.
    pub fn fetch_into<P: Pour>(
        &mut self,
        alloc: Global,
        internal_id: &str,
        limit: u64,
        into: &mut P,
    ) -> Poured
        requires { limit + 1 < 2 ^ 64 }
        ensures fetches { Fetches P.took limit (address_in internal_id.now) result into.old into.new
            (http_now C.now self.old) (http_now C.now self.new) }
        ensures count { CountsBy result (http_count (http_now C.now self.old)) (http_count (http_now C.now self.new)) }
        ensures unasked { address_in internal_id.now ≡ None → (self.new ≡ self.old) × (into.new ≡ into.old) }
        ensures fixed { P.fixed into.new ≡ P.fixed into.old }
    {
        match asked(alloc, &mut self.conn, into, internal_id, limit) {
            None => Poured::Missing,
            Some(outcome) => answer_of(outcome, self.conn.count(), &mut self.own),
        }
    }
}

impl<C: Connect> Fetch for HttpFetch<C> {
    ghost use Rattle.std.specs.Prelude.{None};
    ghost use Rattle.addr_http.specs.Fetching.{http_count, http_now};
    ghost use Rattle.addr_http.specs.Giving.{HttpGives};
    ghost use Rattle.addr_http.specs.GivingRules.{keeps_rules};

    ghost now = { λ fetch. record { files = None; faults = http_count (http_now C.now fetch) } };

    ghost gives = { HttpGives C.now };

    fn fetch_to<P: Pour>(
        &mut self,
        alloc: Global,
        internal_id: &str,
        limit: u64,
        into: &mut P,
    ) -> Poured {
        self.fetch_into(alloc, internal_id, limit, into)
    }

    ghost keeps = { keeps_rules C.now };
}

/// Asks where an id leads, if it is one over HTTP.
fn asked<C: Connect, P: Pour>(
    alloc: Global,
    conn: &mut C,
    into: &mut P,
    id: &str,
    limit: u64,
) -> Option<Result<Outcome, Failed>>
    requires { limit + 1 < 2 ^ 64 }
    ensures told { AskedAt P.took limit (address_in id.now) result into.old into.new (C.now conn.old) (C.now conn.new) }
    ensures unasked { address_in id.now ≡ None → (conn.new ≡ conn.old) × (into.new ≡ into.old) }
    ensures cause { CountsAt result (C.now conn.old).faults (C.now conn.new).faults }
    ensures fixed { P.fixed into.new ≡ P.fixed into.old }
{
    match target_in(id.as_bytes()) {
        Some(target) => {
            let outcome = ask_at(
                alloc,
                conn,
                into,
                as_text(target.host),
                target.port,
                as_text(target.path),
                limit,
            );
            conn.shut();
            Some(outcome)
        }
        None => None,
    }
}

fn ask_at<C: Connect, P: Pour>(
    alloc: Global,
    conn: &mut C,
    into: &mut P,
    host: &str,
    port: u16,
    path: &str,
    limit: u64,
) -> Result<Outcome, Failed>
    requires { limit + 1 < 2 ^ 64 }
    ensures told { Serves P.took limit result
        (Asks limit (C.now conn.old).faults (C.now conn.new).faults
        (request_text (record { host = host.now; port = port; path = path.now })) result)
        into.old into.new (C.now conn.old).talk (C.now conn.new).talk }
    ensures cause { Counts (C.now conn.old).faults result (C.now conn.new).faults }
    ensures fixed { P.fixed into.new ≡ P.fixed into.old }
{
    match request_with(alloc, host, port, path) {
        Ok(text) => {
            let request = Request {
                host,
                port,
                bytes: text.as_bytes(),
            };
            ask(alloc, conn, into, &request, limit)
        }
        Err(NoMemory) => Ok(Outcome::NoMemory),
    }
}
