// A connector in memory, for tests: each conversation gives the same bytes, and the calls that it is told to fail at fail.
ghost use Rattle.std.specs.Prelude.{◌≡◌, ◌==◌, ◌&&◌, ◌||◌, ◌<◌, ◌≤◌, ◌↔◌, Some, IsErr, OnErr, IfOk, length, nat_lt, true, vec_len};
ghost use Rattle.addr_base.specs.Plans.{IsCounted, IsFresh, fails_next};

use crate::connect::Connect;
use crate::copying::copy_front;
use addr_base::{FailPlan, Failed};
use std::alloc::Global;

/// A connector in memory.
#[derive(Drop)]
pub struct MemConnect {
    answer: Vec<u8>,
    at: usize,
    piece: usize,
    ended: bool,
    sent: Vec<u8>,
    plan: FailPlan,
    faults: u64,
    ghost within: { at ≤ vec_len answer },
    ghost some: { 0 < piece },
}

impl MemConnect {
    ghost use Rattle.addr_wire.specs.Talks.{silence};
    ghost use Rattle.addr_wire.specs.MemConnectors.{connect_answer, connect_now, connect_piece, connect_plan, connect_talk};

    /// A connector to a server that answers these bytes in each conversation and then ends it. The calls whose numbers
    /// are given fail; `open`, `send` and `receive` are numbered together from 1 on. It takes no memory before the first
    /// `send`.
    pub fn new(alloc: Global, answer: Vec<u8>, fails: Vec<u32>) -> MemConnect
        ensures now { connect_now result ≡ record { talk = Some silence; faults = 0 } }
        ensures answer { connect_answer result ≡ answer.items }
        ensures plan { IsFresh fails.items (connect_plan result) }
    {
        MemConnect {
            answer,
            at: 0,
            piece: usize::MAX,
            ended: false,
            sent: Vec::new(alloc),
            plan: FailPlan::new(fails),
            faults: 0,
        }
    }

    /// The same connector, of which each receive brings at most so many bytes.
    pub fn in_pieces(self, piece: usize) -> MemConnect
        requires { 0 < piece }
        ensures now { connect_now result ≡ connect_now self }
        ensures answer { connect_answer result ≡ connect_answer self }
        ensures piece { connect_piece result ≡ piece }
        ensures plan { connect_plan result ≡ connect_plan self }
    {
        let mut conn = self;
        conn.piece = piece;
        conn
    }

    /// All that was sent since the last `open`.
    pub fn sent(&self) -> &[u8]
        ensures { result.now ≡ (connect_talk self.now).sent }
    {
        &self.sent
    }
}

impl Connect for MemConnect {
    ghost use Rattle.addr_wire.specs.Talks.{Opens, Receives, Sends};
    ghost use Rattle.addr_wire.specs.MemConnections.{count_after};
    ghost use Rattle.addr_wire.specs.MemConnectors.{connect_answer, connect_now, connect_plan, connect_talk};

    ghost now = { connect_now };

    fn open(&mut self, host: &str, port: u16) -> Result<(), Failed>
        ensures opens { Opens (connect_now self.old) result (connect_now self.new) }
        ensures answer { connect_answer self.new ≡ connect_answer self.old }
        ensures counted { IsCounted (connect_plan self.old) (connect_plan self.new) }
        ensures fault { IsErr result ↔ (fails_next (connect_plan self.old) ≡ true) }
        ensures count { (connect_now self.new).faults ≡ count_after (connect_now self.old).faults result }
    {
        self.sent.clear();
        self.at = 0;
        self.ended = false;
        if self.plan.next_fails() {
            self.faults = self.faults.saturating_add(1);
            return Err(Failed);
        }
        Ok(())
    }

    /// Where memory is refused the call fails, and nothing is sent.
    fn send(&mut self, bytes: &[u8]) -> Result<(), Failed>
        ensures sends { Sends (connect_now self.old) result bytes.now (connect_now self.new) }
        ensures answer { connect_answer self.new ≡ connect_answer self.old }
        ensures failed { OnErr result ((connect_talk self.new).sent ≡ (connect_talk self.old).sent) }
        ensures counted { IsCounted (connect_plan self.old) (connect_plan self.new) }
        ensures told { fails_next (connect_plan self.old) ≡ true → IsErr result }
        ensures count { (connect_now self.new).faults ≡ count_after (connect_now self.old).faults result }
    {
        if self.plan.next_fails() || self.sent.extend_from_slice(bytes).is_err() {
            self.faults = self.faults.saturating_add(1);
            return Err(Failed);
        }
        Ok(())
    }

    fn receive(&mut self, into: &mut [u8]) -> Result<usize, Failed>
        ensures within { IfOk result (λ n. n ≤ length into.new) }
        ensures receives { Receives (connect_now self.old) result into.new (connect_now self.new) }
        ensures answer { connect_answer self.new ≡ connect_answer self.old }
        ensures counted { IsCounted (connect_plan self.old) (connect_plan self.new) }
        ensures fault { IsErr result ↔ (fails_next (connect_plan self.old) ≡ true) }
        ensures count { (connect_now self.new).faults ≡ count_after (connect_now self.old).faults result }
    {
        if self.plan.next_fails() {
            self.faults = self.faults.saturating_add(1);
            return Err(Failed);
        }
        let count = copy_front(&self.answer[self.at..], into, self.piece);
        self.at += count;
        self.ended = ends(self.ended, count, into.len());
        Ok(count)
    }

    fn shut(&mut self)
        ensures { self.new ≡ self.old }
    {}

    fn count(&self) -> u64 {
        self.faults
    }
}

/// Whether a conversation has ended after a receive that brought so many bytes into a slice of that length.
fn ends(ended: bool, count: usize, room: usize) -> bool
    ensures { result ≡ (ended || (count == 0 && nat_lt 0 room)) }
{
    ended || (count == 0 && room > 0)
}
