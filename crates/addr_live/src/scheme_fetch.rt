// Ids that begin with a scheme are fetched from the net, all others from files.
ghost use Rattle.std.specs.Prelude.{◌≡◌, ◌++◌, ◌<◌, ◌^◌, ◌-◌, List, ℕ};
ghost use Rattle.addr_fetch.specs.Gives.{PouredAs};
ghost use Rattle.addr_live.specs.Schemes.{GivesWithin};

use addr_fetch::{Fetch, Pour, Poured};
use std::alloc::Global;

/// A fetcher of files beside one from the net. Faults of either count as its own.
#[derive(Drop)]
pub struct SchemeFetch<A, B> {
    files: A,
    net: B,
    faults: u64,
}

impl<A: Fetch, B: Fetch> SchemeFetch<A, B> {
    pub fn new(files: A, net: B) -> SchemeFetch<A, B>
        ensures { result.faults ≡ 0 }
    {
        SchemeFetch {
            files,
            net,
            faults: 0,
        }
    }
}

impl<A: Fetch, B: Fetch> Fetch for SchemeFetch<A, B> {
    ghost use Rattle.std.specs.Prelude.{None, refl};
    ghost use Rattle.addr_live.specs.Schemes.{GivesWithin};

    ghost now = { λ fetch. record { files = None; faults = fetch.faults } };

    ghost gives = { λ before id limit answer after. GivesWithin before.faults limit answer after.faults };

    fn fetch_to<P: Pour>(
        &mut self,
        alloc: Global,
        internal_id: &str,
        limit: u64,
        into: &mut P,
    ) -> Poured {
        let poured = if internal_id.starts_with("http://") {
            self.net.fetch_to(alloc, internal_id, limit, into)
        } else {
            self.files.fetch_to(alloc, internal_id, limit, into)
        };
        match poured {
            Poured::Fault(_) => {
                self.faults = self.faults.saturating_add(1);
                Poured::Fault(self.faults)
            }
            other => other,
        }
    }

    ghost keeps = { λ before after id limit answer gives. record { within = gives.0; later = gives.1; same = refl; told = tt } };
}
