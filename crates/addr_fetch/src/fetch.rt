// Fetchers: an id is asked for with a limit, and the bytes are poured as they come.
ghost use Rattle.std.specs.Prelude.{◌≡◌, ◌<◌, ◌-◌, ◌^◌, ◌++◌, List, ℕ};
ghost use Rattle.addr_fetch.specs.Gives.{AllKeepRules, Origin, PouredAs};
ghost use Rattle.addr_fetch.specs.declared.fetch.Fetched.{Fetched as Answer};

use crate::collecting::Collected;
use crate::pour::Pour;
use addr_base::Items;
use std::alloc::Global;

/// What a fetch gives.
#[derive(Drop)]
pub enum Fetched {
    Given(Items<u8>),
    /// Nothing has the id.
    Missing,
    /// A server refused with this status.
    Refused(u16),
    /// The file is above the limit, by this length or at least by it.
    TooLong(u64),
    /// The fetcher failed; the number is its count of faults after the call.
    Fault(u64),
    NoMemory,
}

/// What a fetch answers whose bytes were poured: `Whole` with their number, or another answer after none or some were.
#[derive(Clone, Copy, Debug, PartialEq, Eq)]
pub enum Poured {
    Whole(u64),
    Missing,
    Refused(u16),
    TooLong(u64),
    Fault(u64),
    NoMemory,
}

/// Where the file behind an internal id comes from.
pub trait Fetch {
    /// The files, where the fetcher tells them, and how often it has failed.
    ghost now: { Self → Origin };

    /// A call from one state to another may give this answer to an id, with that limit.
    ghost gives: { Self → List ℕ → ℕ → Answer → Self → Type 0 };

    /// Pours the file with that id, at most `limit` bytes. Where the answer isn't `Whole`, a part may have been poured.
    fn fetch_to<P: Pour>(
        &mut self,
        alloc: Global,
        internal_id: &str,
        limit: u64,
        into: &mut P,
    ) -> Poured
        requires { limit < 2 ^ 64 - 1 }
        ensures poured { (fed : List ℕ) → P.took into.old fed → PouredAs (λ bytes. P.took into.new (fed ++ bytes))
            (λ answer. gives self.old internal_id.now limit answer self.new) result }
        ensures fixed { P.fixed into.new ≡ P.fixed into.old };

    /// The file with that id as a whole.
    fn fetch(&mut self, alloc: Global, internal_id: &str, limit: u64) -> Fetched
        requires { limit < 2 ^ 64 - 1 }
        ensures { gives self.old internal_id.now limit result self.new }
    {
        let mut collected = Collected::new(alloc);
        match self.fetch_to(alloc, internal_id, limit, &mut collected) {
            Poured::Whole(_) => Fetched::Given(collected.into_items()),
            Poured::Missing => Fetched::Missing,
            Poured::Refused(status) => Fetched::Refused(status),
            Poured::TooLong(length) => Fetched::TooLong(length),
            Poured::Fault(count) => Fetched::Fault(count),
            Poured::NoMemory => Fetched::NoMemory,
        }
    }

    /// Whatever a fetcher gives keeps the rules of all fetchers.
    ghost keeps: { AllKeepRules now gives };
}
