// What is kept, as questions of a load see it.
ghost use Rattle.std.specs.Prelude.{◌≡◌, ◌+◌, ◌*◌, ◌<◌, ◌^◌, length, true, IsTrue, if◌then◌else◌};
ghost use Rattle.std.specs.List.{count_by};
ghost use Rattle.addr_locate.specs.Rows.{are_bundles};
ghost use Rattle.addr_history.specs.Counts.{is_closed};
ghost use Rattle.addr_history.specs.Places.{is_absent, is_fetched, bundles_of, queue};
ghost use Rattle.addr_history.specs.Answers.{reserved};
ghost use Rattle.addr_core.specs.within.Kept.{IsNow};
ghost use Rattle.addr_queue.specs.Slots.{passes, is_out};

use addr_base::BundleNo;
use addr_history::Event;
use addr_locate::Locator;
use addr_queue::{Slot, is_out};

/// The journal, the slots of the bundles, and counts of what is queued, fetched and unreleased.
#[derive(Drop)]
pub struct Now<'a> {
    pub locator: &'a Locator,
    pub limit: u32,
    pub events: &'a [Event],
    pub slots: &'a [Slot],
    pub queued: u32,
    pub fetched: u32,
    pub opened: u32,
    pub closed: bool,
    ghost known: { IsNow locator.now limit events.now slots.now queued fetched opened closed },
}

fn close_owed(closed: bool) -> u64
    ensures { result ≡ (if closed then 0 else 1) }
{
    if closed { 0 } else { 1 }
}

impl Now<'_> {
    /// The events that are still owed.
    pub fn reserved(&self) -> u32
        ensures { result ≡ reserved self.now.locator.now self.now.events.now }
    {
        let owed = u64::from(self.opened)
            + 2 * u64::from(self.queued)
            + u64::from(self.fetched)
            + close_owed(self.closed);
        owed as u32
    }

    /// The events that a load of some bundles would need.
    pub fn needed(&self, needs: &[BundleNo]) -> u64
        requires few { length needs.now < 2 ^ 32 }
        requires within { are_bundles (length self.now.locator.now.bundles) needs.now ≡ true }
        ensures exact { result ≡ 2 + 2 * count_by (is_absent self.now.locator.now self.now.events.now) needs.now }
        ensures few { result < 2 ^ 34 }
    {
        let absent = self.absent(needs);
        2 + 2 * absent as u64
    }

    fn absent(&self, needs: &[BundleNo]) -> usize
        requires few { length needs.now < 2 ^ 32 }
        ensures exact { result ≡ count_by (passes is_out self.now.slots.now) needs.now }
        ensures few { result < 2 ^ 32 }
    {
        needs.iter().filter(|b| is_out(self.slots, **b)).count()
    }
}
