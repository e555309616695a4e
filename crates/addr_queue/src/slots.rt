// Where each bundle stands: one slot a bundle, by its number. Plain data, so that a change is one write.
ghost use Rattle.std.specs.Prelude.{◌≡◌, ◌<◌, ◌^◌, nat_lt, length, map, slice_get, is_some, if◌then◌else◌};
ghost use Rattle.std.specs.List.{count_by};
ghost use Rattle.addr_history.specs.declared.answers.BundleState.TheVariants.{Resident, Fetching, Queued, Absent};
ghost use Rattle.addr_queue.specs.Changes.{change, change_each};
ghost use Rattle.addr_queue.specs.Slots.{taken, ended, let_go, taken_in, leaves, is_missing, is_out, is_idle, is_by, passes};

use addr_base::BundleNo;
use addr_history::BundleState;

/// A bundle's count, whether it is resident, which worker fetches it, and whether it is queued.
#[derive(Clone, Copy)]
pub struct Slot {
    pub count: u32,
    pub resident: bool,
    pub fetcher: Option<u32>,
    pub queued: bool,
}

impl Slot {
    /// Where the bundle is.
    pub fn state(self) -> BundleState
        ensures { result ≡ (if self.resident then Resident else if is_some self.fetcher then Fetching
            else if self.queued then Queued else Absent) }
    {
        if self.resident {
            BundleState::Resident
        } else if self.fetcher.is_some() {
            BundleState::Fetching
        } else if self.queued {
            BundleState::Queued
        } else {
            BundleState::Absent
        }
    }

    /// Taken by a worker: it leaves the queue.
    fn taken(self, worker: u32) -> Slot
        ensures { result ≡ taken worker self }
    {
        Slot {
            count: self.count,
            resident: self.resident,
            fetcher: Some(worker),
            queued: false,
        }
    }

    /// Its fetch ended, with an image that is kept or without.
    fn ended(self, kept: bool) -> Slot
        ensures { result ≡ ended kept self }
    {
        Slot {
            count: self.count,
            resident: kept,
            fetcher: None,
            queued: self.queued,
        }
    }

    /// One operation less needs it. Where none is left it is neither resident nor queued.
    fn let_go(self) -> Slot
        ensures { result ≡ let_go self }
    {
        let counted = self.count > 1;
        Slot {
            count: self.count.saturating_sub(1),
            resident: self.resident && counted,
            fetcher: self.fetcher,
            queued: self.queued && counted,
        }
    }

    /// One operation more needs it. Where it is neither resident nor being fetched it is queued.
    fn taken_in(self) -> Slot
        ensures { result ≡ taken_in self }
    {
        let free = !self.resident && self.fetcher.is_none();
        Slot {
            count: self.count.saturating_add(1),
            resident: self.resident,
            fetcher: self.fetcher,
            queued: self.queued || free,
        }
    }

    /// Whether it is absent.
    fn is_out(self) -> bool
        ensures { result ≡ is_out self }
    {
        !self.resident && self.fetcher.is_none() && !self.queued
    }
}

pub fn slot_at(slots: &[Slot], b: BundleNo) -> Option<Slot>
    ensures { result ≡ slice_get slots.now b.0 }
{
    slots.get(b.0 as usize).copied()
}

/// Whether the bundle leaves the queue when its count is one less.
pub fn leaves(slots: &[Slot], b: BundleNo) -> bool
    ensures { result ≡ passes leaves slots.now b }
{
    match slots.get(b.0 as usize) {
        Some(slot) => slot.queued && slot.count <= 1,
        None => false,
    }
}

/// Whether the bundle isn't resident.
pub fn is_missing(slots: &[Slot], b: BundleNo) -> bool
    ensures { result ≡ passes is_missing slots.now b }
{
    match slots.get(b.0 as usize) {
        Some(slot) => !slot.resident,
        None => false,
    }
}

/// Whether the bundle is absent.
pub fn is_out(slots: &[Slot], b: BundleNo) -> bool
    ensures { result ≡ passes is_out slots.now b }
{
    match slots.get(b.0 as usize) {
        Some(slot) => slot.is_out(),
        None => false,
    }
}

/// Whether no operation needs the bundle.
pub fn is_idle(slots: &[Slot], b: BundleNo) -> bool
    ensures { result ≡ passes is_idle slots.now b }
{
    match slots.get(b.0 as usize) {
        Some(slot) => slot.count == 0,
        None => false,
    }
}

/// Whether that worker fetches the bundle.
pub fn is_taken_by(slots: &[Slot], b: BundleNo, worker: u32) -> bool
    ensures { result ≡ passes (λ s. is_by worker s.fetcher) slots.now b }
{
    match slots.get(b.0 as usize) {
        Some(slot) => slot.fetcher == Some(worker),
        None => false,
    }
}

#[tactic(auto, using(crate::proofs::Places::change_there, crate::proofs::Places::change_past))]
pub fn take_slot(slots: &mut [Slot], b: BundleNo, worker: u32)
    ensures { slots.new ≡ change (taken worker) b.0 slots.old }
{
    let place = b.0 as usize;
    if place < slots.len() {
        slots[place] = slots[place].taken(worker);
    }
}

#[tactic(auto, using(crate::proofs::Places::change_there, crate::proofs::Places::change_past))]
pub fn end_slot(slots: &mut [Slot], b: BundleNo, kept: bool)
    ensures { slots.new ≡ change (ended kept) b.0 slots.old }
{
    let place = b.0 as usize;
    if place < slots.len() {
        slots[place] = slots[place].ended(kept);
    }
}

#[tactic(auto, using(crate::proofs::Places::change_there, crate::proofs::Places::change_past))]
fn let_go_slot(slots: &mut [Slot], b: BundleNo)
    ensures { slots.new ≡ change let_go b.0 slots.old }
{
    let place = b.0 as usize;
    if place < slots.len() {
        slots[place] = slots[place].let_go();
    }
}

#[tactic(auto, using(crate::proofs::Places::change_there, crate::proofs::Places::change_past))]
fn take_in_slot(slots: &mut [Slot], b: BundleNo)
    ensures { slots.new ≡ change taken_in b.0 slots.old }
{
    let place = b.0 as usize;
    if place < slots.len() {
        slots[place] = slots[place].taken_in();
    }
}

/// One operation less needs these bundles.
pub fn let_go_each(slots: &mut [Slot], needs: &[BundleNo])
    ensures { slots.new ≡ change_each let_go (map (λ b. b.0) needs.now) slots.old }
{
    for b in needs {
        let_go_slot(slots, *b);
    }
}

/// One operation more needs these bundles.
pub fn take_in_each(slots: &mut [Slot], needs: &[BundleNo])
    ensures { slots.new ≡ change_each taken_in (map (λ b. b.0) needs.now) slots.old }
{
    for b in needs {
        take_in_slot(slots, *b);
    }
}

pub fn is_counted(slots: &[Slot], b: BundleNo) -> bool
    ensures { result ≡ passes (λ s. nat_lt 0 s.count) slots.now b }
{
    match slots.get(b.0 as usize) {
        Some(slot) => slot.count > 0,
        None => false,
    }
}

/// How many of the bundles aren't resident.
pub fn lacking(slots: &[Slot], needs: &[BundleNo]) -> u32
    requires { length needs.now < 2 ^ 32 }
    ensures { result ≡ count_by (passes is_missing slots.now) needs.now }
{
    needs.iter().filter(|b| is_missing(slots, **b)).count() as u32
}
