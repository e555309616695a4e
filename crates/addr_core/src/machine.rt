// The machine. Beside its journal it keeps where each bundle stands, how far each operation is, and the queue; no call but
// `open` and `journal` walks the journal.
ghost use Rattle.std.specs.Prelude.{◌≡◌, ◌≤◌, ◌<◌, ◌+◌, ◌^◌, ◌∷◌, [], true, false, length, replicate, nat_lt, IfOk, IfSome, OnOk, OnErr, slice_get, Ok};
ghost use Rattle.addr_locate.specs.Rows.{are_bundles, no_repeats};
ghost use Rattle.addr_history.specs.Answers.{load_reply, acquire_reply, acquire_adds, release_reply, release_adds, status_reply, take_reply, take_adds, done_reply, done_adds, fail_reply, fail_adds, close_reply, close_adds, count_reply};
ghost use Rattle.addr_history.specs.declared.event.Event.TheVariants.{Load, Acquire, Release, Take, Done, Fail, Close};
ghost use Rattle.addr_history.specs.declared.answers.Settled.TheVariants.{Kept};
ghost use Rattle.addr_core.specs.within.Wanting.{wanted_of};
ghost use Rattle.addr_history.specs.Legal.{Legal, IsAnswer};
ghost use Rattle.addr_history.specs.Places.{is_fetched_by, queue};
ghost use Rattle.addr_history.specs.Counts.{count_of, is_closed, is_unreleased, references_of, loads_of};
ghost use Rattle.addr_history.specs.Reading.{row_reply};
ghost use Rattle.addr_core.specs.ReadAll.{AnswersReadAll};
ghost use Rattle.addr_core.specs.Machine.{Machine, fresh, grown, with_kept, Loads, AnswersRead, HasImages, IdleHaveNone, ImagesFit, ReadyHave};

use crate::courses::{Course, acquire, course_at, fail_each, give_back, wake_each};
use crate::images::{clear_each, put};
use crate::now::Now;
use crate::prepare::{may_add, prepare};
use crate::reading::ready_row;
use crate::start::{no_images, no_slots, no_waiters, push_within};
use crate::waiters::{Waiters, clear_waiters, forget_each, make_room_each, wait_each, waiting};
use crate::wanted::{Wanted, needs_at, row_of, take_wanted};
use addr_base::{BundleNo, Cause, Image, Items, NoMemory, OpId, RowNo};
use addr_history::{
    AcquireErr, Ask, BundleState, Event, Item2, LoadErr, Next, NoHandle, NotTaken, OpStatus,
    ReadErr, Settled,
};
use addr_locate::Locator;
use addr_objects::{read_all_of_asset, read_asset};
use addr_queue::{
    Queue, Slot, end_slot, is_counted, is_taken_by, join_each, lacking, leave_each, let_go_each,
    slot_at, take_in_each, take_slot,
};
use std::alloc::Global;
use std::marker::Model;

/// The loading machine over the rows of a locator. It is used by one caller at a time.
#[derive(Drop)]
pub struct Core<I: Image + Drop> {
    locator: Locator,
    limit: u32,
    events: Vec<Event>,
    // by operation: the rows that it found and the bundles that they need, none once it is released; and how far it is
    wanted: Vec<Wanted>,
    courses: Vec<Course>,
    // by bundle: its image, where it stands, and the operations that wait for it
    images: Vec<Option<I>>,
    slots: Vec<Slot>,
    waits: Vec<Waiters>,
    queue: Queue,
    // how many bundles are being fetched, how many references there are, whether Close came
    fetched: u32,
    opened: u32,
    closed: bool,
    alloc: Global,
}

impl<I: Image + Drop> Model for Core<I> {
    ghost use Rattle.addr_core.specs.Machine.{Machine};
    ghost use Rattle.addr_core.specs.within.Kept.{IsCore};

    ghost Value = { Machine I };

    ghost view = { λ c. record { rows = c.locator; limit = c.limit; history = c.events.items; images = c.images.items } };

    ghost invariant = { λ c. IsCore I.fits c.locator c.limit c.events c.wanted c.images c.slots c.courses c.waits c.queue c.fetched c.opened c.closed };
}

impl<I: Image + Drop> Core<I> {
    /// A machine without an event. Takes the journal's whole room and the places for bundles at once: steps for each bundle.
    pub fn open(alloc: Global, locator: Locator, limit: u32) -> Result<Core<I>, NoMemory>
        requires least { 1 ≤ limit }
        requires greatest { limit ≤ 1000000 }
        ensures { IfOk result (λ core. core ≡ fresh locator limit) }
    {
        let _assets = locator.assets();
        let count = locator.bundles().len();
        let events = Vec::with_capacity(alloc, limit as usize)?;
        let wanted = Vec::with_capacity(alloc, limit as usize)?;
        let courses = Vec::with_capacity(alloc, limit as usize)?;
        let images = no_images(alloc, count)?;
        let slots = no_slots(alloc, count)?;
        let waits = no_waiters(alloc, count)?;
        let queue = Queue::new(alloc, count as u32)?;
        Ok(Core {
            locator,
            limit,
            events,
            wanted,
            images,
            slots,
            courses,
            waits,
            queue,
            fetched: 0,
            opened: 0,
            closed: false,
            alloc,
        })
    }

    /// Opens an operation. The events that its completion and its release need are reserved. Behind finding its rows, steps
    /// for each bundle that it needs.
    pub fn load(&mut self, caller: u32, ask: Ask) -> Result<OpId, LoadErr>
        requires { length ask.keys < 2 ^ 32 }
        ensures { Loads self.old caller ask result self.new }
    {
        let wanted = prepare(self.alloc, &self.now(), &ask)?;
        match self.accept(caller, ask, wanted) {
            Ok(op) => Ok(op),
            Err(_) => Err(LoadErr::NoMemory),
        }
    }

    fn accept(&mut self, caller: u32, ask: Ask, wanted: Wanted) -> Result<OpId, NoMemory>
        requires wanted { wanted ≡ wanted_of self.old.rows ask }
        requires accepted { load_reply self.old.rows self.old.limit self.old.history ask ≡ Ok
            (record { 0 = loads_of self.old.history }) }
        ensures number { IfOk result (λ op. op ≡ record { 0 = loads_of self.old.history }) }
        ensures machine { IfOk result (λ op. self.new ≡ grown self.old (Load op caller ask ∷ [])) }
        ensures err { OnErr result (self.new ≡ self.old) }
    {
        let needs = wanted.needs.as_slice();
        make_room_each(self.waits.as_mut_slice(), self.slots.as_slice(), needs)?;
        let op = OpId(self.wanted.len() as u32);
        let missing = lacking(self.slots.as_slice(), needs);
        join_each(&mut self.queue, self.slots.as_slice(), needs);
        wait_each(
            self.waits.as_mut_slice(),
            self.slots.as_slice(),
            needs,
            op.0,
        );
        take_in_each(self.slots.as_mut_slice(), needs);
        push_within(
            &mut self.courses,
            Course {
                missing,
                failed: None,
                references: 1,
            },
        );
        push_within(&mut self.events, Event::Load { op, caller, ask });
        push_within(&mut self.wanted, wanted);
        self.opened += 1;
        Ok(op)
    }

    fn now(&self) -> Now<'_>
        ensures rows { result.locator.now ≡ self.now.rows }
        ensures limit { result.limit ≡ self.now.limit }
        ensures history { result.events.now ≡ self.now.history }
    {
        Now {
            locator: &self.locator,
            limit: self.limit,
            events: self.events.as_slice(),
            slots: self.slots.as_slice(),
            queued: self.queue.len(),
            fetched: self.fetched,
            opened: self.opened,
            closed: self.closed,
        }
    }

    /// How far an operation is. One step.
    pub fn status(&self, op: OpId) -> Result<OpStatus, NoHandle>
        ensures { result ≡ status_reply self.now.rows self.now.history op }
    {
        match course_at(self.courses.as_slice(), op) {
            Some(course) => course.status(),
            None => Err(NoHandle),
        }
    }

    #[tactic(auto, unfolding(addr_history::specs::Counts::is_unreleased))]
    fn is_open(&self, op: OpId) -> bool
        ensures { result ≡ is_unreleased self.now.history op }
    {
        self.references(op) > 0
    }

    /// How many references an operation has: none where it wasn't opened, or was released as often as it was opened and
    /// acquired. One step.
    pub fn references(&self, op: OpId) -> u32
        ensures { result ≡ references_of self.now.history op }
    {
        match course_at(self.courses.as_slice(), op) {
            Some(course) => course.references,
            None => 0,
        }
    }

    /// Takes one reference more of an unreleased operation. The event and the Release that it owes need room. A few steps.
    pub fn acquire(&mut self, caller: u32, op: OpId) -> Result<(), AcquireErr>
        ensures reply { result ≡ acquire_reply self.old.rows self.old.limit self.old.history op }
        ensures machine { self.new ≡ grown self.old (acquire_adds result caller op) }
    {
        self.may_acquire(op)?;
        self.record_acquire(caller, op);
        Ok(())
    }

    #[tactic(auto, unfolding(addr_history::specs::Answers::acquire_reply))]
    fn may_acquire(&self, op: OpId) -> Result<(), AcquireErr>
        ensures { result ≡ acquire_reply self.now.rows self.now.limit self.now.history op }
    {
        if !self.is_open(op) {
            return Err(AcquireErr::NoHandle);
        }
        may_add(&self.now(), op)
    }

    fn record_acquire(&mut self, caller: u32, op: OpId)
        requires { acquire_reply self.old.rows self.old.limit self.old.history op ≡ Ok tt }
        ensures { self.new ≡ grown self.old (Acquire op caller ∷ []) }
    {
        push_within(&mut self.events, Event::Acquire { op, caller });
        acquire(self.courses.as_mut_slice(), op.0);
        self.opened += 1;
    }

    /// Gives a reference of an operation back. With its last one each bundle whose count falls to zero loses its image or its place
    /// in the queue, in steps for each bundle that the operation needs; else a few steps.
    #[tactic(auto, unfolding(addr_history::specs::Answers::release_reply, addr_history::specs::Answers::release_adds))]
    pub fn release(&mut self, caller: u32, op: OpId) -> Result<(), NoHandle>
        ensures reply { result ≡ release_reply self.old.history op }
        ensures machine { self.new ≡ grown self.old (release_adds self.old.history caller op) }
    {
        if !self.is_open(op) {
            return Err(NoHandle);
        }
        if self.references(op) > 1 {
            self.record_release(caller, op);
            return Ok(());
        }
        self.let_go(caller, op);
        Ok(())
    }

    fn record_release(&mut self, caller: u32, op: OpId)
        requires { 1 < references_of self.old.history op }
        ensures { self.new ≡ grown self.old (Release op caller ∷ []) }
    {
        push_within(&mut self.events, Event::Release { op, caller });
        give_back(self.courses.as_mut_slice(), op.0);
        self.opened -= 1;
    }

    fn let_go(&mut self, caller: u32, op: OpId)
        requires unreleased { is_unreleased self.old.history op ≡ true }
        requires last { references_of self.old.history op ≤ 1 }
        ensures { self.new ≡ grown self.old (Release op caller ∷ []) }
    {
        push_within(&mut self.events, Event::Release { op, caller });
        let wanted = take_wanted(self.alloc, self.wanted.as_mut_slice(), op);
        let bundles = wanted.needs.as_slice();
        leave_each(&mut self.queue, self.slots.as_slice(), bundles);
        let_go_each(self.slots.as_mut_slice(), bundles);
        clear_each(self.images.as_mut_slice(), self.slots.as_slice(), bundles);
        forget_each(
            self.alloc,
            self.waits.as_mut_slice(),
            self.slots.as_slice(),
            bundles,
        );
        give_back(self.courses.as_mut_slice(), op.0);
        self.opened -= 1;
    }

    fn next(&self) -> Next
        ensures { result ≡ take_reply self.now.rows self.now.history }
    {
        match self.queue.first() {
            Some(b) => Next::Bundle(b),
            None => if self.closed { Next::End } else { Next::Idle },
        }
    }

    /// The first queued bundle, for a worker to fetch. A few steps.
    pub fn take(&mut self, worker: u32) -> Next
        ensures reply { result ≡ take_reply self.old.rows self.old.history }
        ensures machine { self.new ≡ grown self.old (take_adds result worker) }
    {
        match self.next() {
            Next::Bundle(b) => {
                self.record_take(worker, b);
                Next::Bundle(b)
            }
            Next::Idle => Next::Idle,
            Next::End => Next::End,
        }
    }

    fn record_take(&mut self, worker: u32, b: BundleNo)
        requires { IsAnswer self.old.rows self.old.limit self.old.history (Take b worker) }
        ensures { self.new ≡ grown self.old (Take b worker ∷ []) }
    {
        push_within(&mut self.events, Event::Take { b, worker });
        take_slot(self.slots.as_mut_slice(), b, worker);
        self.queue.remove(b);
        self.fetched += 1;
    }

    /// Ends a fetch with the bundle's image. It comes back where that worker doesn't fetch the bundle, and is let go
    /// where no operation needs the bundle any more. Steps for each operation that waits for the bundle.
    #[tactic(auto, unfolding(addr_history::specs::Answers::done_reply, addr_history::specs::Answers::done_adds))]
    pub fn done(&mut self, worker: u32, b: BundleNo, image: I) -> Result<Settled, I>
        requires { IfSome (slice_get self.old.rows.bundles b.0) (λ row. I.fits image row.size row.digest) }
        ensures reply { result ≡ done_reply self.old.rows self.old.history worker b image }
        ensures machine { self.new ≡ with_kept (grown self.old (done_adds self.old.history worker b)) b image result }
    {
        if !self.is_fetched_by(b, worker) {
            return Err(image);
        }
        if !self.is_counted(b, worker) {
            self.record_dropped(worker, b);
            return Ok(Settled::Dropped);
        }
        self.keep(worker, b, image);
        Ok(Settled::Kept)
    }

    fn is_fetched_by(&self, b: BundleNo, worker: u32) -> bool
        ensures { result ≡ is_fetched_by self.now.history b worker }
    {
        is_taken_by(self.slots.as_slice(), b, worker)
    }

    fn is_counted(&self, b: BundleNo, worker: u32) -> bool
        requires { is_fetched_by self.now.history b worker ≡ true }
        ensures { result ≡ nat_lt 0 (count_of self.now.rows self.now.history b) }
    {
        is_counted(self.slots.as_slice(), b)
    }

    fn keep(&mut self, worker: u32, b: BundleNo, image: I)
        requires fetched { is_fetched_by self.old.history b worker ≡ true }
        requires counted { 0 < count_of self.old.rows self.old.history b }
        requires fitting { IfSome (slice_get self.old.rows.bundles b.0) (λ row. I.fits image row.size row.digest) }
        ensures { self.new ≡ with_kept (grown self.old (Done b worker ∷ [])) b image (Ok Kept) }
    {
        push_within(&mut self.events, Event::Done { b, worker });
        put(self.images.as_mut_slice(), b, image);
        end_slot(self.slots.as_mut_slice(), b, true);
        wake_each(
            self.courses.as_mut_slice(),
            waiting(self.waits.as_slice(), b),
        );
        clear_waiters(self.waits.as_mut_slice(), b);
        self.fetched -= 1;
    }

    fn record_dropped(&mut self, worker: u32, b: BundleNo)
        requires fetched { is_fetched_by self.old.history b worker ≡ true }
        requires counted { count_of self.old.rows self.old.history b ≡ 0 }
        ensures { self.new ≡ grown self.old (Done b worker ∷ []) }
    {
        push_within(&mut self.events, Event::Done { b, worker });
        end_slot(self.slots.as_mut_slice(), b, false);
        self.fetched -= 1;
    }

    /// Ends a fetch without an image. Steps for each operation that waits for the bundle.
    #[tactic(auto, unfolding(addr_history::specs::Answers::fail_reply, addr_history::specs::Answers::fail_adds))]
    pub fn fail(&mut self, worker: u32, b: BundleNo, cause: Cause) -> Result<(), NotTaken>
        ensures reply { result ≡ fail_reply self.old.history worker b }
        ensures machine { self.new ≡ grown self.old (fail_adds self.old.history worker b cause) }
    {
        if !self.is_fetched_by(b, worker) {
            return Err(NotTaken);
        }
        self.record_failed(worker, b, cause);
        Ok(())
    }

    fn record_failed(&mut self, worker: u32, b: BundleNo, cause: Cause)
        requires { is_fetched_by self.old.history b worker ≡ true }
        ensures { self.new ≡ grown self.old (Fail b worker cause ∷ []) }
    {
        push_within(&mut self.events, Event::Fail { b, worker, cause });
        end_slot(self.slots.as_mut_slice(), b, false);
        fail_each(
            self.courses.as_mut_slice(),
            waiting(self.waits.as_slice(), b),
            OpStatus::Failed(b, cause),
        );
        clear_waiters(self.waits.as_mut_slice(), b);
        self.fetched -= 1;
    }

    /// Accepts no load from now on. False where it was closed before. One step.
    #[tactic(auto, unfolding(addr_history::specs::Answers::close_reply, addr_history::specs::Answers::close_adds))]
    pub fn close(&mut self) -> bool
        ensures reply { result ≡ close_reply self.old.history }
        ensures machine { self.new ≡ grown self.old (close_adds self.old.history) }
    {
        if self.is_closed() {
            return false;
        }
        self.record_close();
        true
    }

    fn is_closed(&self) -> bool
        ensures { result ≡ is_closed self.now.history }
    {
        self.closed
    }

    fn record_close(&mut self)
        requires { is_closed self.old.history ≡ false }
        ensures { self.new ≡ grown self.old (Close ∷ []) }
    {
        push_within(&mut self.events, Event::Close);
        self.closed = true;
    }

    /// A bundle's count, and where it is. One step.
    pub fn count(&self, b: BundleNo) -> Option<(u32, BundleState)>
        ensures { result ≡ count_reply self.now.rows self.now.history b }
    {
        match slot_at(self.slots.as_slice(), b) {
            Some(slot) => Some((slot.count, slot.state())),
            None => None,
        }
    }

    /// The bytes of the asset that an operation's i-th row is, in the image of the row's first dependency. A few steps, and a
    /// copy of the bytes, which alone takes memory.
    pub fn read(&self, op: OpId, i: u32) -> Result<Items<u8>, ReadErr>
        ensures { AnswersRead I.object_of self.now op i result }
    {
        match self.row(op, i) {
            Ok(row) => self.read_row(op, i, row),
            Err(refusal) => Err(refusal),
        }
    }

    /// An operation's i-th row, where it may be read; else the first refusal that looks at no image.
    fn row(&self, op: OpId, i: u32) -> Result<RowNo, ReadErr>
        ensures { result ≡ row_reply self.now.rows self.now.history op i }
    {
        ready_row(self.status(op), row_of(self.wanted.as_slice(), op, i))
    }

    fn read_row(&self, op: OpId, i: u32, row: RowNo) -> Result<Items<u8>, ReadErr>
        requires { row_reply self.now.rows self.now.history op i ≡ Ok row }
        ensures { AnswersRead I.object_of self.now op i result }
    {
        let asset = &self.locator.assets()[row.0 as usize];
        read_asset(self.alloc, self.images.as_slice(), asset)
    }

    /// The asset that an operation's i-th row is with all that it leads to among the operation's bundles: one item for each
    /// GUID, in the order of GUIDs. An ordered look-up for each object and each reference on the way, and memory for these.
    pub fn read_all(&self, op: OpId, i: u32) -> Result<Items<Item2>, ReadErr>
        ensures { AnswersReadAll I.object_of self.now op i result }
    {
        match self.row(op, i) {
            Ok(row) => self.read_all_of_row(op, i, row),
            Err(refusal) => Err(refusal),
        }
    }

    fn read_all_of_row(&self, op: OpId, i: u32, row: RowNo) -> Result<Items<Item2>, ReadErr>
        requires { row_reply self.now.rows self.now.history op i ≡ Ok row }
        ensures { AnswersReadAll I.object_of self.now op i result }
    {
        let needs = needs_at(self.wanted.as_slice(), op);
        let bundles = self.locator.bundles();
        let asset = &self.locator.assets()[row.0 as usize];
        read_all_of_asset(self.alloc, self.images.as_slice(), bundles, needs, asset)
    }

    /// The events so far.
    pub fn journal(&self) -> &[Event]
        ensures history { result.now ≡ self.now.history }
        ensures legal { Legal self.now.rows self.now.limit self.now.history }
        ensures held { HasImages self.now }
        ensures idle { IdleHaveNone self.now }
        ensures ready { ReadyHave self.now }
        ensures fitting { ImagesFit I.fits self.now }
    {
        self.events.as_slice()
    }

    pub fn locator(&self) -> &Locator
        ensures { result.now ≡ self.now.rows }
    {
        &self.locator
    }
}
