// The operations that wait for each bundle: one list a bundle. Room is made before one is added, so that adding takes no memory.
ghost use Rattle.std.specs.Prelude.{◌≡◌, ◌<◌, ◌++◌, ◌∷◌, [], true, slice_get, slice_set, Some, OnOk, if◌then◌else◌, ℕ, List};
ghost use Rattle.addr_locate.specs.Rows.{no_repeats};
ghost use Rattle.addr_queue.specs.Changes.{change, cleared_each};
ghost use Rattle.addr_core.specs.within.Courses.{waiting_lists, HasRoom, waited_each, Waiting};
ghost use Rattle.addr_queue.specs.Slots.{passes, is_missing, is_idle};

use addr_base::{BundleNo, NoMemory};
use addr_queue::{Slot, is_idle, is_missing};
use std::alloc::Global;
use std::marker::Model;

/// The operations that wait for a bundle, by their numbers.
#[derive(Drop)]
pub struct Waiters {
    ops: Vec<u32>,
}

impl Model for Waiters {
    ghost use Rattle.std.specs.Prelude.{◌-◌, vec_len, vec_capacity};
    ghost use Rattle.addr_core.specs.within.Courses.{Waiting};

    ghost Value = { Waiting };

    ghost view = { λ w. record { ops = w.ops.items; spare = vec_capacity w.ops - vec_len w.ops } };
}

impl Waiters {
    /// Nobody, and no memory taken.
    pub fn new(alloc: Global) -> Waiters
        ensures { result.ops ≡ [] }
    {
        Waiters {
            ops: Vec::new(alloc),
        }
    }

    pub fn as_slice(&self) -> &[u32]
        ensures { result.now ≡ self.now.ops }
    {
        self.ops.as_slice()
    }

    /// Makes room for one more.
    pub fn make_room(&mut self) -> Result<(), NoMemory>
        ensures ops { self.new.ops ≡ self.old.ops }
        ensures room { OnOk result (0 < self.new.spare) }
    {
        self.ops.reserve(1)?;
        Ok(())
    }

    /// Adds one within the room that was made.
    pub fn add(&mut self, op: u32)
        requires { 0 < self.old.spare }
        ensures { self.new.ops ≡ self.old.ops ++ op ∷ [] }
    {
        match self.ops.push(op) {
            Ok(()) => {}
            Err(_) => unreachable!(),
        }
    }

    /// Nobody waits any more. The room stays.
    pub fn clear(&mut self)
        ensures { self.new.ops ≡ [] }
    {
        self.ops.clear();
    }
}

/// Makes room for one more in the lists of those of the bundles that aren't resident.
pub fn make_room_each(
    waits: &mut [Waiters],
    slots: &[Slot],
    needs: &[BundleNo],
) -> Result<(), NoMemory>
    requires { no_repeats needs.now ≡ true }
    ensures lists { waiting_lists waits.new ≡ waiting_lists waits.old }
    ensures room { OnOk result (HasRoom (passes is_missing slots.now) needs.now waits.new) }
{
    for b in needs {
        make_room(waits, is_missing(slots, *b), *b)?;
    }
    Ok(())
}

fn make_room(waits: &mut [Waiters], missing: bool, b: BundleNo) -> Result<(), NoMemory>
    ensures lists { waiting_lists waits.new ≡ waiting_lists waits.old }
    ensures room { OnOk result (missing ≡ true → (w : Waiting) → slice_get waits.new b.0 ≡ Some w → 0 < w.spare) }
    ensures others { (n : ℕ) → (n ≡ b.0 → ⊥) → slice_get waits.new n ≡ slice_get waits.old n }
{
    if !missing {
        return Ok(());
    }
    let place = b.0 as usize;
    if place >= waits.len() {
        return Ok(());
    }
    waits[place].make_room()?;
    Ok(())
}

/// The operation waits for those of the bundles that aren't resident.
pub fn wait_each(waits: &mut [Waiters], slots: &[Slot], needs: &[BundleNo], op: u32)
    requires once { no_repeats needs.now ≡ true }
    requires room { HasRoom (passes is_missing slots.now) needs.now waits.old }
    ensures { waiting_lists waits.new ≡ waited_each (passes is_missing slots.now) op needs.now
        (waiting_lists waits.old) }
{
    for b in needs {
        wait(waits, is_missing(slots, *b), *b, op);
    }
}

fn wait(waits: &mut [Waiters], missing: bool, b: BundleNo, op: u32)
    requires { missing ≡ true → (w : Waiting) → slice_get waits.old b.0 ≡ Some w → 0 < w.spare }
    ensures lists { waiting_lists waits.new ≡
        (if missing then change
        (λ ops. ops ++ op ∷ []) b.0 (waiting_lists waits.old) else waiting_lists waits.old) }
    ensures others { (n : ℕ) → (n ≡ b.0 → ⊥) → slice_get waits.new n ≡ slice_get waits.old n }
{
    let place = b.0 as usize;
    if missing && place < waits.len() {
        waits[place].add(op);
    }
}

/// Nobody waits for the bundle any more.
pub fn clear_waiters(waits: &mut [Waiters], b: BundleNo)
    ensures { waiting_lists waits.new ≡ slice_set (waiting_lists waits.old) b.0 [] }
{
    let place = b.0 as usize;
    if place < waits.len() {
        waits[place].clear();
    }
}

/// Those that wait for the bundle.
pub fn waiting(waits: &[Waiters], b: BundleNo) -> &[u32]
    ensures { (ops : List ℕ) → slice_get (waiting_lists waits.now) b.0 ≡ Some ops → result.now ≡ ops }
{
    match waits.get(b.0 as usize) {
        Some(waiters) => waiters.as_slice(),
        None => &[],
    }
}

/// The lists of those of the bundles that no operation needs are given up, with their memory.
pub fn forget_each(alloc: Global, waits: &mut [Waiters], slots: &[Slot], needs: &[BundleNo])
    ensures { waiting_lists waits.new ≡ cleared_each [] (passes is_idle slots.now) needs.now (waiting_lists waits.old) }
{
    for b in needs {
        if is_idle(slots, *b) {
            forget(alloc, waits, *b);
        }
    }
}

fn forget(alloc: Global, waits: &mut [Waiters], b: BundleNo)
    ensures { waiting_lists waits.new ≡ slice_set (waiting_lists waits.old) b.0 [] }
{
    let place = b.0 as usize;
    if place < waits.len() {
        waits[place] = Waiters::new(alloc);
    }
}
