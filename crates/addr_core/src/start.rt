// What is kept of a machine that was just opened; and pushing within room that is there.
ghost use Rattle.std.specs.Prelude.{◌≡◌, ◌+◌, ◌<◌, ◌≤◌, ◌++◌, ◌∷◌, [], None, false, replicate, vec_len, vec_capacity, IfOk};
ghost use Rattle.addr_core.specs.within.Courses.{waiting_lists};

use crate::waiters::Waiters;
use addr_base::NoMemory;
use addr_queue::Slot;
use std::alloc::Global;

/// A slot for each bundle, all of them absent.
pub fn no_slots(alloc: Global, count: usize) -> Result<Vec<Slot>, NoMemory>
    ensures { IfOk result
        (λ slots. slots.items ≡ replicate count
        (record { count = 0; resident = false; fetcher = None; queued = false })) }
{
    let mut slots = Vec::with_capacity(alloc, count)?;
    for made in 0..count {
        slots.push(Slot {
            count: 0,
            resident: false,
            fetcher: None,
            queued: false,
        })?;
    }
    Ok(slots)
}

/// A list for each bundle, of nobody.
pub fn no_waiters(alloc: Global, count: usize) -> Result<Vec<Waiters>, NoMemory>
    ensures { IfOk result (λ waits. waiting_lists waits.items ≡ replicate count []) }
{
    let mut waits = Vec::with_capacity(alloc, count)?;
    for made in 0..count {
        waits.push(Waiters::new(alloc))?;
    }
    Ok(waits)
}

/// A place for each bundle, all of them empty.
pub fn no_images<I: Drop>(alloc: Global, count: usize) -> Result<Vec<Option<I>>, NoMemory>
    ensures { IfOk result (λ images. images.items ≡ replicate count None) }
{
    let mut images = Vec::with_capacity(alloc, count)?;
    for made in 0..count {
        images.push(None)?;
    }
    Ok(images)
}

/// Pushes where there is room, and takes no memory.
pub fn push_within<T: Drop>(items: &mut Vec<T>, item: T)
    requires { vec_len items.old < vec_capacity items.old }
    ensures items { items.new.items ≡ items.old.items ++ item ∷ [] }
    ensures len { vec_len items.new ≡ vec_len items.old + 1 }
    ensures room { vec_capacity items.old ≤ vec_capacity items.new }
{
    match items.push(item) {
        Ok(()) => {}
        Err(_) => unreachable!(),
    }
}
