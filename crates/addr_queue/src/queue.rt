// A ring of places with two links each: place 0 stands before the first and behind the last, a bundle's place is one more
// than its number. Refused: a place behind all bundles in place 0's stead, which more bundles would have to move.
ghost use Rattle.std.specs.Prelude.{◌≡◌, ◌==◌, ◌<◌, ◌+◌, ◌^◌, ◌++◌, ◌∷◌, [], true, false, not, filter, length, slice_get, replicate, vec_len, IfOk};
ghost use Rattle.std.specs.List.{list_any};
ghost use Rattle.addr_queue.specs.Queue.{Ordered, is_among};

use addr_base::{BundleNo, NoMemory};
use std::alloc::Global;
use std::marker::Model;

/// Different bundles below a number, in the order in which they joined. It owns two links for each bundle that may join.
#[derive(Drop)]
pub struct Queue {
    room: u32,
    len: u32,
    next: Vec<u32>,
    prev: Vec<u32>,
}

impl Model for Queue {
    ghost use Rattle.addr_queue.specs.Queue.{Ordered};
    ghost use Rattle.addr_queue.specs.within.Ring.{ordered, IsQueue};

    ghost Value = { Ordered };

    ghost view = { λ q. record { room = q.room; bundles = ordered q.room q.next.items } };

    ghost invariant = { λ q. IsQueue q.room q.len q.next q.prev };
}

/// Links that all lead to place 0.
fn no_links(alloc: Global, count: usize) -> Result<Vec<u32>, NoMemory>
    ensures items { IfOk result (λ made. made.items ≡ replicate count 0) }
    ensures len { IfOk result (λ made. vec_len made ≡ count) }
{
    let mut made = Vec::with_capacity(alloc, count)?;
    for _ in 0..count {
        made.push(0)?;
    }
    Ok(made)
}

impl Queue {
    /// An empty queue for the bundles below that number. Takes all the memory that it will need.
    pub fn new(alloc: Global, room: u32) -> Result<Queue, NoMemory>
        ensures { IfOk result (λ queue. queue ≡ record { room = room; bundles = [] }) }
    {
        let next = no_links(alloc, room as usize + 1)?;
        let prev = no_links(alloc, room as usize + 1)?;
        Ok(Queue {
            room,
            len: 0,
            next,
            prev,
        })
    }

    /// How many are in the queue. One step.
    pub fn len(&self) -> u32
        ensures { result ≡ length self.now.bundles }
    {
        self.len
    }

    /// The first of the queue. One step.
    pub fn first(&self) -> Option<BundleNo>
        ensures { result ≡ slice_get self.now.bundles 0 }
    {
        let first = self.next[0];
        if first == 0 {
            None
        } else {
            Some(BundleNo(first - 1))
        }
    }

    /// Joins the queue at its end. Four links change; no memory is taken.
    pub fn push(&mut self, b: BundleNo)
        requires below { b.0 < self.old.room }
        requires new { is_among b self.old.bundles ≡ false }
        ensures { self.new ≡ record { room = self.old.room; bundles = self.old.bundles ++ b ∷ [] } }
    {
        let last = self.prev[0];
        let place = b.0 + 1;
        self.next[last as usize] = place;
        self.prev[place as usize] = last;
        self.next[place as usize] = 0;
        self.prev[0] = place;
        self.len += 1;
    }

    /// Leaves the queue, from wherever it stands. Two links change.
    pub fn remove(&mut self, b: BundleNo)
        requires { is_among b self.old.bundles ≡ true }
        ensures { self.new
            ≡ record { room = self.old.room; bundles = filter (λ c. not (c.0 == b.0)) self.old.bundles } }
    {
        let place = b.0 as usize + 1;
        let before = self.prev[place];
        let after = self.next[place];
        self.next[before as usize] = after;
        self.prev[after as usize] = before;
        self.len -= 1;
    }
}
