// One search after another over the same numbers, each linear in what it finds and in the rows of that.
ghost use Rattle.std.specs.Prelude.{◌≡◌, ℕ, ◌<◌, nat_lt, length, IfOk};
ghost use Rattle.std.specs.List.{All, count_by};
ghost use Rattle.std.specs.Ordering.{nat_cmp};
ghost use Rattle.addr_walks.specs.Rows.{LedTo, LedBelow, AreBelow, IsSizeOf};
ghost use Rattle.addr_walks.specs.Walks.{IsListOf};

use crate::marking::Marked;
use addr_base::{Items, NoMemory};
use std::alloc::Global;
use std::marker::Model;

/// Room for searches over the numbers below some length. Contracts see that length.
#[derive(Drop)]
pub struct Search {
    marked: Marked,
}

impl Model for Search {
    ghost use Rattle.std.specs.Prelude.{ℕ, vec_len};
    ghost use Rattle.addr_walks.specs.Marks.{Tracks};

    ghost Value = { ℕ };

    ghost view = { λ s. vec_len s.marked.marks };

    ghost invariant = { λ s. Tracks s.marked.marks.items s.marked.queue.items };
}

impl Search {
    /// Takes a byte for each number.
    pub fn new(alloc: Global, size: usize) -> Result<Search, NoMemory>
        ensures { IfOk result (λ search. search ≡ size) }
    {
        let marked = Marked::new(alloc, size)?;
        Ok(Search { marked })
    }

    /// The numbers to which walks lead from the seeds, in ascending order.
    pub fn reached(
        &mut self,
        alloc: Global,
        rows: &[Items<u32>],
        seeds: &[u32],
    ) -> Result<Items<u32>, NoMemory>
        requires size { self.old ≡ length rows.now }
        requires below { AreBelow rows.now (length rows.now) }
        requires seeds { All (λ s. s < length rows.now) seeds.now }
        ensures size { self.new ≡ self.old }
        ensures found { IfOk result (IsListOf nat_cmp (LedTo rows.now seeds.now)) }
    {
        self.marked.spread(rows, seeds)?;
        self.marked.queue.sort_unstable();
        let found = Items::copy_of(alloc, self.marked.queue.as_slice())?;
        Ok(found)
    }

    /// How many numbers walks lead to from the seeds; no list of them is made.
    pub fn count(&mut self, rows: &[Items<u32>], seeds: &[u32]) -> Result<usize, NoMemory>
        requires size { self.old ≡ length rows.now }
        requires below { AreBelow rows.now (length rows.now) }
        requires seeds { All (λ s. s < length rows.now) seeds.now }
        ensures size { self.new ≡ self.old }
        ensures count { IfOk result (IsSizeOf (LedTo rows.now seeds.now)) }
    {
        self.marked.spread(rows, seeds)?;
        Ok(self.marked.queue.len())
    }

    /// How many of the numbers below a bound walks lead to from the seeds; no list of them is made.
    pub fn count_below(
        &mut self,
        rows: &[Items<u32>],
        seeds: &[u32],
        bound: usize,
    ) -> Result<usize, NoMemory>
        requires size { self.old ≡ length rows.now }
        requires below { AreBelow rows.now (length rows.now) }
        requires seeds { All (λ s. s < length rows.now) seeds.now }
        ensures size { self.new ≡ self.old }
        ensures count { IfOk result (IsSizeOf (LedBelow rows.now seeds.now bound)) }
    {
        self.marked.spread(rows, seeds)?;
        Ok(count_below(self.marked.queue.as_slice(), bound))
    }
}

fn count_below(numbers: &[u32], bound: usize) -> usize
    ensures { result ≡ count_by (λ c. nat_lt c bound) numbers.now }
{
    numbers.iter().filter(|c| (**c as usize) < bound).count()
}
