// Which calls of a fake are to fail. Every fake counts its calls over all its methods, so that a test names a call by
// one number.
ghost use Rattle.std.specs.Prelude.{◌≡◌, ◌==◌, ◌++◌, ◌∷◌, [], OnOk, OnErr};
ghost use Rattle.std.specs.List.{list_any};
ghost use Rattle.addr_base.specs.Faults.{one_more};
ghost use Rattle.addr_base.specs.Plans.{IsCounted, IsFresh, fails_next};

use crate::memory::NoMemory;

/// The numbers of the calls that are to fail, from 1 on, and how many calls there were.
#[derive(Drop)]
pub struct FailPlan {
    fails: Vec<u32>,
    calls: u64,
}

impl FailPlan {
    pub fn new(fails: Vec<u32>) -> FailPlan
        ensures { IsFresh fails.items result }
    {
        FailPlan { fails, calls: 0 }
    }

    /// Counts a call, and says whether it is to fail.
    pub fn next_fails(&mut self) -> bool
        ensures value { result ≡ fails_next self.old }
        ensures counted { IsCounted self.old self.new }
    {
        self.calls = self.calls.saturating_add(1);
        is_among(&self.fails, self.calls)
    }

    /// One more call that is to fail. A refused call leaves the plan as it was.
    pub fn add(&mut self, call: u32) -> Result<(), NoMemory>
        ensures ok { OnOk result (self.new.fails.items ≡ self.old.fails.items ++ call ∷ []) }
        ensures err { OnErr result (self.new.fails.items ≡ self.old.fails.items) }
        ensures calls { self.new.calls ≡ self.old.calls }
    {
        self.fails.push(call)?;
        Ok(())
    }

    /// Whether the call that was counted last is among the numbers.
    pub(crate) fn is_last_among(&self, numbers: &[u32]) -> bool
        ensures { result ≡ list_any (λ n. n == self.now.calls) numbers.now }
    {
        is_among(numbers, self.calls)
    }
}

fn is_among(numbers: &[u32], number: u64) -> bool
    ensures { result ≡ list_any (λ n. n == number) numbers.now }
{
    numbers.iter().any(|n| *n as u64 == number)
}
