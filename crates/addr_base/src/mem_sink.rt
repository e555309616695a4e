// A sink in memory, for tests: it keeps what is put to it, and fails at the calls that it is told to fail at.
ghost use Rattle.std.specs.Prelude.{◌≡◌, [], true, IsErr, OnErr};
ghost use Rattle.addr_base.specs.Faults.{HasCause, one_more};
ghost use Rattle.addr_base.specs.Plans.{IsCounted, IsFresh, fails_next};
ghost use Rattle.addr_base.specs.Memory.{sink_faults, sink_faults_after, sink_plan, sink_puts, sink_written};
ghost use Rattle.addr_base.specs.Streams.{Appends};

use crate::fail_plan::FailPlan;
use crate::memory::Failed;
use crate::streams::Sink;
use std::alloc::Global;

/// A sink in memory.
#[derive(Drop)]
pub struct MemSink {
    output: Vec<u8>,
    puts: u64,
    plan: FailPlan,
    faults: u64,
}

impl MemSink {
    /// A sink without bytes. The calls whose numbers are given fail; calls are numbered from 1 on. It takes no memory before
    /// the first put.
    pub fn new(alloc: Global, fails: Vec<u32>) -> MemSink
        ensures written { sink_written result ≡ [] }
        ensures puts { sink_puts result ≡ 0 }
        ensures plan { IsFresh fails.items (sink_plan result) }
        ensures faults { sink_faults result ≡ 0 }
    {
        MemSink {
            output: Vec::new(alloc),
            puts: 0,
            plan: FailPlan::new(fails),
            faults: 0,
        }
    }

    /// All that was put.
    pub fn written(&self) -> &[u8]
        ensures { result.now ≡ sink_written self.now }
    {
        &self.output
    }
}

impl Sink for MemSink {
    ghost use Rattle.std.specs.Prelude.{Some};
    ghost use Rattle.addr_base.specs.Memory.{sink_faults, sink_puts, sink_written};

    ghost now = { λ sink. record { written = Some (sink_written sink); puts = sink_puts sink; faults = sink_faults sink } };

    /// Where memory is refused the call fails, and nothing is added.
    fn put(&mut self, bytes: &[u8]) -> Result<(), Failed>
        ensures bytes { Appends (sink_written self.old) result bytes.now (sink_written self.new) }
        ensures failed { OnErr result (sink_written self.new ≡ sink_written self.old) }
        ensures once { sink_puts self.new ≡ one_more (sink_puts self.old) }
        ensures cause { HasCause (sink_faults self.old) (sink_faults self.new) result }
        ensures counted { IsCounted (sink_plan self.old) (sink_plan self.new) }
        ensures told { fails_next (sink_plan self.old) ≡ true → IsErr result }
        ensures count { sink_faults self.new ≡ sink_faults_after (sink_faults self.old) result }
    {
        self.puts = self.puts.saturating_add(1);
        if self.plan.next_fails() || self.output.extend_from_slice(bytes).is_err() {
            self.faults = self.faults.saturating_add(1);
            return Err(Failed);
        }
        Ok(())
    }
}
