// A connection in memory, for tests: its peer sends what it is told to send, it keeps what is put, and it fails at the
// calls that it is told to fail at. Calls are numbered from 1 on over both sides.
ghost use Rattle.std.specs.Prelude.{◌≡◌, ◌<◌, ◌≤◌, ◌↔◌, [], true, length, min, IfOk, IsErr, OnErr, Some, vec_len};
ghost use Rattle.addr_base.specs.Plans.{IsCounted, IsFresh, fails_next};

use crate::conn::Conn;
use crate::copying::copy_front;
use addr_base::{FailPlan, Failed, NoMemory};
use std::alloc::Global;

/// A connection in memory.
#[derive(Drop)]
pub struct MemConn {
    input: Vec<u8>,
    at: usize,
    piece: usize,
    last: usize,
    output: Vec<u8>,
    plan: FailPlan,
    source_faults: u64,
    sink_faults: u64,
    ghost within: { at ≤ vec_len input },
    ghost some: { 0 < piece },
}

impl MemConn {
    ghost use Rattle.addr_wire.specs.Connections.{ConnNow};
    ghost use Rattle.addr_wire.specs.MemConnections.{conn_left, conn_now, conn_piece, conn_plan, conn_written};

    /// A connection whose peer sends these bytes. The calls whose numbers are given fail; calls are numbered from 1 on
    /// over all methods. It takes no memory before the first put.
    pub fn new(alloc: Global, input: Vec<u8>, fails: Vec<u32>) -> MemConn
        ensures now { conn_now result ≡ record {
          left = Some input.items;
          last = 0;
          source_faults = 0;
          written = Some [];
          sink_faults = 0;
        } }
        ensures plan { IsFresh fails.items (conn_plan result) }
    {
        MemConn {
            input,
            at: 0,
            piece: usize::MAX,
            last: 0,
            output: Vec::new(alloc),
            plan: FailPlan::new(fails),
            source_faults: 0,
            sink_faults: 0,
        }
    }

    /// The same connection, of which each read brings at most so many bytes.
    pub fn in_pieces(self, piece: usize) -> MemConn
        requires { 0 < piece }
        ensures now { conn_now result ≡ conn_now self }
        ensures piece { conn_piece result ≡ piece }
        ensures plan { conn_plan result ≡ conn_plan self }
    {
        let mut conn = self;
        conn.piece = piece;
        conn
    }

    /// All that was put.
    pub fn written(&self) -> &[u8]
        ensures { result.now ≡ conn_written self.now }
    {
        &self.output
    }

    /// What is still to be read.
    pub fn left(&self) -> &[u8]
        ensures { result.now ≡ conn_left self.now }
    {
        &self.input[self.at..]
    }

    /// The same connection once more, of which no call is told to fail.
    pub(crate) fn copy(&self, alloc: Global) -> Result<MemConn, NoMemory>
        ensures { IfOk result (λ copy. conn_now copy ≡ conn_now self.now) }
    {
        Ok(MemConn {
            input: Vec::from_slice(alloc, &self.input)?,
            at: self.at,
            piece: self.piece,
            last: self.last,
            output: Vec::from_slice(alloc, &self.output)?,
            plan: FailPlan::new(Vec::new(alloc)),
            source_faults: self.source_faults,
            sink_faults: self.sink_faults,
        })
    }
}

impl Conn for MemConn {
    ghost use Rattle.addr_wire.specs.Connections.{Puts, Reads};
    ghost use Rattle.addr_wire.specs.MemConnections.{conn_left, conn_now, conn_piece, conn_plan, conn_written, count_after};

    ghost now = { conn_now };

    fn read(&mut self, into: &mut [u8]) -> Result<usize, Failed>
        ensures within { IfOk result (λ n. n ≤ length into.new) }
        ensures reads { Reads (conn_now self.old) result into.new (conn_now self.new) }
        ensures brings { IfOk result (λ n.
            n ≡ min (min (length (conn_left self.old)) (length into.new)) (conn_piece self.old)) }
        ensures counted { IsCounted (conn_plan self.old) (conn_plan self.new) }
        ensures fault { IsErr result ↔ (fails_next (conn_plan self.old) ≡ true) }
        ensures count { (conn_now self.new).source_faults ≡ count_after (conn_now self.old).source_faults result }
    {
        if self.plan.next_fails() {
            self.last = 0;
            self.source_faults = self.source_faults.saturating_add(1);
            return Err(Failed);
        }
        let count = copy_front(&self.input[self.at..], into, self.piece);
        self.at += count;
        self.last = count;
        Ok(count)
    }

    /// Where memory is refused the call fails, and nothing is added.
    fn put(&mut self, bytes: &[u8]) -> Result<(), Failed>
        ensures puts { Puts (conn_now self.old) result bytes.now (conn_now self.new) }
        ensures failed { OnErr result (conn_written self.new ≡ conn_written self.old) }
        ensures counted { IsCounted (conn_plan self.old) (conn_plan self.new) }
        ensures told { fails_next (conn_plan self.old) ≡ true → IsErr result }
        ensures count { (conn_now self.new).sink_faults ≡ count_after (conn_now self.old).sink_faults result }
    {
        if self.plan.next_fails() || self.output.extend_from_slice(bytes).is_err() {
            self.sink_faults = self.sink_faults.saturating_add(1);
            return Err(Failed);
        }
        Ok(())
    }
}
