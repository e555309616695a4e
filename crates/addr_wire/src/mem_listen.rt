// A listener in memory, for tests: it hands out the connections that it was given, one after the other, and keeps those
// that were finished. Beside each connection it has a copy from the start on, so that no call after `new` takes memory.
ghost use Rattle.std.specs.Prelude.{◌≡◌, ◌≢◌, ◌+◌, ◌<◌, ◌≤◌, ◌⊎◌, ◌↔◌, [], ◌∷◌, ◌++◌, true, Some, None, IfOk, IfSome, IsErr, OnOk, length, map, take, drop, vec_len, vec_capacity};
ghost use Rattle.std.specs.Option.{ForSome};
ghost use Rattle.addr_base.specs.Plans.{IsCounted, IsFresh, fails_next};
ghost use Rattle.addr_wire.specs.MemConnections.{conn_now, count_after};

use crate::listen::Listen;
use crate::mem_conn::MemConn;
use addr_base::{FailPlan, Failed, NoMemory};
use std::alloc::Global;
use std::collections::VecDeque;

/// A listener in memory.
#[derive(Drop)]
pub struct MemListen {
    port: Option<u16>,
    waiting: VecDeque<MemConn>,
    copies: Vec<MemConn>,
    handed: usize,
    finished: Vec<MemConn>,
    plan: FailPlan,
    faults: u64,
    ghost order: { map conn_now waiting.items ≡ map conn_now (drop handed copies.items) },
    ghost within: { handed ≤ vec_len copies },
    ghost room: { vec_len copies ≤ vec_capacity finished },
}

impl MemListen {
    ghost use Rattle.addr_wire.specs.MemListeners.{listen_all, listen_handed, listen_lists, listen_now, listen_plan};

    /// A listener that hands out these connections. The calls whose numbers are given fail; calls are numbered from 1 on
    /// over all methods, `finish` too, which is never refused. It takes at once the room for its two lists.
    pub fn new(alloc: Global, conns: Vec<MemConn>, fails: Vec<u32>) -> Result<MemListen, NoMemory>
        ensures all { IfOk result (λ listen. listen_all listen ≡ map conn_now conns.items) }
        ensures now { IfOk result (λ listen. listen_now listen
            ≡ record { port = None; conns = Some (record { accepted = []; finished = [] }); faults = 0 }) }
        ensures plan { IfOk result (λ listen. IsFresh fails.items (listen_plan listen)) }
    {
        let copies = copies_of(alloc, &conns)?;
        let finished = Vec::with_capacity(alloc, copies.len())?;
        Ok(MemListen {
            port: None,
            waiting: VecDeque::from(conns),
            copies,
            handed: 0,
            finished,
            plan: FailPlan::new(fails),
            faults: 0,
        })
    }

    /// The connections that were finished, in order.
    pub fn finished(&self) -> &[MemConn]
        ensures { map conn_now result.now ≡ (listen_lists self.now).finished }
    {
        &self.finished
    }
}

impl Listen for MemListen {
    ghost use Rattle.addr_wire.specs.Listeners.{Accepts, Finishes, OpensPort};
    ghost use Rattle.addr_wire.specs.MemListeners.{listen_all, listen_handed, listen_lists, listen_now, listen_plan};

    type Peer = MemConn;

    ghost now = { listen_now };

    /// Binds port 1 where 0 is asked.
    fn open(&mut self, port: u16) -> Result<u16, Failed>
        ensures opens { OpensPort port (listen_now self.old) result (listen_now self.new) }
        ensures all { listen_all self.new ≡ listen_all self.old }
        ensures counted { IsCounted (listen_plan self.old) (listen_plan self.new) }
        ensures fault { IsErr result ↔ (fails_next (listen_plan self.old) ≡ true) }
        ensures count { self.new.faults ≡ count_after self.old.faults result }
    {
        if self.plan.next_fails() {
            self.faults = self.faults.saturating_add(1);
            return Err(Failed);
        }
        let bound = if port == 0 { 1 } else { port };
        self.port = Some(bound);
        Ok(bound)
    }

    /// Fails also where no connection is left.
    fn accept(&mut self) -> Result<MemConn, Failed>
        ensures accepts { Accepts conn_now (listen_now self.old) result (listen_now self.new) }
        ensures all { listen_all self.new ≡ listen_all self.old }
        ensures next { IfOk result (λ conn. conn_now conn ∷ drop (listen_handed self.new) (listen_all self.new)
            ≡ drop (listen_handed self.old) (listen_all self.old)) }
        ensures counted { IsCounted (listen_plan self.old) (listen_plan self.new) }
        ensures fault { IsErr result ↔ ((fails_next (listen_plan self.old) ≡ true)
            ⊎ (length (listen_all self.old) ≤ listen_handed self.old)) }
        ensures count { self.new.faults ≡ count_after self.old.faults result }
    {
        if self.plan.next_fails() {
            self.faults = self.faults.saturating_add(1);
            return Err(Failed);
        }
        match self.waiting.pop_front() {
            Some(conn) => {
                self.handed += 1;
                Ok(conn)
            }
            None => {
                self.faults = self.faults.saturating_add(1);
                Err(Failed)
            }
        }
    }

    fn finish(&mut self, conn: MemConn)
        requires { ForSome (listen_now self.old).conns (λ conns. length conns.finished < length conns.accepted) }
        ensures finishes { Finishes (conn_now conn) (listen_now self.old) (listen_now self.new) }
        ensures all { listen_all self.new ≡ listen_all self.old }
        ensures counted { IsCounted (listen_plan self.old) (listen_plan self.new) }
    {
        let _ = self.plan.next_fails();
        push_within(&mut self.finished, conn);
    }
}

fn copies_of(alloc: Global, conns: &[MemConn]) -> Result<Vec<MemConn>, NoMemory>
    ensures { IfOk result (λ copies. map conn_now copies.items ≡ map conn_now conns.now) }
{
    let mut copies = Vec::new(alloc);
    for conn in conns {
        copies.push(conn.copy(alloc)?)?;
    }
    Ok(copies)
}

/// Adds a connection to a list that has room for it.
fn push_within(conns: &mut Vec<MemConn>, conn: MemConn)
    requires { vec_len conns.old < vec_capacity conns.old }
    ensures items { conns.new.items ≡ conns.old.items ++ conn ∷ [] }
    ensures room { vec_capacity conns.old ≤ vec_capacity conns.new }
{
    match conns.push(conn) {
        Ok(()) => {}
        Err(_) => unreachable!(),
    }
}
