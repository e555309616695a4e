//! Scripts beside workers whose fetchers have nothing, and two fetches that must be there at once.
use crate::{Beside, Prepared, play_beside, read_orders};
use addr_base::BundleNo;
use addr_fetch::{Gate, MemFetch, OpenGate};
use addr_locate::read_rows;
use std::alloc::Global;
use std::rt::Clock;
use std::sync::Wait;
use std::sync::atomic::{AtomicU64, Ordering};
use std::test::Fail;
use std::thread::{self, Threads};
use std::time::Duration;

const ROWS: &[u8] =
    b"addr-rows 1\nbundle A 100 00000000000000000000000000000000 A local/A\nbundle B 200 00000000000000000000000000000000 B local/B\nasset 00000000000000000000000000000001 Mesh 0 tree,00000000000000000000000000000001,green\nasset 00000000000000000000000000000002 Mesh 1,0 bush,00000000000000000000000000000002,green\n";

fn nothing(alloc: Global) -> MemFetch {
    MemFetch::new(Vec::new(alloc), Vec::new(alloc))
}

/// The text of a script over the rows beside two workers that find nothing.
fn played<R: Threads + Wait + Clock + Sync, G: Gate + Sync>(
    rt: &R,
    alloc: Global,
    script: &[u8],
    gate: &G,
) -> Result<String, Fail> {
    let rows = read_rows(alloc, ROWS)?;
    let Ok(prepared) = read_orders(alloc, rows, script) else {
        return Err(Fail::from("script"));
    };
    let Prepared {
        locator,
        limit,
        orders,
    } = prepared;
    let fetchers = vec![in alloc; nothing(alloc), nothing(alloc)]?;
    let Beside { text, .. } = play_beside(
        rt,
        alloc,
        locator,
        limit,
        orders,
        fetchers,
        nothing(alloc),
        gate,
    );
    match text {
        Some(text) => Ok(String::from_str(alloc, text.as_str())?),
        None => Err(Fail::from("memory")),
    }
}

#[test]
fn a_file_that_is_missing_fails_its_load(rt: HostRuntime) -> Result<(), Fail> {
    let script = b"load 0 one first %* tree\nwait 0\n";
    let text = played(&rt, rt.alloc(), script, &OpenGate)?;
    let front = "op 0 @1\nfailed 0 missing @3\njournal 4\nL 0 0 one first %* tree\nT 0 ";
    assert!(rt; text.as_str().starts_with(front));
    assert!(rt; text.as_str().ends_with(" missing\nC\n"));
    Ok(())
}

/// Holds the first fetch until a second one has begun, and counts where none did.
#[derive(Drop)]
struct Held<'a, R> {
    rt: &'a R,
    begun: AtomicU64,
    alone: AtomicU64,
}

impl<R: Clock> Gate for Held<'_, R> {
    fn before(&self, _: BundleNo) {
        if self.begun.fetch_add(1, Ordering::SeqCst) == 0 {
            for _ in 0..20_000 {
                if self.begun.load(Ordering::SeqCst) > 1 {
                    return;
                }
                thread::sleep(self.rt, Duration::from_millis(1));
            }
            self.alone.store(1, Ordering::SeqCst);
        }
    }

    fn after(&self, _: BundleNo) {}
}

#[test]
fn two_fetches_at_once(rt: HostRuntime) -> Result<(), Fail> {
    let gate = Held {
        rt: &rt,
        begun: AtomicU64::new(0),
        alone: AtomicU64::new(0),
    };
    let text = played(&rt, rt.alloc(), b"load 0 one first %* bush\n", &gate)?;
    assert!(rt; text.as_str().ends_with("C\n") || text.as_str().contains("\nC\n"));
    assert!(rt; gate.alone.load(Ordering::SeqCst) == 0);
    Ok(())
}
