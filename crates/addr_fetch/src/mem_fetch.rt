// A fetcher in memory, for tests: it tells its files, fails at the calls that it is told to fail at, and pours in pieces of
// a size that is told.
ghost use Rattle.std.specs.Prelude.{◌≡◌, ◌<◌, ◌≤◌, ◌-◌, ◌^◌, ◌++◌, List, ℕ, OnOk, OnErr, take};
ghost use Rattle.std.specs.Option.{option_map};
ghost use Rattle.addr_base.specs.Files.{file_at};
ghost use Rattle.addr_base.specs.Plans.{IsFresh};
ghost use Rattle.addr_fetch.specs.Memory.{fetch_files, fetch_origin, fetch_plan};

use crate::fetch::{Fetch, Poured};
use crate::pour::Pour;
use addr_base::{FailPlan, MemFile, NoMemory};
use std::alloc::Global;

/// Files in memory by their internal ids.
#[derive(Drop)]
pub struct MemFetch {
    files: Vec<MemFile>,
    plan: FailPlan,
    faults: u64,
    piece: usize,
}

impl MemFetch {
    /// A fetcher of these files, of which the first of an id counts. The calls whose numbers are given fail; calls are
    /// numbered from 1 on. A file is poured in one piece.
    pub fn new(files: Vec<MemFile>, fails: Vec<u32>) -> MemFetch
        ensures files { fetch_files result ≡ files.items }
        ensures plan { IsFresh fails.items (fetch_plan result) }
        ensures faults { (fetch_origin result).faults ≡ 0 }
    {
        MemFetch {
            files,
            plan: FailPlan::new(fails),
            faults: 0,
            piece: usize::MAX,
        }
    }

    /// From now on files are poured in pieces of that many bytes, the last one shorter.
    pub fn set_piece(&mut self, size: usize)
        ensures origin { fetch_origin self.new ≡ fetch_origin self.old }
        ensures plan { fetch_plan self.new ≡ fetch_plan self.old }
    {
        self.piece = size;
    }
}

impl Fetch for MemFetch {
    ghost use Rattle.addr_fetch.specs.Memory.{MemGives, fetch_origin};
    ghost use Rattle.addr_fetch.specs.MemoryRules.{keeps_rules};

    ghost now = { fetch_origin };

    ghost gives = { MemGives };

    fn fetch_to<P: Pour>(
        &mut self,
        _: Global,
        internal_id: &str,
        limit: u64,
        into: &mut P,
    ) -> Poured {
        if self.plan.next_fails() {
            self.faults = self.faults.saturating_add(1);
            return Poured::Fault(self.faults);
        }
        match find_file(&self.files, internal_id) {
            None => Poured::Missing,
            Some(bytes) if bytes.len() as u64 > limit => Poured::TooLong(bytes.len() as u64),
            Some(bytes) => match pour_all(bytes, self.piece, into) {
                Ok(()) => Poured::Whole(bytes.len() as u64),
                Err(NoMemory) => Poured::NoMemory,
            },
        }
    }

    ghost keeps = { keeps_rules };
}

fn find_file<'a>(files: &'a [MemFile], id: &str) -> Option<&'a [u8]>
    ensures { option_map (λ bytes. bytes.now) result ≡ file_at id.now files.now }
{
    match files
        .iter()
        .find(|file| file.name.as_bytes() == id.as_bytes())
    {
        Some(file) => Some(file.bytes.as_slice()),
        None => None,
    }
}

/// Pours the bytes in pieces of that size, or of one byte where it is 0.
fn pour_all<P: Pour>(bytes: &[u8], piece: usize, into: &mut P) -> Result<(), NoMemory>
    ensures whole { OnOk result ((fed : List ℕ) → P.took into.old fed → P.took into.new (fed ++ bytes.now)) }
    ensures part { (fed : List ℕ) → P.took into.old fed → (n : ℕ) × P.took into.new (fed ++ take n bytes.now) }
    ensures fixed { P.fixed into.new ≡ P.fixed into.old }
{
    let mut at = 0;
    while at < bytes.len() {
        let end = end_of_piece(at, piece, bytes.len());
        into.pour(&bytes[at..end])?;
        at = end;
    }
    Ok(())
}

/// Where the piece that begins at a place ends.
fn end_of_piece(at: usize, piece: usize, len: usize) -> usize
    requires { at < len }
    ensures later { at < result }
    ensures within { result ≤ len }
{
    if piece < len - at {
        at + piece.max(1)
    } else {
        len
    }
}
