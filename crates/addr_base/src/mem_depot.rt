// A depot in memory, for tests. It tells its files at each moment, fails at the calls that it is told to fail at, and at no
// other but a read of a file that is too long. What is put is kept beside what was there before, so that no file is copied
// and no moment forgotten.
ghost use Rattle.std.specs.Prelude.{◌≡◌, ◌<◌, ◌≤◌, ◌^◌, ◌++◌, ◌∷◌, [], true, false, reverse, Some, IfOk, IfSome, OnErr, OnOk, Err, IsErr, vec_len};
ghost use Rattle.std.specs.Option.{option_map};
ghost use Rattle.addr_base.specs.Faults.{one_more};
ghost use Rattle.addr_base.specs.Files.{FaultRose, PutsAt, SameStore, file_at};
ghost use Rattle.addr_base.specs.Memory.{PutLeaves, ReadFails, depot_effects, depot_files, depot_plan, depot_store, fate_next, faults_after, is_fault, stops_next};
ghost use Rattle.addr_base.specs.Plans.{IsCounted, IsFresh};
ghost use Rattle.addr_base.specs.declared.depot.DepotErr.TheVariants.{Fault};

use crate::depot::{Depot, DepotErr};
use crate::fail_plan::FailPlan;
use crate::files::{MAX_FILE, MemFile};
use crate::items::Items;
use crate::memory::NoMemory;
use crate::text::Text;
use std::alloc::Global;

/// A store of files in memory. Every put stays in memory.
#[derive(Drop)]
pub struct MemDepot {
    first: Vec<MemFile>,
    puts: Vec<MemFile>,
    plan: FailPlan,
    effects: Vec<u32>,
    faults: u64,
}

impl MemDepot {
    /// A depot of these files, of which the first of a name counts. The calls whose numbers are given fail without effect;
    /// calls are numbered from 1 on over all methods.
    pub fn new(files: Vec<MemFile>, fails: Vec<u32>) -> MemDepot
        ensures store { depot_store result ≡ record { files = Some files.items; past = []; faults = 0 } }
        ensures plan { IsFresh fails.items (depot_plan result) }
        ensures effects { depot_effects result ≡ [] }
    {
        let alloc = *files.allocator();
        MemDepot {
            first: files,
            puts: Vec::new(alloc),
            plan: FailPlan::new(fails),
            effects: Vec::new(alloc),
            faults: 0,
        }
    }

    /// The call of that number fails too: with effect a put is done all the same. A refused call changes nothing.
    pub fn fail_at(&mut self, call: u32, effect: bool) -> Result<(), NoMemory>
        ensures store { depot_store self.new ≡ depot_store self.old }
        ensures with { OnOk result (effect ≡ true → depot_effects self.new ≡ depot_effects self.old ++ call ∷ []) }
        ensures without { OnOk result
            (effect ≡ false → (depot_plan self.new).fails.items ≡ (depot_plan self.old).fails.items ++ call ∷ []) }
        ensures effects { effect ≡ false → depot_effects self.new ≡ depot_effects self.old }
        ensures calls { (depot_plan self.new).calls ≡ (depot_plan self.old).calls }
    {
        if effect {
            self.effects.push(call)?;
            Ok(())
        } else {
            self.plan.add(call)
        }
    }

    /// The bytes of the file with that name, without a call that is counted.
    pub fn file(&self, name: &str) -> Option<&[u8]>
        ensures { option_map (λ bytes. bytes.now) result ≡ file_at name.now (depot_files self.now) }
    {
        match find_newest(&self.puts, name) {
            Some(bytes) => Some(bytes),
            None => find_file(&self.first, name),
        }
    }
}

impl Depot for MemDepot {
    ghost use Rattle.addr_base.specs.Memory.{depot_store};

    ghost now = { depot_store };

    fn read(&mut self, alloc: Global, name: &str) -> Result<Option<Vec<u8>>, DepotErr>
        ensures content { IfOk result
            (λ found. option_map (λ v. v.items) found ≡ file_at name.now (depot_files self.old)) }
        ensures small { IfOk result (λ found. IfSome found (λ v. vec_len v < 2 ^ 32)) }
        ensures same { SameStore (depot_store self.old) (depot_store self.new) }
        ensures cause { FaultRose (depot_store self.old).faults (depot_store self.new).faults result }
        ensures counted { IsCounted (depot_plan self.old) (depot_plan self.new) }
        ensures effects { depot_effects self.new ≡ depot_effects self.old }
        ensures told { stops_next self.old ≡ true → result ≡ Err Fault }
        ensures fault { result ≡ Err Fault → ReadFails self.old name.now }
        ensures count { (depot_store self.new).faults ≡ faults_after (depot_store self.old).faults result }
    {
        if self.next_fate().is_fault() {
            self.count_fault();
            return Err(DepotErr::Fault);
        }
        match self.file(name) {
            None => Ok(None),
            Some(bytes) if bytes.len() < MAX_FILE => {
                let copy = Items::copy_of(alloc, bytes)?;
                Ok(Some(copy.into_vec()))
            }
            Some(_) => {
                self.count_fault();
                Err(DepotErr::Fault)
            }
        }
    }

    fn put(&mut self, alloc: Global, name: &str, bytes: &[u8]) -> Result<(), DepotErr>
        ensures moments { PutsAt name.now bytes.now (depot_store self.old) (depot_store self.new) result }
        ensures leaves { PutLeaves self.old name.now bytes.now self.new result }
        ensures cause { FaultRose (depot_store self.old).faults (depot_store self.new).faults result }
        ensures counted { IsCounted (depot_plan self.old) (depot_plan self.new) }
        ensures effects { depot_effects self.new ≡ depot_effects self.old }
        ensures told { stops_next self.old ≡ true → IsErr result }
        ensures fault { result ≡ Err Fault → stops_next self.old ≡ true }
        ensures count { (depot_store self.new).faults ≡ faults_after (depot_store self.old).faults result }
    {
        match self.next_fate() {
            Fate::Runs => {
                self.lay(alloc, name, bytes)?;
                Ok(())
            }
            Fate::Acts => {
                self.lay(alloc, name, bytes)?;
                self.count_fault();
                Err(DepotErr::Fault)
            }
            Fate::Fails => {
                self.count_fault();
                Err(DepotErr::Fault)
            }
        }
    }
}

/// What a call is told to do: to run, to fail, or to fail after a put has taken effect.
#[derive(Clone, Copy)]
pub(crate) enum Fate {
    Runs,
    Fails,
    Acts,
}

impl Fate {
    fn is_fault(self) -> bool
        ensures { result ≡ is_fault self }
    {
        match self {
            Fate::Runs => false,
            Fate::Fails | Fate::Acts => true,
        }
    }
}

impl MemDepot {
    /// Counts a call, and says what it is told to do.
    fn next_fate(&mut self) -> Fate
        ensures fate { result ≡ fate_next self.old }
        ensures counted { IsCounted self.old.plan self.new.plan }
        ensures same { self.new ≡ record self.old { plan = self.new.plan } }
    {
        let fails = self.plan.next_fails();
        if self.plan.is_last_among(&self.effects) {
            Fate::Acts
        } else if fails {
            Fate::Fails
        } else {
            Fate::Runs
        }
    }

    fn count_fault(&mut self)
        ensures same { self.new ≡ record self.old { faults = one_more self.old.faults } }
        ensures rose { self.old.faults ≤ self.new.faults }
    {
        self.faults = self.faults.saturating_add(1);
    }

    /// Puts a file before all others. A refused call changes nothing.
    fn lay(&mut self, alloc: Global, name: &str, bytes: &[u8]) -> Result<(), NoMemory>
        ensures ok { OnOk result
            (self.new.puts.items ≡ self.old.puts.items ++ record { name = name.now; bytes = bytes.now } ∷ []) }
        ensures err { OnErr result (self.new.puts.items ≡ self.old.puts.items) }
        ensures same { self.new ≡ record self.old { puts = self.new.puts } }
    {
        let file = MemFile {
            name: Text::copy_of(alloc, name)?,
            bytes: Items::copy_of(alloc, bytes)?,
        };
        self.puts.push(file)?;
        Ok(())
    }
}

/// The file of that name that was put last.
fn find_newest<'a>(puts: &'a [MemFile], name: &str) -> Option<&'a [u8]>
    ensures { option_map (λ bytes. bytes.now) result ≡ file_at name.now (reverse puts.now) }
{
    match puts
        .iter()
        .rev()
        .find(|file| file.name.as_bytes() == name.as_bytes())
    {
        Some(file) => Some(file.bytes.as_slice()),
        None => None,
    }
}

fn find_file<'a>(files: &'a [MemFile], name: &str) -> Option<&'a [u8]>
    ensures { option_map (λ bytes. bytes.now) result ≡ file_at name.now files.now }
{
    match files
        .iter()
        .find(|file| file.name.as_bytes() == name.as_bytes())
    {
        Some(file) => Some(file.bytes.as_slice()),
        None => None,
    }
}
