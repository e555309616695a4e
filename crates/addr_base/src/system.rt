// The real edge: files below the working folder, and standard output. Nothing can be told of what the system holds, so
// both tell None; each error is counted, and each put to standard output. This file is trusted to do what its comments
// say, and has tests alone.
ghost use Rattle.std.specs.Prelude.{◌≡◌};

use crate::depot::{Depot, DepotErr};
use crate::files::MAX_FILE;
use crate::memory::Failed;
use crate::streams::Sink;
use std::alloc::Global;
use std::fs::OpenFile;
use std::io::{ErrorKind, Read, Write};
use std::rt::Files;
use std::{fs, io};

/// What a put adds to a name for the file that it writes before it renames it. No put is given a name that ends so.
const PART: &str = ".huwendrith-part";

/// Files under their names below the working folder. A put makes the folders that are missing, writes a file beside the
/// target and renames it, so that a reader sees the old file or the new one; one that fails may leave the file beside.
#[derive(Drop)]
pub struct FolderDepot<'a, R> {
    rt: &'a R,
    faults: u64,
}

impl<'a, R> FolderDepot<'a, R> {
    pub fn new(rt: &'a R) -> FolderDepot<'a, R>
        ensures { result.faults ≡ 0 }
    {
        FolderDepot { rt, faults: 0 }
    }
}

impl<R: Files> Depot for FolderDepot<'_, R> {
    ghost use Rattle.std.specs.Prelude.{None, []};

    ghost now = { λ depot. record { files = None; past = []; faults = depot.faults } };

    /// A folder under the name is a fault, and so is a file that cannot be read.
    fn read(&mut self, alloc: Global, name: &str) -> Result<Option<Vec<u8>>, DepotErr> {
        match read_file(self.rt, alloc, name) {
            Ok(bytes) if bytes.len() < MAX_FILE => Ok(Some(bytes)),
            Err(error) if error.kind() == ErrorKind::NotFound => Ok(None),
            Err(error) if error.kind() == ErrorKind::OutOfMemory => Err(DepotErr::NoMemory),
            _ => {
                self.faults = self.faults.saturating_add(1);
                Err(DepotErr::Fault)
            }
        }
    }

    fn put(&mut self, alloc: Global, name: &str, bytes: &[u8]) -> Result<(), DepotErr> {
        let Ok(beside) = format!(in alloc; "{name}{PART}") else {
            return Err(DepotErr::NoMemory);
        };
        match replace_file(self.rt, name, beside.as_str(), bytes) {
            Ok(()) => Ok(()),
            Err(error) if error.kind() == ErrorKind::OutOfMemory => Err(DepotErr::NoMemory),
            Err(_) => {
                self.faults = self.faults.saturating_add(1);
                Err(DepotErr::Fault)
            }
        }
    }
}

/// Standard output. A put ends with a flush; one that takes nothing of a piece that isn't empty has failed.
#[derive(Drop)]
pub struct OutSink<'a, R> {
    rt: &'a R,
    puts: u64,
    faults: u64,
}

impl<'a, R> OutSink<'a, R> {
    pub fn new(rt: &'a R) -> OutSink<'a, R>
        ensures puts { result.puts ≡ 0 }
        ensures faults { result.faults ≡ 0 }
    {
        OutSink {
            rt,
            puts: 0,
            faults: 0,
        }
    }
}

impl<R: Print> Sink for OutSink<'_, R> {
    ghost use Rattle.std.specs.Prelude.{None};

    ghost now = { λ sink. record { written = None; puts = sink.puts; faults = sink.faults } };

    fn put(&mut self, bytes: &[u8]) -> Result<(), Failed> {
        self.puts = self.puts.saturating_add(1);
        let mut out = io::writer(self.rt);
        if out.write_all(bytes).is_err() || out.flush().is_err() {
            self.faults = self.faults.saturating_add(1);
            return Err(Failed);
        }
        Ok(())
    }
}

fn read_file<R: Files>(rt: &R, alloc: Global, name: &str) -> io::Result<Vec<u8>> {
    let file = fs::open(rt, name)?;
    if file.metadata()?.len() >= MAX_FILE as u64 {
        return Err(io::Error::from(ErrorKind::FileTooLarge));
    }
    let mut bytes = Vec::new(alloc);
    file.take(MAX_FILE as u64).read_to_end(&mut bytes)?;
    Ok(bytes)
}

fn replace_file<R: Files>(rt: &R, name: &str, beside: &str, bytes: &[u8]) -> io::Result<()> {
    if let Some((folder, _)) = name.rsplit_once('/') {
        fs::create_dir_all(rt, folder)?;
    }
    fs::write(rt, beside, bytes)?;
    fs::rename(rt, beside, name)
}
