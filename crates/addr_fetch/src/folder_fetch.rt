// The real edge: files below a folder. Nothing can be told of what the folder holds; each error is counted. This file is
// trusted to open what its comments say, and has a test alone.
ghost use Rattle.std.specs.Prelude.{◌≡◌, ◌<◌, ◌≤◌, ◌++◌, ◌^◌, ◌-◌, List, ℕ, IfOk, IfErr, length};
ghost use Rattle.addr_fetch.specs.Folder.{EndsAs, IsError};

use crate::fetch::{Fetch, Poured};
use crate::pour::Pour;
use addr_base::Text;
use std::alloc::Global;
use std::fs::OpenFile;
use std::io::{ErrorKind, Read};
use std::rt::Files;
use std::{fs, io};

/// How many bytes are asked of the system at once.
const PIECE: usize = 65_536;

/// Files whose internal ids are paths below a folder. An id whose parts between `/` aren't all names is missing, and is
/// never opened; so is one that begins with a scheme.
#[derive(Drop)]
pub struct FolderFetch<'a, R> {
    rt: &'a R,
    folder: Text,
    faults: u64,
}

impl<'a, R> FolderFetch<'a, R> {
    pub fn new(rt: &'a R, folder: Text) -> FolderFetch<'a, R>
        ensures { result.faults ≡ 0 }
    {
        FolderFetch {
            rt,
            folder,
            faults: 0,
        }
    }
}

/// Whether a text is a path of names: its parts between `/` are neither empty, `.` nor `..`.
fn is_below(id: &str) -> bool {
    id.split('/')
        .all(|part| !part.is_empty() && part != "." && part != "..")
}

/// How a file that is poured ends.
#[derive(Clone, Copy)]
pub(crate) enum Ended {
    Whole(u64),
    Missing,
    TooLong(u64),
    Failed,
    NoMemory,
}

impl<R: Files> Fetch for FolderFetch<'_, R> {
    ghost use Rattle.std.specs.Prelude.{None, refl};
    ghost use Rattle.addr_fetch.specs.Folder.{FolderGives};

    ghost now = { λ fetch. record { files = None; faults = fetch.faults } };

    ghost gives = { λ before id limit answer after. FolderGives before.faults limit answer after.faults };

    /// A folder under the id is a fault, and so is a file that cannot be read.
    fn fetch_to<P: Pour>(
        &mut self,
        alloc: Global,
        internal_id: &str,
        limit: u64,
        into: &mut P,
    ) -> Poured {
        match pour_file(self.rt, alloc, &self.folder, internal_id, limit, into) {
            Ended::Whole(n) => Poured::Whole(n),
            Ended::Missing => Poured::Missing,
            Ended::TooLong(n) => Poured::TooLong(n),
            Ended::NoMemory => Poured::NoMemory,
            Ended::Failed => {
                self.faults = self.faults.saturating_add(1);
                Poured::Fault(self.faults)
            }
        }
    }

    ghost keeps = { λ before after id limit answer gives. record { within = gives.0; later = gives.1; same = refl; told = tt } };
}

fn pour_file<R: Files, P: Pour>(
    rt: &R,
    alloc: Global,
    folder: &Text,
    id: &str,
    limit: u64,
    into: &mut P,
) -> Ended
    requires { limit < 2 ^ 64 - 1 }
    ensures ends { (fed : List ℕ) → P.took into.old fed → EndsAs
        (λ bytes. P.took into.new (fed ++ bytes)) limit result }
    ensures fixed { P.fixed into.new ≡ P.fixed into.old }
{
    if !is_below(id) {
        return Ended::Missing;
    }
    let below = folder.as_str();
    let Ok(path) = format!(in alloc; "{below}/{id}") else {
        return Ended::NoMemory;
    };
    let mut file = match fs::open(rt, path.as_str()) {
        Ok(file) => file,
        Err(error) => return ended_by(error),
    };
    match file.metadata() {
        Ok(told) if told.len() > limit => Ended::TooLong(told.len()),
        Ok(_) => pour_open(alloc, &mut file, limit, into),
        Err(error) => ended_by(error),
    }
}

/// Pours what each read gives, up to the limit.
fn pour_open<F: Read, P: Pour>(alloc: Global, file: &mut F, limit: u64, into: &mut P) -> Ended
    requires { limit < 2 ^ 64 - 1 }
    ensures ends { (fed : List ℕ) → P.took into.old fed → EndsAs
        (λ bytes. P.took into.new (fed ++ bytes)) limit result }
    ensures fixed { P.fixed into.new ≡ P.fixed into.old }
{
    match vec![in alloc; 0; PIECE] {
        Ok(mut buffer) => pour_reads(file, &mut buffer, limit, into),
        Err(_) => Ended::NoMemory,
    }
}

/// A file that grows past the limit meanwhile is too long.
fn pour_reads<F: Read, P: Pour>(file: &mut F, buffer: &mut [u8], limit: u64, into: &mut P) -> Ended
    requires { limit < 2 ^ 64 - 1 }
    ensures ends { (fed : List ℕ) → P.took into.old fed → EndsAs
        (λ bytes. P.took into.new (fed ++ bytes)) limit result }
    ensures fixed { P.fixed into.new ≡ P.fixed into.old }
{
    let mut total = 0;
    for _ in 0..u64::MAX {
        match read_some(file, buffer) {
            Ok(0) => return Ended::Whole(total),
            Ok(n) => {
                let more = n as u64;
                if more > limit - total {
                    return Ended::TooLong(total.saturating_add(more));
                }
                if into.pour(&buffer[..n]).is_err() {
                    return Ended::NoMemory;
                }
                total += more;
            }
            Err(ended) => return ended,
        }
    }
    Ended::Failed
}

/// How many bytes one read gave, or what its error means.
fn read_some<F: Read>(file: &mut F, buffer: &mut [u8]) -> Result<usize, Ended>
    ensures within { IfOk result (λ n. n ≤ length buffer.new) }
    ensures error { IfErr result IsError }
{
    match file.read(buffer) {
        Ok(n) => Ok(n),
        Err(error) => Err(ended_by(error)),
    }
}

/// What an error of the system means for the file.
fn ended_by(error: io::Error) -> Ended
    ensures { IsError result }
{
    match error.kind() {
        ErrorKind::NotFound => Ended::Missing,
        ErrorKind::OutOfMemory => Ended::NoMemory,
        _ => Ended::Failed,
    }
}
