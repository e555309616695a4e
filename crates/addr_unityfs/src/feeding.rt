// A file that arrives: what is fed is counted and digested, and kept until a fault is known.
ghost use Rattle.std.specs.Prelude.{◌≡◌, ◌≢◌, ◌≤◌, ◌-◌, ◌+◌, ◌++◌, [], ℕ, List, length, take, true, false, min, Some, None, Ok, Err, IsOk, IsTrue, ◌↔◌, ◌^◌, IfOk, OnOk, OnErr, if◌then◌else◌};
ghost use Rattle.addr_unityfs.specs.Arriving.{Took, total_of, held_of, count_of, read_with, IsArrived};
ghost use Rattle.addr_unityfs.specs.Early.{early_at};
ghost use Rattle.addr_unityfs.specs.within.Kept.{kept_with};
ghost use Rattle.addr_unityfs.specs.Faults.{bundle_read};
ghost use Rattle.addr_unityfs.specs.within.Stages.{stage_of, is_bad};
ghost use Rattle.addr_base.specs.Ids.{digest_of};
ghost use Rattle.sha2.specs.Hashers.{Holds256};
ghost use Rattle.addr_unityfs.specs.declared.error.FsErr.{FsErr};
ghost use Rattle.addr_unityfs.specs.declared.error.FsErr.TheVariants.{NoMemory as Memory};
ghost use Rattle.addr_unityfs.specs.declared.stage.Stage.TheVariants.{Bad};

use crate::arriving::{Arrived, BundleReader};
use crate::bundle::Bundle;
use crate::error::FsErr;
use crate::header::header_of;
use crate::reader::read_bundle;
use crate::sections::sections_of;
use crate::stage::{Stage, advance};
use addr_base::{Digest, Items, NoMemory};
use sha2::{Digest as HashFunction, Sha256};
use std::alloc::Global;

/// Whether a file of so many bytes may begin with these, which hold its whole header.
fn holds_header(total: u64, bytes: &[u8]) -> bool {
    match header_of(bytes) {
        Ok((head, end)) => end <= total && sections_of(total, head, end).is_ok(),
        Err(_) => false,
    }
}

/// Room for the rest of the file, once its header says its length, so that no byte is moved when more come. Where it is
/// refused the pieces ask for room as they come, since the rest may never do. A first piece says it with its own header.
fn make_room(total: u64, stage: Stage, room: u64, kept: &mut Vec<u8>, piece: &[u8])
    ensures { kept.new.items ≡ kept.old.items }
{
    let is_known = match stage {
        Stage::Info { .. } => true,
        Stage::Rest => true,
        Stage::Head { .. } => kept.is_empty() && holds_header(total, piece),
        Stage::Bad(_) => false,
    };
    if is_known {
        let _ = kept.reserve_exact(room as usize);
    }
}

/// Keeps what of a piece lies in a file of `total` bytes, and tells the stage then. A refusal changes nothing.
fn keep(
    alloc: Global,
    total: u64,
    stage: Stage,
    kept: &mut Vec<u8>,
    piece: &[u8],
) -> Result<Stage, NoMemory>
    requires few { length kept.old.items ≤ total }
    requires staged { stage ≡ stage_of total kept.old.items }
    ensures next { IfOk result (λ s. s ≡ stage_of total kept.new.items) }
    ensures within { length kept.new.items ≤ total }
    ensures items { OnOk result (kept.new.items ≡ kept_with stage total kept.old.items piece.now) }
    ensures refused { OnErr result (kept.new.items ≡ kept.old.items) }
    ensures ok_bad { is_bad stage ≡ true → IsOk result }
{
    if stage.is_bad() {
        return Ok(stage);
    }
    let before = kept.len();
    let room = total - before as u64;
    let len = if (piece.len() as u64) < room {
        piece.len()
    } else {
        room as usize
    };
    make_room(total, stage, room, kept, piece);
    kept.extend_from_slice(&piece[..len])?;
    match advance(alloc, total, stage, before, kept) {
        Ok(next) => Ok(next),
        Err(refused) => {
            kept.truncate(before);
            Err(refused)
        }
    }
}

fn counted(count: Option<u64>, more: u64) -> Option<u64>
    ensures { (n : ℕ) → count ≡ count_of n → result ≡ count_of (n + more) }
{
    match count {
        Some(count) => count.checked_add(more),
        None => None,
    }
}

fn is_whole(count: Option<u64>, total: u64) -> bool
    ensures { (n : ℕ) → count ≡ count_of n → IsTrue result ↔ (n ≡ total) }
{
    count == Some(total)
}

fn told_count(count: Option<u64>) -> u64
    ensures { (n : ℕ) → count ≡ count_of n → result ≡ min n (2 ^ 64 - 1) }
{
    match count {
        Some(count) => count,
        None => u64::MAX,
    }
}

/// The digest by which files are named, of the bytes that a hasher took.
fn short_digest(hasher: Sha256) -> Digest
    ensures { (m : List ℕ) → Holds256 hasher m → result.0 ≡ digest_of m }
{
    let whole = hasher.finalize();
    let mut first = [0u8; 16];
    first.copy_from_slice(&whole[..16]);
    Digest(first)
}

/// The kept bytes with their bundle, or their fault; once a fault was known they are not read again.
fn read_kept(
    alloc: Global,
    stage: Stage,
    kept: Vec<u8>,
) -> Result<Result<(Items<u8>, Bundle), FsErr>, NoMemory>
    ensures bad { (e : FsErr) → stage ≡ Bad e → result ≡ Ok (Err e) }
    ensures read { is_bad stage ≡ false
        → IfOk result (λ read. read ≡ read_with kept.items (bundle_read kept.items)) }
{
    if let Some(fault) = stage.fault() {
        return Ok(Err(fault));
    }
    match read_bundle(alloc, &kept) {
        Ok(bundle) => Ok(Ok((Items::from_vec(kept), bundle))),
        Err(FsErr::NoMemory) => Err(NoMemory),
        Err(fault) => Ok(Err(fault)),
    }
}

fn first_stage(total: u64) -> Stage
    ensures { result ≡ stage_of total [] }
{
    if total == 0 {
        Stage::Bad(FsErr::Short { at: 0 })
    } else {
        Stage::Head { text: false }
    }
}

impl BundleReader {
    /// A reader of a file of so many bytes, none of which came yet. Takes no memory.
    pub fn begin(alloc: Global, total: u64) -> BundleReader
        ensures fixed { total_of result ≡ total }
        ensures took { Took result [] }
    {
        BundleReader {
            alloc,
            total,
            count: Some(0),
            kept: Vec::new(alloc),
            hasher: Sha256::new(),
            stage: first_stage(total),
        }
    }

    /// The first fault of the file, where the bytes that came decide it. Of more than a file's bytes the first are looked at.
    pub fn early(&self) -> Option<FsErr>
        ensures exact { (fed : List ℕ) → Took self.now fed → result ≡ early_at (total_of self.now) fed }
        // However the file goes on, it is its first fault; `early_laws` says when it is told.
        ensures first { (fed more : List ℕ) (e : FsErr) → Took self.now fed → result ≡ Some e
            → length (take (total_of self.now) fed ++ more) ≡ total_of self.now
            → bundle_read (take (total_of self.now) fed ++ more) ≡ Err e }
        ensures named { result ≢ Some Memory }
    {
        self.stage.fault()
    }

    /// How many bytes are kept.
    pub fn held(&self) -> u64
        ensures value { result ≡ held_of self.now }
        ensures within { result ≤ total_of self.now }
        // All bytes of the file are kept until a fault is told.
        ensures all { (fed : List ℕ) → Took self.now fed → early_at (total_of self.now) fed ≡ None
            → result ≡ length (take (total_of self.now) fed) }
    {
        self.kept.len() as u64
    }

    /// Takes the next bytes, of any number. Each byte is digested and kept once; a refusal leaves what was taken.
    pub fn feed(&mut self, piece: &[u8]) -> Result<(), NoMemory>
        ensures fixed { total_of self.new ≡ total_of self.old }
        ensures took { OnOk result ((fed : List ℕ) → Took self.old fed → Took self.new (fed ++ piece.now)) }
        ensures refused { OnErr result ((fed : List ℕ) → Took self.old fed → Took self.new fed) }
        ensures held { OnErr result (held_of self.new ≡ held_of self.old) }
        // Once a fault is told no byte is kept, so that no memory is asked for.
        ensures held_told { (fed : List ℕ) (e : FsErr) → Took self.old fed
            → early_at (total_of self.old) fed ≡ Some e → held_of self.new ≡ held_of self.old }
        ensures ok_told { (fed : List ℕ) (e : FsErr) → Took self.old fed
            → early_at (total_of self.old) fed ≡ Some e → IsOk result }
    {
        self.stage = keep(self.alloc, self.total, self.stage, &mut self.kept, piece)?;
        self.hasher.update(piece);
        self.count = counted(self.count, piece.len() as u64);
        Ok(())
    }

    /// What became of the bytes that came, however they were cut. The blocks info is read once more, unless a fault is told.
    pub fn finish(self) -> Result<Arrived, NoMemory>
        ensures exact { (fed : List ℕ) → Took self fed → IfOk result (IsArrived (total_of self) fed) }
        // Memory is asked for only by a whole file with no fault told.
        ensures ok_size { (fed : List ℕ) → Took self fed → length fed ≢ total_of self → IsOk result }
        ensures ok_told { (fed : List ℕ) (e : FsErr) → Took self fed
            → early_at (total_of self) fed ≡ Some e → IsOk result }
    {
        if !is_whole(self.count, self.total) {
            return Ok(Arrived::Size {
                got: told_count(self.count),
            });
        }
        let BundleReader {
            alloc,
            kept,
            hasher,
            stage,
            ..
        } = self;
        let digest = short_digest(hasher);
        let read = read_kept(alloc, stage, kept)?;
        Ok(Arrived::File { digest, read })
    }
}
