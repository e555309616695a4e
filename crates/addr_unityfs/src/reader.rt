// Reading a bundle file: one pass over its header and blocks info. No node's bytes are looked at or copied.
ghost use Rattle.std.specs.Prelude.{◌≡◌, ◌≢◌, ◌^◌, ◌<◌, ◌+◌, ◌≤◌, ◌↔◌, Ok, Err, IfOk, IfSome, All, length, position};
ghost use Rattle.addr_unityfs.specs.Faults.{is_outside, range_fault, behind_read, front_read, bundle_read, Answers};
ghost use Rattle.addr_unityfs.specs.Format.{IsBundle};
ghost use Rattle.addr_unityfs.specs.within.Tails.{head, sections, Gives};
ghost use Rattle.addr_unityfs.specs.declared.bundle.Bundle.{Bundle};
ghost use Rattle.addr_unityfs.specs.declared.error.FsErr.{FsErr};
ghost use Rattle.addr_unityfs.specs.declared.error.FsErr.TheVariants.{NoMemory};

use crate::blocks_info::info_of;
use crate::bundle::{Bundle, NodePlace};
use crate::error::FsErr;
use crate::fields::part_of;
use crate::header::{Head, header_of};
use crate::sections::{Sections, data_start, sections_of};
use addr_base::Items;
use std::alloc::Global;

fn is_outside(room: u64, node: &NodePlace) -> bool
    ensures { result ≡ is_outside room node.now }
{
    node.offset > room || node.size > room - node.offset
}

fn first_outside(room: u64, nodes: &[NodePlace]) -> Option<usize>
    ensures place { result ≡ position (is_outside room) nodes.now }
    ensures inside { IfSome result (λ place. place < length nodes.now) }
{
    nodes.iter().position(|node| is_outside(room, node))
}

#[tactic(auto, unfolding(crate::specs::Faults::range_fault))]
fn range_fault(room: u64, nodes: &[NodePlace]) -> Option<FsErr>
    requires { length nodes.now < 2 ^ 32 }
    ensures { result ≡ range_fault room nodes.now }
{
    match first_outside(room, nodes) {
        None => None,
        Some(place) => Some(FsErr::NodeRange { node: place as u32 }),
    }
}

/// What follows the header, in a file of `len` bytes of which the blocks info is in.
#[tactic(auto, unfolding(crate::specs::Faults::behind_read))]
pub fn behind_of(
    alloc: Global,
    len: u64,
    header: Head,
    places: Sections,
    file: &[u8],
) -> Result<Bundle, FsErr>
    requires info { places.info + header.stored ≤ length file.now }
    requires data { (places.from ≤ places.to) × (places.to ≤ len) }
    ensures { Gives (λ b. b) result (behind_read len (head header) (sections places) file.now) }
{
    let info = part_of(file, places.info as usize, header.stored as usize);
    let (sum, nodes) = info_of(alloc, info)?;
    let start = data_start(len, header.flags, sum, places)?;
    if let Some(fault) = range_fault(sum, &nodes) {
        return Err(fault);
    }
    Ok(Bundle {
        version: header.version,
        start,
        nodes: Items::from_vec(nodes),
    })
}

#[tactic(auto, unfolding(crate::specs::Faults::bundle_read, crate::specs::Faults::front_read))]
fn bundle_of(alloc: Global, file: &[u8]) -> Result<Bundle, FsErr>
    ensures read { Gives (λ b. b) result (bundle_read file.now) }
    ensures front { (e : FsErr) → front_read file.now ≡ Err e → result ≡ Err e }
{
    let len = file.len() as u64;
    let (head, end) = header_of(file)?;
    let sections = sections_of(len, head, end)?;
    behind_of(alloc, len, head, sections, file)
}

/// The bundle that the file is. Takes memory for the nodes and their paths alone, and only for rows that are there.
pub fn read_bundle(alloc: Global, file: &[u8]) -> Result<Bundle, FsErr>
    // The file is the bundle that is answered, and each of its nodes lies within the file.
    ensures found { IfOk result (IsBundle file.now) }
    ensures inside { IfOk result (λ b. All (λ n. b.start + n.offset + n.size ≤ length file.now) b.nodes) }
    // Unless memory was refused, the answer is what the file is read as: its bundle or its first fault.
    ensures exact { Answers result (bundle_read file.now) }
    // Memory is asked for behind the header and the sections only, so that their faults are always told.
    ensures front { (e : FsErr) → front_read file.now ≡ Err e → result ≡ Err e }
    ensures only { (b : Bundle) → IsBundle file.now b → Answers result (Ok b) }
    // So each file is one bundle or has a first fault, and never both; and no fault is want of memory.
    ensures named { bundle_read file.now ≢ Err NoMemory }
    ensures law { (b : Bundle) → (IsBundle file.now b ↔ (bundle_read file.now ≡ Ok b)) }
{
    bundle_of(alloc, file)
}
