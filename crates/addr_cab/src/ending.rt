// The tests behind the last object: that nothing is left, that the objects are all of the data, that each reference
// into the own bundle leads to an object, and that each outside bundle is named.
ghost use Rattle.std.specs.Prelude.{◌≡◌, ◌+◌, ◌*◌, ◌<◌, ◌^◌, length, sum_by, position, IfSome, IfOk};
ghost use Rattle.addr_cab.specs.Spelling.{name_len, table_front, row_len};
ghost use Rattle.addr_cab.specs.Faults.{is_lost, lost_at, unnamed_at, end_fault};
ghost use Rattle.addr_cab.specs.Outside.{is_absent};
ghost use Rattle.addr_cab.specs.Tails.{tail};

use crate::ascending::Ascending;
use crate::cursor::Cursor;
use crate::error::CabErr;
use crate::homes::homes_of_rows;
use crate::object::ObjectRow;
use addr_base::{Digest, Home, NoMemory, RefTo};
use std::alloc::Global;
use std::collections::BTreeSet;

/// The bytes of an object before its references: GUID, offset, size, and the count of references.
const ROW_FRONT: u64 = 36;

/// The bytes of a reference: a GUID, and the number of a home.
const REF_LEN: u64 = 20;

/// The bytes of an outside bundle: its internal name.
const NAME_LEN: u64 = 16;

/// The place where the outside bundles begin: behind the magic and their count.
const NAMES_AT: u64 = 8;

/// The bytes beside outside bundles and objects: the magic, and two counts.
const TABLE_FRONT: u64 = 12;

#[tactic(auto, unfolding(crate::specs::Faults::is_lost))]
fn is_lost(table: Ascending<'_>, reference: &RefTo) -> bool
    ensures { result ≡ is_lost table.entry.rows.now reference.now }
{
    match reference.home {
        Home::Own => table.place_of(reference.guid).is_none(),
        Home::Other(_) => false,
    }
}

fn first_lost(table: Ascending<'_>, refs: &[RefTo]) -> Option<usize>
    ensures place { result ≡ position (is_lost table.entry.rows.now) refs.now }
    ensures inside { IfSome result (λ i. i < length refs.now) }
{
    refs.iter().position(|reference| is_lost(table, reference))
}

/// How many bytes an object takes in the table.
fn row_len(row: &ObjectRow) -> u64
    requires { row_len row.now < 2 ^ 63 }
    ensures { result ≡ row_len row.now }
{
    ROW_FRONT + REF_LEN * row.refs.len() as u64
}

/// The place of the first lost reference.
#[tactic(auto, unfolding(crate::specs::Faults::lost_at))]
fn lost_at(table: Ascending<'_>, start: u64) -> Option<u64>
    requires { start + sum_by row_len table.rows.now < 2 ^ 63 }
    ensures { result ≡ lost_at table.entry.rows.now start table.entry.rows.now }
{
    let mut at = start;
    for row in table.rows {
        if let Some(i) = first_lost(table, row.refs.as_slice()) {
            return Some(at + ROW_FRONT + REF_LEN * i as u64);
        }
        at += row_len(row);
    }
    None
}

fn is_absent(found: &BTreeSet<Digest>, name: &Digest) -> bool
    ensures { result ≡ is_absent found.now.keys name.now }
{
    !found.contains(name)
}

fn first_absent(found: &BTreeSet<Digest>, outside: &[Digest]) -> Option<usize>
    ensures place { result ≡ position (is_absent found.now.keys) outside.now }
    ensures inside { IfSome result (λ i. i < length outside.now) }
{
    outside.iter().position(|name| is_absent(found, name))
}

/// The place of the first outside bundle that no reference leads to. Takes memory for each bundle that one leads to.
fn unnamed_at(
    alloc: Global,
    rows: &[ObjectRow],
    outside: &[Digest],
) -> Result<Option<u64>, NoMemory>
    requires { table_front + name_len * length outside.now < 2 ^ 63 }
    ensures { IfOk result (λ at. at ≡ unnamed_at rows.now outside.now) }
{
    let found = homes_of_rows(alloc, rows)?;
    match first_absent(&found, outside) {
        Some(i) => Ok(Some(NAMES_AT + NAME_LEN * i as u64)),
        None => Ok(None),
    }
}

/// The first fault behind the last object.
#[tactic(auto, unfolding(crate::specs::Faults::end_fault))]
pub fn end_fault(
    alloc: Global,
    table: Ascending<'_>,
    outside: &[Digest],
    room: u64,
    end: u64,
    rest: Cursor<'_>,
) -> Result<Option<CabErr>, NoMemory>
    requires { table_front + name_len * length outside.now + sum_by row_len table.rows.now < 2 ^ 63 }
    ensures { IfOk result (λ fault. fault ≡ end_fault outside.now table.entry.rows.now room end (tail rest.entry)) }
{
    if rest.rest.len() > 0 {
        return Ok(Some(CabErr::Trailing { at: rest.place() }));
    }
    if end != room {
        return Ok(Some(CabErr::Range { at: rest.end }));
    }
    if let Some(at) = lost_at(table, TABLE_FRONT + NAME_LEN * outside.len() as u64) {
        return Ok(Some(CabErr::Ref { at }));
    }
    match unnamed_at(alloc, table.rows, outside)? {
        Some(at) => Ok(Some(CabErr::Ref { at })),
        None => Ok(None),
    }
}
