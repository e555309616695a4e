// Reading a table from the front: the outside bundles, then the objects with their references. Each row is tested as
// soon as it is read, so that no room is taken on the word of a count: a list grows only by rows that are there.
ghost use Rattle.std.specs.Prelude.{◌≡◌, ◌+◌, ◌≤◌, ◌<◌, ◌^◌, [], None, length, IfOk};
ghost use Rattle.std.specs.List.{AllByRecursion};
ghost use Rattle.addr_cab.specs.Format.{IsTable};
ghost use Rattle.addr_cab.specs.Faults.{outside_at, home_of, ref_at, refs_at, size_at, row_at, rows_at, parts_at, table_read};
ghost use Rattle.addr_cab.specs.Tails.{tail, parts, Reads, Gives};

use crate::ascending::Ascending;
use crate::cursor::Cursor;
use crate::ending::end_fault;
use crate::error::CabErr;
use crate::fields::cursor_of;
use crate::object::ObjectRow;
use crate::parts::Parts;
use addr_base::{Digest, Guid, Home, Items, RefTo};
use std::alloc::Global;

/// So many outside bundles, ascending.
fn outside_of(
    alloc: Global,
    count: u32,
    from: Cursor<'_>,
) -> Result<(Vec<Digest>, Cursor<'_>), CabErr>
    ensures { Gives (λ x. (x.0.items, tail x.1)) result (outside_at count [] None (tail from.entry)) }
{
    let mut outside = Vec::new(alloc);
    let mut last = None;
    let mut rest = from;
    for i in 0..count {
        let (name, after) = rest.above(last)?;
        outside.push(Digest(name))?;
        last = Some(name);
        rest = after;
    }
    Ok((outside, rest))
}

fn home_of(outside: &[Digest], number: u32) -> Option<Home>
    ensures { result ≡ home_of outside.now number }
{
    if number == 0 {
        return Some(Home::Own);
    }
    match outside.get(number as usize - 1) {
        Some(name) => Some(Home::Other(*name)),
        None => None,
    }
}

#[tactic(auto, unfolding(crate::specs::Faults::ref_at))]
fn ref_of<'a>(outside: &[Digest], rest: Cursor<'a>) -> Result<(RefTo, Cursor<'a>), CabErr>
    ensures { Reads (λ x. (x.0, tail x.1)) result (ref_at outside.now (tail rest.entry)) }
{
    let (guid, rest) = rest.sixteen()?;
    let at = rest.place();
    let (number, rest) = rest.u32()?;
    match home_of(outside, number) {
        Some(home) => Ok((
            RefTo {
                guid: Guid(guid),
                home,
            },
            rest,
        )),
        None => Err(CabErr::Ref { at }),
    }
}

fn refs_of<'a>(
    alloc: Global,
    count: u32,
    outside: &[Digest],
    from: Cursor<'a>,
) -> Result<(Vec<RefTo>, Cursor<'a>), CabErr>
    ensures { Gives (λ x. (x.0.items, tail x.1)) result (refs_at count outside.now [] (tail from.entry)) }
{
    let mut refs = Vec::new(alloc);
    let mut rest = from;
    for i in 0..count {
        let (reference, after) = ref_of(outside, rest)?;
        refs.push(reference)?;
        rest = after;
    }
    Ok((refs, rest))
}

/// How many bytes an object has, where those before it end at a place of the data.
#[tactic(auto, unfolding(crate::specs::Faults::size_at))]
fn size_of(room: u64, end: u64, rest: Cursor<'_>) -> Result<(u64, Cursor<'_>), CabErr>
    requires { end ≤ room }
    ensures value { Reads (λ x. (x.0, tail x.1)) result (size_at room end (tail rest.entry)) }
    ensures fits { IfOk result (λ x. end + x.0 ≤ room) }
{
    let (offset, after) = rest.u64()?;
    if offset != end {
        return Err(CabErr::Range { at: rest.place() });
    }
    let at = after.place();
    let (size, after) = after.u64()?;
    if size > room - end {
        return Err(CabErr::Range { at });
    }
    Ok((size, after))
}

#[tactic(auto, unfolding(crate::specs::Faults::row_at))]
fn row_of<'a>(
    alloc: Global,
    outside: &[Digest],
    room: u64,
    last: Option<[u8; 16]>,
    end: u64,
    rest: Cursor<'a>,
) -> Result<(ObjectRow, Cursor<'a>), CabErr>
    requires { end ≤ room }
    ensures value { Gives (λ x. (x.0, tail x.1)) result (row_at outside.now room last end (tail rest.entry)) }
    ensures fits { IfOk result (λ x. end + x.0.size ≤ room) }
{
    let (guid, rest) = rest.above(last)?;
    let (size, rest) = size_of(room, end, rest)?;
    let (count, rest) = rest.u32()?;
    let (refs, rest) = refs_of(alloc, count, outside, rest)?;
    Ok((
        ObjectRow {
            guid: Guid(guid),
            offset: end,
            size,
            refs: Items::from_vec(refs),
        },
        rest,
    ))
}

/// So many objects, with the place of the data where they end.
fn rows_of<'a>(
    alloc: Global,
    count: u32,
    outside: &[Digest],
    room: u64,
    from: Cursor<'a>,
) -> Result<(Vec<ObjectRow>, u64, Cursor<'a>), CabErr>
    ensures { Gives
        (λ x. (x.0.items, x.1, tail x.2)) result (rows_at count outside.now room None 0 [] (tail from.entry)) }
{
    let mut rows = Vec::new(alloc);
    let mut last = None;
    let mut end = 0;
    let mut rest = from;
    for i in 0..count {
        let (row, after) = row_of(alloc, outside, room, last, end, rest)?;
        last = Some(row.guid.0);
        end += row.size;
        rows.push(row)?;
        rest = after;
    }
    Ok((rows, end, rest))
}

#[tactic(auto, unfolding(crate::specs::Faults::parts_at))]
fn parts_of(alloc: Global, room: u64, table: &[u8]) -> Result<Parts<'_>, CabErr>
    ensures { Gives parts result (parts_at room table.now) }
{
    let rest = cursor_of(table).magic()?;
    let (count, rest) = rest.u32()?;
    let (outside, rest) = outside_of(alloc, count, rest)?;
    let (count, rest) = rest.u32()?;
    let (rows, end, rest) = rows_of(alloc, count, &outside, room, rest)?;
    Ok(Parts {
        outside,
        rows,
        end,
        rest,
    })
}

#[tactic(auto, unfolding(crate::specs::Faults::table_read))]
fn tested(alloc: Global, room: u64, table: &[u8]) -> Result<Vec<ObjectRow>, CabErr>
    ensures exact { Gives (λ rows. rows.items) result (table_read room table.now) }
    ensures within { IfOk result (λ rows. AllByRecursion (λ o. o.offset + o.size ≤ room) rows.items) }
    ensures few { IfOk result (λ rows. length rows.items < 2 ^ 32) }
{
    let Parts {
        outside,
        rows,
        end,
        rest,
    } = parts_of(alloc, room, table)?;
    let ascending = Ascending { rows: &rows };
    if let Some(fault) = end_fault(alloc, ascending, &outside, room, end, rest)? {
        return Err(fault);
    }
    Ok(rows)
}

/// The objects of a table, whose data has so much room.
pub fn table_of(alloc: Global, room: u64, table: &[u8]) -> Result<Vec<ObjectRow>, CabErr>
    ensures exact { Gives (λ rows. rows.items) result (table_read room table.now) }
    ensures text { IfOk result (λ rows. IsTable room table.now rows.items) }
    ensures within { IfOk result (λ rows. AllByRecursion (λ o. o.offset + o.size ≤ room) rows.items) }
    ensures few { IfOk result (λ rows. length rows.items < 2 ^ 32) }
{
    tested(alloc, room, table)
}
