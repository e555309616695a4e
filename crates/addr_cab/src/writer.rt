// Writing the objects of a bundle. Their bytes are put first, so that the places of all fit into a number of the table.
ghost use Rattle.std.specs.Prelude.{◌≡◌, ◌+◌, ◌-◌, ◌<◌, ◌^◌, ◌++◌, List, ℕ, length, min, sum_by, OnOk, IfOk};
ghost use Rattle.std.specs.List.{flat_map, All, AllByRecursion};
ghost use Rattle.addr_cab.specs.Objects.{HeldByFiles};
ghost use Rattle.addr_cab.specs.Spelling.{home_number, row_text, table_text};
ghost use Rattle.addr_cab.specs.Outside.{outside_of};
ghost use Rattle.addr_cab.specs.Written.{bytes_len, refs_of, placed, cab_table, cab_data, CanWrite, IsTyped, IsCabText, ReadsBack};

use crate::fields::MAGIC;
use crate::homes::homes_of;
use crate::names::Names;
use crate::object::ObjectOut;
use crate::put::{put_names, put_row, put_u32};
use addr_base::{Digest, NoMemory};
use std::alloc::Global;

/// How many bytes the objects have together, or the greatest number where they have more.
fn data_len(objects: &[ObjectOut]) -> usize
    ensures { result ≡ min (sum_by bytes_len objects.now) (2 ^ 64 - 1) }
{
    let mut len: usize = 0;
    for object in objects {
        len = len.saturating_add(object.bytes.len());
    }
    len
}

fn data_of(alloc: Global, objects: &[ObjectOut]) -> Result<Vec<u8>, NoMemory>
    ensures { IfOk result (λ content. content.items ≡ cab_data objects.now) }
{
    let mut content = Vec::with_capacity(alloc, data_len(objects))?;
    for object in objects {
        content.extend_from_slice(object.bytes.as_slice())?;
    }
    Ok(content)
}

fn outside_of(alloc: Global, objects: &[ObjectOut]) -> Result<Vec<Digest>, NoMemory>
    ensures { IfOk result (λ names. names.items ≡ outside_of (refs_of objects.now)) }
{
    let found = homes_of(alloc, objects)?;
    let mut names = Vec::with_capacity(alloc, found.len())?;
    for name in found.iter() {
        names.push(*name)?;
    }
    Ok(names)
}

fn put_rows(out: &mut Vec<u8>, names: Names<'_>, objects: &[ObjectOut]) -> Result<(), NoMemory>
    requires few { All (λ o. length o.refs < 2 ^ 32) objects.now }
    requires numbers { All (λ o. All (λ r. home_number names.names.now r.home < 2 ^ 32) o.refs) objects.now }
    requires small { sum_by bytes_len objects.now < 2 ^ 63 }
    ensures rows { OnOk result (out.new.items
        ≡ out.old.items ++ flat_map (row_text names.entry.names.now) (placed 0 objects.now)) }
    ensures typed { OnOk result (AllByRecursion IsTyped objects.now) }
{
    let mut offset: u64 = 0;
    for object in objects {
        put_row(out, names, object, offset)?;
        offset += object.bytes.len() as u64;
    }
    Ok(())
}

fn table_of(alloc: Global, names: Names<'_>, objects: &[ObjectOut]) -> Result<Vec<u8>, NoMemory>
    requires can { CanWrite objects.now }
    requires outside { names.names.now ≡ outside_of (refs_of objects.now) }
    requires small { sum_by bytes_len objects.now < 2 ^ 63 }
    ensures text { IfOk result (λ table. table.items ≡ cab_table objects.now) }
    ensures typed { IfOk result (λ table. AllByRecursion IsTyped objects.now) }
{
    let mut table = Vec::new(alloc);
    table.extend_from_slice(MAGIC)?;
    put_u32(&mut table, names.names.len() as u32)?;
    put_names(&mut table, names.names)?;
    put_u32(&mut table, objects.len() as u32)?;
    put_rows(&mut table, names, objects)?;
    Ok(table)
}

/// The table and the data of objects. Takes room for the data once and copies each byte once; of the references it
/// keeps each bundle outside once.
pub fn write_cab(alloc: Global, objects: &[ObjectOut]) -> Result<(Vec<u8>, Vec<u8>), NoMemory>
    requires { CanWrite objects.now }
    ensures exact { IfOk result (λ cab. (cab.0.items ≡ cab_table objects.now)
        × (cab.1.items ≡ cab_data objects.now)) }
    ensures text { IfOk result (λ cab. IsCabText objects.now cab.0.items cab.1.items) }
    // The table is read as rows, at which the data has the objects that were given.
    ensures reads { IfOk result (λ cab. ReadsBack objects.now cab.0.items cab.1.items) }
    // A file that is read as a bundle of just the two nodes with these bytes holds the objects.
    ensures holds { IfOk result (λ cab. HeldByFiles objects.now cab.0.items cab.1.items) }
{
    let content = data_of(alloc, objects)?;
    let outside = outside_of(alloc, objects)?;
    let names = Names { names: &outside };
    let table = table_of(alloc, names, objects)?;
    Ok((table, content))
}
