// A bundle file in memory, with its internal name and its objects. What it lends are slices of the file itself, so that
// no object is copied, and the file lives as long as the Cab does.
ghost use Rattle.std.specs.Prelude.{◌↔◌, ℕ, List, Ok, ◌≡◌, ◌+◌, ◌≤◌, length, find, option_map, slice_get, IfSome, IfOk};
ghost use Rattle.std.specs.Option.{option_copied};
ghost use Rattle.addr_unityfs.specs.Format.{IsBundle};
ghost use Rattle.addr_base.specs.declared.ids.Digest.{Digest};
ghost use Rattle.addr_cab.specs.declared.error.CabErr.{CabErr};
ghost use Rattle.addr_cab.specs.declared.error.CabErr.TheVariants.{Nodes};
ghost use Rattle.addr_cab.specs.declared.object.ObjectOut.{ObjectOut};
ghost use Rattle.addr_cab.specs.declared.object.ObjectRow.{ObjectRow};
ghost use Rattle.addr_cab.specs.Format.{AreBytes, IsTable};
ghost use Rattle.addr_cab.specs.Faults.{has_guid, table_read};
ghost use Rattle.addr_cab.specs.Lookup.{object_bytes, CabRead, HoldsTable, HasFault, HasNoTable};
ghost use Rattle.addr_cab.specs.Objects.{IsCab, objects_of, AnswersCab, AnswersFault};
ghost use Rattle.addr_cab.specs.Searches.{Ascend};

use crate::ascending::Ascending;
use crate::error::CabErr;
use crate::nodes::{bytes_of, nodes_of};
use crate::object::ObjectRow;
use crate::reader::table_of;
use addr_base::{Digest, Found, Guid, Image, Items};
use addr_unityfs::Bundle;
use std::alloc::Global;
use std::marker::Model;

/// The objects of a bundle file that was read, and the file.
#[derive(Drop)]
pub struct Cab {
    name: Digest,
    file: Vec<u8>,
    start: u64,
    rows: Items<ObjectRow>,
}

impl Model for Cab {
    ghost use Rattle.addr_cab.specs.Lookup.{Held, IsHeld};

    ghost Value = { Held };

    ghost view = { λ c. record { name = c.name; file = c.file.items; start = c.start; rows = c.rows } };

    ghost invariant = { λ c. IsHeld (record { name = c.name; file = c.file.items; start = c.start; rows = c.rows }) };
}

impl Cab {
    /// The number of objects.
    pub fn count(&self) -> u32
        ensures { result ≡ length self.now.rows }
    {
        self.rows.len() as u32
    }

    /// The GUID of the object with a number, counted from 0 in the order of the GUIDs; None exactly past the last.
    pub fn guid(&self, i: u32) -> Option<Guid>
        ensures { result ≡ option_map (λ o. o.guid) (slice_get self.now.rows i) }
    {
        match self.rows.get(i as usize) {
            Some(row) => Some(row.guid),
            None => None,
        }
    }

    /// The objects in the order of their GUIDs, each GUID once, each with its length and its references.
    pub fn objects(&self) -> &[ObjectRow]
        ensures rows { result.now ≡ self.now.rows }
        ensures rising { Ascend (λ o. o.guid.0) self.now.rows }
    {
        self.rows.as_slice()
    }

    fn row_of(&self, guid: Guid) -> Option<&ObjectRow>
        ensures row { option_copied result ≡ find (has_guid guid.0) self.now.rows }
        ensures within { IfSome result (λ o. self.now.start + o.now.offset + o.now.size ≤ length self.now.file) }
    {
        let ascending = Ascending {
            rows: self.rows.as_slice(),
        };
        match ascending.place_of(guid) {
            Some(place) => self.rows.get(place),
            None => None,
        }
    }

    fn bytes_at(&self, row: &ObjectRow) -> &[u8]
        requires { self.now.start + row.now.offset + row.now.size ≤ length self.now.file }
        ensures { result.now ≡ object_bytes self.now row.now }
    {
        let from = (self.start + row.offset) as usize;
        &self.file[from..][..row.size as usize]
    }
}

impl Image for Cab {
    ghost use Rattle.addr_cab.specs.Lookup.{object_with, Fits};

    ghost named = { λ c. c.name };

    ghost object_of = { λ c guid. object_with c guid };

    ghost fits = { λ c size digest. Fits c size digest };

    fn name(&self) -> Digest {
        self.name
    }

    fn object<'a>(&'a self, guid: &'a Guid) -> Option<Found<'a>> {
        match self.row_of(*guid) {
            Some(row) => Some(Found {
                bytes: self.bytes_at(row),
                refs: row.refs.as_slice(),
            }),
            None => None,
        }
    }
}

fn cab_of(alloc: Global, file: Vec<u8>, bundle: &Bundle) -> Result<Cab, CabErr>
    requires { IsBundle file.items bundle.now }
    ensures exact { CabRead file.items bundle.now result }
    ensures text { IfOk result (HoldsTable file.items bundle.now) }
    ensures nodes { HasNoTable bundle.now → result ≡ Err Nodes }
{
    let Some(nodes) = nodes_of(bundle) else {
        return Err(CabErr::Nodes);
    };
    let table = bytes_of(&file, bundle, nodes.table);
    let rows = table_of(alloc, nodes.content.size, table)?;
    Ok(Cab {
        name: nodes.name,
        file,
        start: bundle.start + nodes.content.offset,
        rows: Items::from_vec(rows),
    })
}

/// Reads the table of a bundle file, and keeps the file. Takes memory for the rows, their references and the bundles
/// outside alone, and only for those that are there; the file is dropped where its table has a fault or memory is
/// refused.
pub fn read_cab(alloc: Global, file: Vec<u8>, bundle: &Bundle) -> Result<Cab, CabErr>
    requires { IsBundle file.items bundle.now }
    // The answer is what the table is read as, or its first fault; want of memory alone is free.
    ensures exact { CabRead file.items bundle.now result }
    // So a bundle with no table is refused as such, and a table's first fault is answered, unless memory was refused.
    ensures nodes { HasNoTable bundle.now → result ≡ Err Nodes }
    ensures fault { (e : CabErr) → HasFault file.items bundle.now e → AnswersFault result e }
    // The bytes of the first node are the table of the objects that are read.
    ensures text { IfOk result (HoldsTable file.items bundle.now) }
    // The file holds the objects that are answered, with their bytes and references; and where it holds objects these
    // are answered, unless memory was refused.
    ensures found { IfOk result (λ c. IsCab file.items bundle.now c.name (objects_of c)) }
    ensures only { (name : Digest) (objects : List ObjectOut)
        → IsCab file.items bundle.now name objects → AnswersCab result name objects }
    // Bytes are read without a fault exactly where they are a table, and as its objects.
    ensures law { (room : ℕ) (table : List ℕ) (rows : List ObjectRow)
        → AreBytes table → (IsTable room table rows ↔ (table_read room table ≡ Ok rows)) }
{
    cab_of(alloc, file, bundle)
}
