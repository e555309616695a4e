// Rows of a file: a catalogue's where its name ends with `.json`, and the plain form otherwise; and `rows`, which prints a
// catalogue's in the plain form.
ghost use Rattle.std.specs.Prelude.{◌≡◌, ◌<◌, ◌≤◌, ◌^◌, ◌↔◌, length, IsTrue};
ghost use Rattle.addr_base.specs.Files.{SameStore};
ghost use Rattle.addr_cli.specs.Listing.{ReadsCatalogue, ReadsFile, ReadsRowsFile};
ghost use Rattle.addr_cli.specs.Outcome.{CommandEnds, CountsFault};
ghost use Rattle.addr_cli.specs.Words.{IsJsonName, list_rows};

use crate::files::read_file;
use crate::refusal::Refusal;
use addr_base::{Depot, Text};
use addr_catalog::{CatErr, Catalogue, read_catalog};
use addr_fields::is_same;
use addr_locate::{Locator, read_rows, write_rows};
use std::alloc::Global;

/// The rows of the catalogue that the file is, as text.
pub fn rows_text<D: Depot>(alloc: Global, file: &Text, depot: &mut D) -> Result<Text, Refusal>
    ensures ends { CommandEnds (list_rows file.now) (D.now depot.old) (D.now depot.new) result }
    ensures cause { CountsFault (D.now depot.old) (D.now depot.new) result }
    ensures same { SameStore (D.now depot.old) (D.now depot.new) }
{
    let bytes = read_file(alloc, depot, file)?;
    let catalogue = catalogue_of(alloc, bytes.as_slice())?;
    let text = write_rows(alloc, &catalogue.locator)?;
    Ok(text)
}

/// The rows that a file stands for.
pub fn read_rows_file<D: Depot>(
    alloc: Global,
    name: &Text,
    depot: &mut D,
) -> Result<Locator, Refusal>
    ensures read { ReadsRowsFile name.now (D.now depot.old) (D.now depot.new) result }
    ensures same { SameStore (D.now depot.old) (D.now depot.new) }
    ensures cause { CountsFault (D.now depot.old) (D.now depot.new) result }
{
    let bytes = read_file(alloc, depot, name)?;
    rows_of(alloc, name, bytes.as_slice())
}

/// The rows that the bytes of a file with that name stand for.
fn rows_of(alloc: Global, name: &Text, bytes: &[u8]) -> Result<Locator, Refusal>
    requires { length bytes.now < 2 ^ 32 }
    ensures { ReadsFile name.now bytes.now result }
{
    if is_json_name(name.as_bytes()) {
        let catalogue = catalogue_of(alloc, bytes)?;
        Ok(catalogue.locator)
    } else {
        Ok(read_rows(alloc, bytes)?)
    }
}

/// The catalogue that the bytes are.
pub fn catalogue_of(alloc: Global, bytes: &[u8]) -> Result<Catalogue, Refusal>
    ensures { ReadsCatalogue bytes.now result }
{
    match read_catalog(alloc, bytes) {
        Ok(catalogue) => Ok(catalogue),
        Err(CatErr::NoMemory) => Err(Refusal::NoMemory),
        Err(fault) => Err(Refusal::BadCatalogue(fault.number())),
    }
}

fn is_json_name(name: &[u8]) -> bool
    ensures { IsTrue result ↔ IsJsonName name.now }
{
    name.len() >= 5 && is_same(&name[name.len() - 5..], b".json")
}
