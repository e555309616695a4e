// A catalogue as bytes: the rows of tables for its locator, the tables in base64, and the document in JSON.
ghost use Rattle.std.specs.Prelude.{◌≡◌, ◌++◌, [], ◌∷◌, length, IfOk, OnOk, Ok};
ghost use Rattle.std.specs.List.{AllByRecursion};
ghost use Rattle.addr_catalog.specs.Catalogue.{catalogue_read};
ghost use Rattle.addr_catalog.specs.Entries.{bundle_provider, asset_provider};
ghost use Rattle.addr_catalog.specs.ReadBack.{read_back};
ghost use Rattle.addr_catalog.specs.ReadsAlike.{HasDistinctKeys, ReadsAlike};
ghost use Rattle.addr_catalog.specs.Written.{table_rows, tables_written, row_ids, row_kinds, lists_of, document_of, catalogue_text, HasOptions, CanWrite};
ghost use Rattle.addr_tables.specs.Faults.{rows_read};

use crate::catalogue::Catalogue;
use crate::key_numbers::{KeyNumbers, all_deps};
use crate::laws::written_rows_read_back;
use crate::roles::{ASSET_PROVIDER, BUNDLE_PROVIDER};
use crate::written_rows::table_rows;
use addr_base::{Items, NoMemory, Text};
use addr_catalog_json::{Document, Lists, Strings, write_document};
use addr_locate::Locator;
use addr_tables::{Tables, encode};
use std::alloc::Global;

/// The type of the entries of bundles.
const BUNDLE_TYPE: &str = "UnityEngine.ResourceManagement.ResourceProviders.IAssetBundleResource";

/// The ids of the providers of bundles and of assets.
fn provider_ids(alloc: Global) -> Result<Items<Text>, NoMemory>
    ensures { IfOk result (λ ids. ids ≡ bundle_provider ∷ asset_provider ∷ []) }
{
    let mut ids = Items::new(alloc);
    ids.push(Text::copy_of(alloc, BUNDLE_PROVIDER)?)?;
    ids.push(Text::copy_of(alloc, ASSET_PROVIDER)?)?;
    Ok(ids)
}

/// The internal ids of the bundles, and then those of the assets.
fn row_ids(alloc: Global, locator: &Locator) -> Result<Items<Text>, NoMemory>
    ensures { IfOk result (λ ids. ids ≡ row_ids locator.now) }
{
    let mut ids = Items::new(alloc);
    for bundle in locator.bundles() {
        ids.push(Text::copy_of(alloc, bundle.id.as_str())?)?;
    }
    for asset in locator.assets() {
        ids.push(Text::copy_of(alloc, asset.id.as_str())?)?;
    }
    Ok(ids)
}

/// Appends the types of the assets.
fn push_kinds(alloc: Global, locator: &Locator, kinds: &mut Items<Text>) -> Result<(), NoMemory>
    ensures { OnOk result (kinds.new ≡ kinds.old ++ locator.now.kinds) }
{
    for kind in locator.kinds() {
        kinds.push(Text::copy_of(alloc, kind.as_str())?)?;
    }
    Ok(())
}

/// The type of bundles, and then those of the assets; none where there are no rows.
fn row_kinds(alloc: Global, locator: &Locator, rows: usize) -> Result<Items<Text>, NoMemory>
    requires { rows ≡ length (row_ids locator.now) }
    ensures { IfOk result (λ kinds. kinds ≡ row_kinds locator.now) }
{
    let mut kinds = Items::new(alloc);
    if rows == 0 {
        return Ok(kinds);
    }
    kinds.push(Text::copy_of(alloc, BUNDLE_TYPE)?)?;
    push_kinds(alloc, locator, &mut kinds)?;
    Ok(kinds)
}

/// The lists that the numbers of entries name.
fn lists_of(alloc: Global, locator: &Locator) -> Result<Lists, NoMemory>
    ensures { IfOk result (λ lists. lists ≡ lists_of locator.now) }
{
    let providers = provider_ids(alloc)?;
    let internals = row_ids(alloc, locator)?;
    let kinds = row_kinds(alloc, locator, internals.len())?;
    Ok(Lists {
        providers,
        internals,
        kinds,
        prefixes: Items::new(alloc),
    })
}

/// The tables of the locator's rows.
fn tables_of(alloc: Global, locator: &Locator, lists: &Lists) -> Result<Tables, NoMemory>
    requires small { CanWrite locator.now }
    requires lists { lists.now ≡ lists_of locator.now }
    ensures written { IfOk result (λ tables. tables ≡ tables_written locator.now) }
    ensures rows { IfOk result (λ tables. rows_read tables ≡ Ok (table_rows locator.now)) }
    ensures again { OnOk result (AllByRecursion HasOptions locator.now.bundles) }
{
    locator.are_rows();
    let deps = all_deps(alloc, locator.assets())?;
    let numbers = KeyNumbers::of(alloc, locator, &deps)?;
    let rows = table_rows(alloc, &numbers)?;
    let internals = lists.internals.len() as u32;
    let providers = lists.providers.len() as u32;
    let kinds = lists.kinds.len() as u32;
    let tables = encode(alloc, &rows, internals, providers, kinds)?;
    Ok(tables)
}

/// The document of a catalogue.
fn document_of(alloc: Global, catalogue: &Catalogue) -> Result<Document, NoMemory>
    requires { CanWrite catalogue.now.locator }
    ensures written { IfOk result (λ document. document ≡ document_of catalogue.now) }
    ensures rows { OnOk result
        (rows_read (tables_written catalogue.now.locator) ≡ Ok (table_rows catalogue.now.locator)) }
    ensures again { OnOk result (AllByRecursion HasOptions catalogue.now.locator.bundles) }
{
    let lists = lists_of(alloc, &catalogue.locator)?;
    let Tables {
        key,
        bucket,
        entry,
        extra,
        ..
    } = tables_of(alloc, &catalogue.locator, &lists)?;
    Ok(Document {
        lists,
        strings: Strings {
            key,
            bucket,
            entry,
            extra,
        },
        state: catalogue.state,
    })
}

/// The text, and what a reader makes of it.
#[tactic(auto, unfolding(crate::specs::Written::catalogue_text))]
fn write(alloc: Global, catalogue: &Catalogue) -> Result<Vec<u8>, NoMemory>
    requires { CanWrite catalogue.now.locator }
    ensures text { IfOk result (λ bytes. bytes.items ≡ catalogue_text catalogue.now) }
    ensures read { IfOk result (λ bytes. catalogue_read bytes.items ≡ read_back catalogue.now) }
    ensures again { OnOk result (AllByRecursion HasOptions catalogue.now.locator.bundles) }
{
    let document = document_of(alloc, catalogue)?;
    let bytes = write_document(alloc, &document)?;
    Ok(bytes)
}

/// Writes a catalogue (docs/formats/catalogue.md). Time and memory are linear in the size of the rows and of the text, but for
/// the ordered maps in which keys and lists of dependencies are looked up. Whether it may be called is what `can_write` answers.
pub fn write_catalog(alloc: Global, catalogue: &Catalogue) -> Result<Vec<u8>, NoMemory>
    requires { CanWrite catalogue.now.locator }
    // It is the one text that is described.
    ensures text { IfOk result (λ bytes. bytes.items ≡ catalogue_text catalogue.now) }
    // It reads back as alike rows with the same state, where no two bundles have the same key.
    ensures reads { IfOk result
        (λ bytes. HasDistinctKeys catalogue.now.locator → ReadsAlike bytes.items catalogue.now) }
{
    let bytes = write(alloc, catalogue)?;
    written_rows_read_back(&catalogue.locator);
    Ok(bytes)
}
