// The labels of an entry: in ascending order of their bytes, each once, whatever the order in the file.
ghost use Rattle.std.specs.Prelude.{◌≡◌, map, Some, [], IfOk};
ghost use Rattle.toml.specs.View.{table_view};
ghost use Rattle.addr_project_rows.specs.Fields.{field, ascending, labels_of};

use crate::reader::list_at;
use addr_base::{Items, NoMemory, Text};
use std::alloc::Global;
use std::collections::BTreeSet;
use toml::Table;

/// The labels at a key; absent it has none.
pub fn labels_at(alloc: Global, table: &Table, key: &str) -> Result<Option<Items<Text>>, NoMemory>
    ensures { IfOk result (λ labels. labels ≡ field labels_of (Some []) key.now (table_view table.now)) }
{
    match list_at::<Text>(alloc, table, key)? {
        Some(texts) => {
            let labels = ascending(alloc, texts.as_slice())?;
            Ok(Some(labels))
        }
        None => Ok(None),
    }
}

fn ascending(alloc: Global, texts: &[Text]) -> Result<Items<Text>, NoMemory>
    ensures { IfOk result (λ labels. labels ≡ ascending texts.now) }
{
    let mut found = BTreeSet::new(alloc);
    for text in texts.iter() {
        found.insert(text.as_str())?;
    }
    copies(alloc, &found)
}

fn copies(alloc: Global, found: &BTreeSet<&str>) -> Result<Items<Text>, NoMemory>
    ensures { IfOk result (λ labels. labels ≡ map (λ text. text.now) found.now.keys) }
{
    let mut labels = Items::new(alloc);
    for text in found.iter() {
        labels.push(Text::copy_of(alloc, text)?)?;
    }
    Ok(labels)
}
