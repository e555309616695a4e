// A project file's tree, put to all tests that need no asset file, and what it stands for without these.
ghost use Rattle.std.specs.Prelude.{◌≡◌, ◌⊎◌, Ok, map, IfOk, IfErr, IsOk};
ghost use Rattle.toml.specs.View.{table_view};
ghost use Rattle.addr_project.specs.Checked.{IsParts, IsChecked, AreTexts};
ghost use Rattle.addr_expansion.specs.Extents.{answer_of};
ghost use Rattle.addr_project.specs.Faults.{tree_fault, file_fault, texts_fault};
ghost use Rattle.addr_project_rows.specs.Lookups.{keys_in};
ghost use Rattle.addr_project.specs.Reading.{entry_from};
ghost use Rattle.addr_project.specs.Rows.{file_of};
ghost use Rattle.addr_project.specs.declared.error.ProjectErr.TheVariants as faults;

use crate::counts::count_fault;
use crate::error::ProjectErr;
use crate::model::Entry;
use crate::names::{Named, check_names};
use crate::parts::{Checked, Parts, Texts};
use crate::project_file::file_read;
use crate::rows::{EntryRow, ProjectFile};
use crate::text_faults::text_fault;
use addr_base::{Items, NoMemory, Text};
use addr_expansion::{Extent, Replies, replies_of};
use std::alloc::Global;
use toml::Table;

/// What a tree stands for without asset files, or its first fault.
#[tactic(auto, unfolding(crate::specs::Faults::tree_fault))]
pub fn parts_of(alloc: Global, tree: &Table) -> Result<Parts, ProjectErr>
    ensures ok { IfOk result
        (λ parts. (tree_fault (table_view tree.now) ≡ None) × IsParts (file_of (table_view tree.now)) parts) }
    ensures err { IfErr result (λ e. (e ≡ faults.NoMemory) ⊎ (tree_fault (table_view tree.now) ≡ Some e)) }
{
    let file = file_read(alloc, tree)?;
    let checked = check_file(alloc, &file)?;
    let Checked {
        local,
        remote,
        entries,
    } = checked;
    let ProjectFile {
        version,
        local: _,
        remote: _,
        variables,
        groups,
        assets,
        entries: _,
    } = file;
    Ok(Parts {
        version,
        local,
        remote,
        variables,
        groups,
        assets,
        entries,
    })
}

#[tactic(auto, unfolding(crate::specs::Faults::file_fault))]
fn check_file(alloc: Global, file: &ProjectFile) -> Result<Checked, ProjectErr>
    ensures ok { IfOk result (λ checked. (file_fault file.now ≡ None) × IsChecked file.now checked) }
    ensures err { IfErr result (λ e. (e ≡ faults.NoMemory) ⊎ (file_fault file.now ≡ Some e)) }
{
    if let Some(fault) = count_fault(file) {
        return Err(fault);
    }
    let named = check_names(
        alloc,
        file.groups.as_slice(),
        file.assets.as_slice(),
        file.entries.as_slice(),
    )?;
    let texts = check_texts(alloc, file)?;
    let entries = numbered(alloc, &named, file.entries.as_slice())?;
    let Texts { local, remote } = texts;
    Ok(Checked {
        local,
        remote,
        entries,
    })
}

fn check_texts(alloc: Global, file: &ProjectFile) -> Result<Texts, ProjectErr>
    ensures ok { IfOk result (λ texts. (texts_fault file.now ≡ None) × AreTexts file.now texts) }
    ensures err { IfErr result (λ e. (e ≡ faults.NoMemory) ⊎ (texts_fault file.now ≡ Some e)) }
{
    let replies = replies_of(
        alloc,
        file.variables.as_slice(),
        file.local.as_str(),
        file.remote.as_str(),
    )?;
    if let Some(fault) = text_fault(&replies)? {
        return Err(fault);
    }
    let Replies {
        local,
        remote,
        values: _,
    } = replies;
    let local = whole(local);
    let remote = whole(remote);
    Ok(Texts { local, remote })
}

/// The text of a reply that is one.
fn whole(reply: Extent) -> Text
    requires { IsOk (answer_of reply) }
    ensures { answer_of reply ≡ Ok result }
{
    match reply {
        Extent::Whole(text) => text,
        _ => unreachable!(),
    }
}

/// Entries with their assets and groups as numbers.
fn numbered(alloc: Global, named: &Named, rows: &[EntryRow]) -> Result<Items<Entry>, NoMemory>
    ensures { IfOk result (λ entries. entries ≡ map
        (entry_from (keys_in named.now.guids.keys.items) (keys_in named.now.names.keys.items)) rows.now) }
{
    let mut entries = Items::new(alloc);
    for row in rows.iter() {
        let entry = number_entry(alloc, named, row)?;
        entries.push(entry)?;
    }
    Ok(entries)
}

fn number_entry(alloc: Global, named: &Named, row: &EntryRow) -> Result<Entry, NoMemory>
    ensures { IfOk result
        (λ entry. entry ≡ entry_from (keys_in named.now.guids.keys.items)
        (keys_in named.now.names.keys.items) row.now) }
{
    let asset = named.guids.place(row.guid.0.as_slice()).unwrap_or(0);
    let group = named.names.place(row.group.as_bytes()).unwrap_or(0);
    let address = Text::copy_of(alloc, row.address.as_str())?;
    let labels = copy_texts(alloc, row.labels.as_slice())?;
    Ok(Entry {
        asset,
        group,
        address,
        labels,
    })
}

fn copy_texts(alloc: Global, texts: &[Text]) -> Result<Items<Text>, NoMemory>
    ensures { IfOk result (λ copies. copies ≡ texts.now) }
{
    let mut copies = Items::new(alloc);
    for text in texts.iter() {
        let copy = Text::copy_of(alloc, text.as_str())?;
        copies.push(copy)?;
    }
    Ok(copies)
}
