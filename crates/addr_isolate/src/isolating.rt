// The project file of the isolated project, made of the project's own.
ghost use Rattle.std.specs.Prelude.{◌≡◌, ◌⊎◌, ◌≤◌, ◌+◌, ℕ, List, length, Some, None, Err, IfOk, IfErr, IfNone, IfSome};
ghost use Rattle.toml.specs.Data.{Members};
ghost use Rattle.toml.specs.View.{table_view};
ghost use Rattle.addr_analyze.specs.Duplicates.{AreDuplicates};
ghost use Rattle.addr_project.specs.Limits.{most};
ghost use Rattle.addr_project.specs.Reading.{tree_of};
ghost use Rattle.addr_project.specs.declared.limit.Limit.TheVariants as limits;
ghost use Rattle.addr_isolate.specs.Isolating.{IsWritten, Isolates, guids_of};
ghost use Rattle.addr_isolate.specs.Shallow.{IsPlain};
ghost use Rattle.addr_isolate.specs.declared.error.IsolateErr.TheVariants as errors;

use crate::document::with_entries;
use crate::error::IsolateErr;
use crate::naming::free_name;
use addr_analyze::Duplicate;
use addr_base::{Guid, Items, NoMemory, Text};
use addr_pack::Plan;
use addr_project::{Limit, Project};
use std::alloc::Global;
use toml::Table;

/// The group of the duplicates, and the project file that has it.
#[derive(Debug, Drop)]
pub struct Isolation {
    pub group: Text,
    pub file: Text,
}

/// The project file in which each duplicate is an entry of a group of its own, made of the bytes of the project's file. It costs one
/// pass over the file and the duplicates.
pub fn isolate(
    alloc: Global,
    project: &Project,
    plan: &Plan,
    found: &[Duplicate],
    file: &[u8],
) -> Result<Isolation, IsolateErr>
    requires found { AreDuplicates project.now plan.now found.now }
    ensures { Isolates project.now found.now file.now result }
{
    project.kept();
    if let Some(refusal) = passed_limit(project, found) {
        return Err(refusal);
    }
    let group = free_name(alloc, project.groups())?;
    let guids = guids_of(alloc, found)?;
    match written(alloc, file, group.as_str(), guids.as_slice()) {
        Ok(file) => Ok(Isolation { group, file }),
        Err(refusal) => Err(refusal),
    }
}

/// The limit that is passed with a group and so many entries more.
fn passed_limit(project: &Project, found: &[Duplicate]) -> Option<IsolateErr>
    ensures none { IfNone result ((length project.now.groups + 1 ≤ most limits.Groups)
        × (length project.now.entries + length found.now ≤ most limits.Entries)) }
    ensures some { IfSome result (λ e. (file : List ℕ) → Isolates project.now found.now file (Err e)) }
{
    project.kept();
    let groups = project.groups().len() as u64 + 1;
    let entries = project.entries().len() as u64 + found.len() as u64;
    if groups > Limit::Groups.most() {
        Some(IsolateErr::TooLarge {
            limit: Limit::Groups,
            count: groups,
        })
    } else if entries > Limit::Entries.most() {
        Some(IsolateErr::TooLarge {
            limit: Limit::Entries,
            count: entries,
        })
    } else {
        None
    }
}

fn guids_of(alloc: Global, found: &[Duplicate]) -> Result<Items<Guid>, NoMemory>
    ensures { IfOk result (λ guids. guids ≡ guids_of found.now) }
{
    let mut guids = Items::new(alloc);
    for duplicate in found {
        guids.push(duplicate.guid)?;
    }
    Ok(guids)
}

/// The text of a file's document with a group and its entries.
fn written(alloc: Global, file: &[u8], group: &str, guids: &[Guid]) -> Result<Text, IsolateErr>
    ensures ok { IfOk result (IsWritten file.now group.now guids.now) }
    ensures err { IfErr result (λ e. (e ≡ errors.NoMemory)
        ⊎ ((e ≡ errors.Broken) × ((tree : Members) → tree_of file.now ≡ Some tree → IsPlain tree → ⊥))) }
{
    let tree = parse(alloc, file)?;
    let new = with_entries(alloc, &tree, group, guids)?;
    match toml::table_to_string(alloc, &new) {
        Ok(text) => Ok(Text::from_string(text)),
        Err(toml::ser::Error::DateInvalid) => Err(IsolateErr::Broken),
        Err(_) => Err(IsolateErr::NoMemory),
    }
}

/// The document that the bytes are.
#[tactic(auto, using(crate::proofs::DocumentLemmas::tree_good, crate::proofs::DocumentLemmas::tree_bad))]
fn parse(alloc: Global, bytes: &[u8]) -> Result<Table, IsolateErr>
    ensures ok { IfOk result (λ tree. tree_of bytes.now ≡ Some (table_view tree)) }
    ensures err { IfErr result (λ e. (e ≡ errors.NoMemory) ⊎ ((e ≡ errors.Broken) × (tree_of bytes.now ≡ None))) }
{
    match toml::table_from_slice(alloc, bytes) {
        Ok(table) => Ok(table),
        Err(error) => {
            if error.is_memory() {
                Err(IsolateErr::NoMemory)
            } else {
                Err(IsolateErr::Broken)
            }
        }
    }
}
