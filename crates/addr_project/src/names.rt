// GUIDs and names of a project file: none is repeated, none is reserved, and each that is named is there.
ghost use Rattle.std.specs.Prelude.{◌≡◌, ◌⊎◌, IfOk, IfErr, OnOk};
ghost use Rattle.std.specs.List.{position, list_any};
ghost use Rattle.addr_project.specs.Faults.{is_reserved, lacks_group, lacks_ref, lacks_asset, guids_of, names_of, key_fault, link_fault, name_fault};
ghost use Rattle.addr_project_rows.specs.Firsts.{is_among};
ghost use Rattle.addr_project_rows.specs.Lookups.{keys_in};
ghost use Rattle.addr_project.specs.declared.error.ProjectErr.TheVariants as faults;

use crate::error::ProjectErr;
use crate::limit::Part;
use crate::model::Group;
use crate::rows::{AssetRow, EntryRow};
use addr_base::Guid;
use addr_project_rows::{Index, Indexed, first_repeat, index_rows, row_number};
use std::alloc::Global;

/// The places of the assets' GUIDs and of the groups' names.
#[derive(Drop)]
pub struct Named<'a> {
    pub guids: Index<'a>,
    pub names: Index<'a>,
}

/// Indexes the GUIDs and the names, or finds the first that is wrong.
pub fn check_names<'a>(
    alloc: Global,
    groups: &'a [Group],
    assets: &'a [AssetRow],
    entries: &[EntryRow],
) -> Result<Named<'a>, ProjectErr>
    ensures ok { IfOk result (λ named. (name_fault groups.now assets.now entries.now ≡ None)
        × (keys_in named.guids.keys.items ≡ guids_of assets.now) × (keys_in named.names.keys.items ≡ names_of groups.now)) }
    ensures err { IfErr result (λ e. (e ≡ faults.NoMemory) ⊎ (name_fault groups.now assets.now entries.now ≡ Some e)) }
{
    let named = check_keys(alloc, groups, assets, entries)?;
    check_links(&named, assets, entries)?;
    Ok(named)
}

#[tactic(auto, unfolding(crate::specs::Faults::key_fault))]
fn check_keys<'a>(
    alloc: Global,
    groups: &'a [Group],
    assets: &'a [AssetRow],
    entries: &[EntryRow],
) -> Result<Named<'a>, ProjectErr>
    ensures ok { IfOk result (λ named. (key_fault groups.now assets.now entries.now ≡ None)
        × (keys_in named.guids.keys.items ≡ guids_of assets.now) × (keys_in named.names.keys.items ≡ names_of groups.now)) }
    ensures err { IfErr result (λ e. (e ≡ faults.NoMemory) ⊎ (key_fault groups.now assets.now entries.now ≡ Some e)) }
{
    let guids = match index_rows(alloc, assets)? {
        Indexed::Whole(index) => index,
        Indexed::Repeat(row) => return Err(ProjectErr::DuplicateGuid {
            table: Part::Asset,
            row,
        }),
    };
    if let Some(row) = first_repeat(alloc, entries)? {
        return Err(ProjectErr::DuplicateGuid {
            table: Part::Entry,
            row,
        });
    }
    let names = match index_rows(alloc, groups)? {
        Indexed::Whole(index) => index,
        Indexed::Repeat(row) => return Err(ProjectErr::DuplicateGroup { row }),
    };
    if let Some(place) = reserved(groups) {
        return Err(ProjectErr::ReservedGroup {
            row: row_number(place)?,
        });
    }
    Ok(Named { guids, names })
}

#[tactic(auto, unfolding(crate::specs::Faults::link_fault))]
fn check_links(named: &Named, assets: &[AssetRow], entries: &[EntryRow]) -> Result<(), ProjectErr>
    ensures ok { OnOk result (link_fault (keys_in named.now.names.keys.items)
        (keys_in named.now.guids.keys.items) assets.now entries.now ≡ None) }
    ensures err { IfErr result (λ e. (e ≡ faults.NoMemory)
        ⊎ (link_fault (keys_in named.now.names.keys.items) (keys_in named.now.guids.keys.items) assets.now entries.now ≡ Some e)) }
{
    if let Some(place) = unknown_group(&named.names, entries) {
        return Err(ProjectErr::UnknownGroup {
            row: row_number(place)?,
        });
    }
    if let Some(place) = unknown_ref(&named.guids, assets) {
        return Err(ProjectErr::UnknownRef {
            table: Part::Asset,
            row: row_number(place)?,
        });
    }
    if let Some(place) = unknown_asset(&named.guids, entries) {
        return Err(ProjectErr::UnknownRef {
            table: Part::Entry,
            row: row_number(place)?,
        });
    }
    Ok(())
}

fn reserved(groups: &[Group]) -> Option<usize>
    ensures { result ≡ position is_reserved groups.now }
{
    groups
        .iter()
        .position(|g| g.name.as_str() == "Content Update")
}

fn unknown_group(names: &Index, entries: &[EntryRow]) -> Option<usize>
    ensures { result ≡ position (lacks_group (keys_in names.now.keys.items)) entries.now }
{
    entries.iter().position(|e| !names.has(e.group.as_bytes()))
}

fn unknown_ref(guids: &Index, assets: &[AssetRow]) -> Option<usize>
    ensures { result ≡ position (λ a. lacks_ref (keys_in guids.now.keys.items) a.refs) assets.now }
{
    assets
        .iter()
        .position(|a| lacks_ref(guids, a.refs.as_slice()))
}

fn lacks_ref(guids: &Index, refs: &[Guid]) -> bool
    ensures { result ≡ lacks_ref (keys_in guids.now.keys.items) refs.now }
{
    refs.iter().any(|g| !guids.has(g.0.as_slice()))
}

fn unknown_asset(guids: &Index, entries: &[EntryRow]) -> Option<usize>
    ensures { result ≡ position (lacks_asset (keys_in guids.now.keys.items)) entries.now }
{
    entries.iter().position(|e| !guids.has(e.guid.0.as_slice()))
}
