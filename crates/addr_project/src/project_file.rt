// The tables of a project file: first that each member of the top and the profile is good, then the rows, table by table.
ghost use Rattle.std.specs.Prelude.{◌≡◌, ◌⊎◌, List, ℕ, Option, Some, None, map, IfOk, IfErr};
ghost use Rattle.std.specs.List.{filter_map};
ghost use Rattle.std.specs.Option.{option_map, option_copied};
ghost use Rattle.toml.specs.View.{view, table_view};
ghost use Rattle.addr_project.specs.Faults.{head_fault, row_fault, field_fault, bad_row, bad_variable};
ghost use Rattle.addr_project.specs.Rows.{version_of, profile_of, profile_text, profile, rows_at, rows, file_of};
ghost use Rattle.addr_project_rows.specs.Variables.{variable_of};
ghost use Rattle.addr_project.specs.Tables.{members_in, IsHead};
ghost use Rattle.addr_project.specs.declared.error.ProjectErr.TheVariants as faults;

use crate::error::ProjectErr;
use crate::limit::Part;
use crate::model::Group;
use crate::rows::{AssetRow, EntryRow, ProjectFile};
use addr_base::{Items, Text, Var};
use addr_project_rows::{Row, fields, rows_read, texts, variables_read};
use std::alloc::Global;
use toml::{Table, Value};

/// The top of a project file, each part good: its texts, and its rows, not yet read.
#[derive(Drop)]
pub struct Head<'a> {
    pub version: &'a str,
    pub local: &'a str,
    pub remote: &'a str,
    pub variables: &'a [Value],
    pub groups: &'a [Value],
    pub assets: &'a [Value],
    pub entries: &'a [Value],
}

fn version_at(tree: &Table) -> Option<&str>
    ensures { option_copied result ≡ version_of (table_view tree.now) }
{
    match fields::member(tree, "version") {
        Some(value) => match value.as_str() {
            Some(text) => fields::text_if(text, texts::is_version(text)),
            None => None,
        },
        None => Some("2021.3.0f1"),
    }
}

/// The table `[profile]`, or Some(None) where it is absent.
fn profile_at(tree: &Table) -> Option<Option<&Table>>
    ensures { option_map members_in result ≡ profile_of (table_view tree.now) }
{
    match fields::member(tree, "profile") {
        Some(value) => match value.as_table() {
            Some(table) => Some(Some(table)),
            None => None,
        },
        None => Some(None),
    }
}

/// A text of the profile, whose default is its own name.
fn profile_text_at<'a>(profile: Option<&'a Table>, key: &'a str) -> Option<&'a str>
    ensures { option_copied result ≡ profile_text key.now (members_in profile.entry) }
{
    match profile {
        Some(table) => match fields::member(table, key) {
            Some(value) => fields::as_text(value),
            None => Some(key),
        },
        None => Some(key),
    }
}

fn rows_at<'a>(tree: &'a Table, key: &str) -> Option<&'a [Value]>
    ensures { option_map (λ vs. map view vs.now) result ≡ rows_at key.now (table_view tree.now) }
{
    match fields::member(tree, key) {
        Some(value) => fields::as_rows(value),
        None => Some(&[]),
    }
}

fn bad_field(table: Part) -> ProjectErr
    ensures { result ≡ faults.BadField table 0 }
{
    ProjectErr::BadField { table, row: 0 }
}

/// The top of a file, or its first bad member.
#[tactic(auto, unfolding(crate::specs::Faults::head_fault))]
fn head_of(tree: &Table) -> Result<Head<'_>, ProjectErr>
    ensures ok { IfOk result (λ head. (head_fault (table_view tree.now) ≡ None) × IsHead (table_view tree.now) head) }
    ensures err { IfErr result (λ e. head_fault (table_view tree.now) ≡ Some e) }
{
    let Some(version) = version_at(tree) else {
        return Err(bad_field(Part::Project));
    };
    let Some(profile) = profile_at(tree) else {
        return Err(bad_field(Part::Project));
    };
    let Some(variables) = rows_at(tree, "variable") else {
        return Err(bad_field(Part::Project));
    };
    let Some(groups) = rows_at(tree, "group") else {
        return Err(bad_field(Part::Project));
    };
    let Some(assets) = rows_at(tree, "asset") else {
        return Err(bad_field(Part::Project));
    };
    let Some(entries) = rows_at(tree, "entry") else {
        return Err(bad_field(Part::Project));
    };
    let Some(local) = profile_text_at(profile, "local") else {
        return Err(bad_field(Part::Profile));
    };
    let Some(remote) = profile_text_at(profile, "remote") else {
        return Err(bad_field(Part::Profile));
    };
    Ok(Head {
        version,
        local,
        remote,
        variables,
        groups,
        assets,
        entries,
    })
}

fn table_read<T: Row + Drop>(
    alloc: Global,
    rows: &[Value],
    table: Part,
) -> Result<Items<T>, ProjectErr>
    ensures ok { IfOk result (λ found. (bad_row table T.row_of (map view rows.now) ≡ None)
        × (found ≡ filter_map T.row_of (map view rows.now))) }
    ensures err { IfErr result (λ e. (e ≡ faults.NoMemory) ⊎ (bad_row table T.row_of (map view rows.now) ≡ Some e)) }
{
    let read = rows_read::<T>(alloc, rows)?;
    match read.bad {
        Some(row) => Err(ProjectErr::BadField { table, row }),
        None => Ok(read.found),
    }
}

fn variable_table(alloc: Global, rows: &[Value]) -> Result<Items<Var>, ProjectErr>
    ensures ok { IfOk result
        (λ found. (bad_variable (map view rows.now) ≡ None)
        × (found ≡ filter_map variable_of (map view rows.now))) }
    ensures err { IfErr result (λ e. (e ≡ faults.NoMemory) ⊎ (bad_variable (map view rows.now) ≡ Some e)) }
{
    let read = variables_read(alloc, rows)?;
    match read.bad {
        Some(row) => Err(ProjectErr::BadField {
            table: Part::Variable,
            row,
        }),
        None => Ok(read.found),
    }
}

/// What a project file says, or its first bad field.
#[tactic(auto, unfolding(crate::specs::Faults::row_fault, crate::specs::Rows::file_of))]
pub fn file_read(alloc: Global, tree: &Table) -> Result<ProjectFile, ProjectErr>
    ensures ok { IfOk result
        (λ file. (field_fault (table_view tree.now) ≡ None) × (file ≡ file_of (table_view tree.now))) }
    ensures err { IfErr result (λ e. (e ≡ faults.NoMemory) ⊎ (field_fault (table_view tree.now) ≡ Some e)) }
{
    let head = head_of(tree)?;
    let variables = variable_table(alloc, head.variables)?;
    let groups = table_read::<Group>(alloc, head.groups, Part::Group)?;
    let assets = table_read::<AssetRow>(alloc, head.assets, Part::Asset)?;
    let entries = table_read::<EntryRow>(alloc, head.entries, Part::Entry)?;
    let version = Text::copy_of(alloc, head.version)?;
    let local = Text::copy_of(alloc, head.local)?;
    let remote = Text::copy_of(alloc, head.remote)?;
    Ok(ProjectFile {
        version,
        local,
        remote,
        variables,
        groups,
        assets,
        entries,
    })
}
