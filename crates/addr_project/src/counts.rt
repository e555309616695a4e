// The counts of a project file against their limits, in the order of `Limit`.
ghost use Rattle.std.specs.Prelude.{◌≡◌, ◌-◌, ◌^◌, min, map, length, List, ℕ};
ghost use Rattle.std.specs.List.{sum_by};
ghost use Rattle.addr_project.specs.Faults.{passes, over_labels, over_refs, total_refs, count_fault};
ghost use Rattle.addr_project_rows.specs.Firsts.{first_of};

use crate::error::ProjectErr;
use crate::limit::Limit;
use crate::model::Group;
use crate::rows::{AssetRow, EntryRow, ProjectFile};
use addr_base::Var;

/// The first count that passes its limit.
#[tactic(auto, unfolding(crate::specs::Faults::count_fault))]
pub fn count_fault(file: &ProjectFile) -> Option<ProjectErr>
    ensures { result ≡ count_fault file.now.variables file.now.groups (map (λ a. a.refs) file.now.assets)
        (map (λ e. e.labels) file.now.entries) }
{
    over(Limit::Variables, file.variables.len() as u64)
        .or(over(Limit::Groups, file.groups.len() as u64))
        .or(over(Limit::Assets, file.assets.len() as u64))
        .or(over(Limit::Entries, file.entries.len() as u64))
        .or(first_labels(file.entries.as_slice()))
        .or(first_refs(file.assets.as_slice()))
        .or(over(Limit::AllRefs, all_refs(file.assets.as_slice())))
}

/// The fault of a count above its limit.
pub fn over(which: Limit, count: u64) -> Option<ProjectErr>
    ensures { result ≡ passes which count }
{
    if which.most() < count {
        Some(ProjectErr::OverLimit { which, count })
    } else {
        None
    }
}

fn first_labels(entries: &[EntryRow]) -> Option<ProjectErr>
    ensures { result ≡ first_of over_labels (map (λ e. e.labels) entries.now) }
{
    for entry in entries.iter() {
        let fault = over(Limit::Labels, entry.labels.len() as u64);
        if fault.is_some() {
            return fault;
        }
    }
    None
}

fn first_refs(assets: &[AssetRow]) -> Option<ProjectErr>
    ensures { result ≡ first_of over_refs (map (λ a. a.refs) assets.now) }
{
    for asset in assets.iter() {
        let fault = over(Limit::Refs, asset.refs.len() as u64);
        if fault.is_some() {
            return fault;
        }
    }
    None
}

/// The references of all assets; the count stands still at its type's end.
fn all_refs(assets: &[AssetRow]) -> u64
    ensures { result ≡ total_refs (map (λ a. a.refs) assets.now) }
{
    let mut total: u64 = 0;
    for asset in assets.iter() {
        total = total.saturating_add(asset.refs.len() as u64);
    }
    total
}
