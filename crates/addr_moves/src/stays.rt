// Which bundles of the state stay: their group is fixed there and in the project.
ghost use Rattle.std.specs.Prelude.{List, ℕ, map, IfOk};
ghost use Rattle.std.specs.List.{AllZip};
ghost use Rattle.addr_moves.specs.Firsts.{AreFirsts, number_under};
ghost use Rattle.addr_moves.specs.Stays.{StaysAs};
ghost use Rattle.addr_moves.specs.within.Groups.{IsFixedAt};

use crate::firsts::{firsts_of, number_under};
use addr_base::{Items, NoMemory};
use addr_project::{Group, Project};
use addr_state::{State, StateBundle};
use std::alloc::Global;
use std::collections::BTreeMap;

/// The number of the project's fixed group with a name.
fn fixed_group(project: &Project, groups: &BTreeMap<&[u8], u32>, name: &[u8]) -> Option<u32>
    requires groups { AreFirsts (map (λ g. g.name) project.now.groups) (number_under groups.now) }
    ensures { IsFixedAt project.now name.now result }
{
    project.kept();
    match number_under(groups, name) {
        None => None,
        Some(n) => {
            if project.groups()[n as usize].fixed {
                Some(n)
            } else {
                None
            }
        }
    }
}

/// The number of the group of a bundle that stays.
fn group_of_old(
    project: &Project,
    groups: &BTreeMap<&[u8], u32>,
    fixed: &BTreeMap<&[u8], u32>,
    old: &StateBundle,
) -> Option<u32>
    requires groups { AreFirsts (map (λ g. g.name) project.now.groups) (number_under groups.now) }
    ensures { (names : List (List ℕ)) → AreFirsts (map (λ text. text) names) (number_under fixed.now)
        → StaysAs names project.now old.now result }
{
    if number_under(fixed, old.group.as_bytes()).is_none() {
        return None;
    }
    fixed_group(project, groups, old.group.as_bytes())
}

/// For each bundle of the state the number of its group in the project, where it stays. A look-up for each bundle.
pub fn stays_of(
    alloc: Global,
    project: &Project,
    state: &State,
) -> Result<Items<Option<u32>>, NoMemory>
    ensures { IfOk result (AllZip (StaysAs state.now.fixed project.now) state.now.bundles) }
{
    project.kept();
    let groups = firsts_of(alloc, project.groups())?;
    let fixed = firsts_of(alloc, state.fixed.as_slice())?;
    let mut stays = Items::new(alloc);
    for old in state.bundles.as_slice() {
        stays.push(group_of_old(project, &groups, &fixed, old))?;
    }
    Ok(stays)
}
