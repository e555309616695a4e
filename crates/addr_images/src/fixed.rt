// The names of a project's fixed groups, in byte order.
ghost use Rattle.std.specs.Prelude.{◌≡◌, map, IfOk, OnOk};
ghost use Rattle.std.specs.Cmp.Lexicographic.{slice_cmp};
ghost use Rattle.std.specs.Ordering.{nat_cmp};
ghost use Rattle.addr_release.specs.Built.{IsFixedName};
ghost use Rattle.addr_walks.specs.Walks.{IsListOf};
ghost use Rattle.addr_images.specs.within.Fixed.{fixed_names, with_group};

use addr_base::{Items, NoMemory, Text};
use addr_project::{Group, Project};
use std::alloc::Global;
use std::collections::BTreeSet;

/// One more name, where the group is fixed.
fn add_fixed<'a>(found: &mut BTreeSet<&'a str>, group: &'a Group) -> Result<(), NoMemory>
    ensures { OnOk result
        (map (λ name. name.now) found.new.keys ≡ with_group (map (λ name. name.now) found.old.keys) group.now) }
{
    if !group.fixed {
        return Ok(());
    }
    found.insert(group.name.as_str())?;
    Ok(())
}

fn fixed_set<'a>(alloc: Global, groups: &'a [Group]) -> Result<BTreeSet<&'a str>, NoMemory>
    ensures { IfOk result (λ found. map (λ name. name.now) found.keys ≡ fixed_names groups.now) }
{
    let mut found = BTreeSet::new(alloc);
    for group in groups.iter() {
        add_fixed(&mut found, group)?;
    }
    Ok(found)
}

fn copies(alloc: Global, found: &BTreeSet<&str>) -> Result<Items<Text>, NoMemory>
    ensures { IfOk result (λ names. names ≡ map (λ name. name.now) found.now.keys) }
{
    let mut names = Items::new(alloc);
    for name in found.iter() {
        names.push(Text::copy_of(alloc, name)?)?;
    }
    Ok(names)
}

/// The names of the fixed groups, each once, ascending.
pub fn fixed_of(alloc: Global, project: &Project) -> Result<Items<Text>, NoMemory>
    ensures { IfOk result (IsListOf (slice_cmp nat_cmp) (IsFixedName project.now)) }
{
    let found = fixed_set(alloc, project.groups())?;
    let names = copies(alloc, &found)?;
    Ok(names)
}
