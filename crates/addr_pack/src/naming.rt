// The name of a bundle: the escaped name of its group, and an ending by the group's mode.
ghost use Rattle.std.specs.Prelude.{◌≡◌, ◌++◌, IfOk, OnOk, string_bytes};
ghost use Rattle.addr_project.specs.Kept.{IsKeptEntry};
ghost use Rattle.addr_pack.specs.Naming.{ending, name_of, spelled, IsNameOf};

use addr_base::{Guid, NoMemory, Text, esc};
use addr_project::{Entry, Group, Mode, Project};
use std::alloc::Global;
use std::fmt::Write;

/// The name of the bundle in which an entry stands.
pub fn entry_name(alloc: Global, project: &Project, entry: &Entry) -> Result<String, NoMemory>
    requires { IsKeptEntry project.now entry.now }
    ensures { IfOk result (λ name. IsNameOf project.now entry.now (string_bytes name)) }
{
    let group = &project.groups()[entry.group as usize];
    let asset = &project.assets()[entry.asset as usize];
    let name = bundle_name(alloc, group, asset.guid, entry.labels.as_slice())?;
    Ok(name)
}

#[tactic(auto, unfolding(crate::specs::Naming::name_of))]
fn bundle_name(
    alloc: Global,
    group: &Group,
    guid: Guid,
    labels: &[Text],
) -> Result<String, NoMemory>
    ensures { IfOk result (λ name. string_bytes name ≡ name_of group.now guid labels.now) }
{
    let mut name = esc(alloc, group.name.as_str())?.into_string();
    push_ending(alloc, &mut name, group.mode, guid, labels)?;
    Ok(name)
}

fn push_ending(
    alloc: Global,
    name: &mut String,
    mode: Mode,
    guid: Guid,
    labels: &[Text],
) -> Result<(), NoMemory>
    ensures { OnOk result (string_bytes name.new ≡ string_bytes name.old ++ ending mode guid labels.now) }
{
    match mode {
        Mode::Together => name.push_str("_assets_all")?,
        Mode::Separate => write!(name, "_assets_{guid}")?,
        Mode::Label => {
            name.push_str("_labels")?;
            push_labels(alloc, name, labels)?;
        }
    }
    Ok(())
}

fn push_labels(alloc: Global, name: &mut String, labels: &[Text]) -> Result<(), NoMemory>
    ensures { OnOk result (string_bytes name.new ≡ string_bytes name.old ++ spelled labels.now) }
{
    for label in labels.iter() {
        let escaped = esc(alloc, label.as_str())?;
        name.push('_')?;
        name.push_str(escaped.as_str())?;
    }
    Ok(())
}
