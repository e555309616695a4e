// The name of the group that takes the duplicates.
ghost use Rattle.std.specs.Prelude.{◌≡◌, true, IfOk};
ghost use Rattle.std.specs.List.{list_any};
ghost use Rattle.std.specs.Str.{bytes_eq};
ghost use Rattle.addr_analyze.specs.Isolation.{IsFreeName, numbered_name};
ghost use Rattle.addr_project_rows.specs.Fields.{is_within, most_text};

use addr_base::{NoMemory, Text};
use addr_project::Group;
use std::alloc::Global;

/// The first of `Duplicate Assets`, `Duplicate Assets 2`, `Duplicate Assets 3` and so on that no group has. A number past a u32 is
/// more than memory is promised to hold.
pub fn free_name(alloc: Global, groups: &[Group]) -> Result<Text, NoMemory>
    ensures free { IfOk result (IsFreeName groups.now) }
    ensures text { IfOk result (λ name. is_within 1 most_text name ≡ true) }
{
    for number in 0..u32::MAX {
        let name = numbered_name(alloc, number)?;
        if !has_name(groups, name.as_str()) {
            return Ok(name);
        }
    }
    Err(NoMemory)
}

/// The name with a number; the first has none, and the next one is 2.
fn numbered_name(alloc: Global, number: u32) -> Result<Text, NoMemory>
    ensures { IfOk result (λ name. name ≡ numbered_name number) }
{
    if number == 0 {
        return Text::copy_of(alloc, "Duplicate Assets");
    }
    let shown = number as u64 + 1;
    let name = format!(in alloc; "Duplicate Assets {shown}")?;
    Ok(Text::from_string(name))
}

fn has_name(groups: &[Group], name: &str) -> bool
    ensures { result ≡ list_any (λ group. bytes_eq group.name name.now) groups.now }
{
    groups.iter().any(|group| group.name.as_str() == name)
}
