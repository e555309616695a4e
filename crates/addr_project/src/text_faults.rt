// The first text of a project file that can't be expanded, in the order of the tests.
ghost use Rattle.std.specs.Prelude.{◌≡◌, ◌<◌, ◌^◌, length, map, IfOk, IfErr};
ghost use Rattle.addr_expansion.specs.Extents.{answer_of};
ghost use Rattle.addr_project.specs.Faults.{too_long, text_fault};
ghost use Rattle.addr_project_rows.specs.Firsts.{first_of};

use crate::error::ProjectErr;
use crate::limit::{Limit, Part};
use addr_base::NoMemory;
use addr_expansion::{Extent, Replies, first_bad, first_circular, is_bad};
use addr_project_rows::row_number;

/// The first text that can't be expanded.
#[tactic(auto, unfolding(crate::specs::Faults::text_fault))]
pub fn text_fault(replies: &Replies) -> Result<Option<ProjectErr>, NoMemory>
    ensures ok { IfOk result (λ fault. fault ≡ text_fault (answer_of replies.now.local)
        (answer_of replies.now.remote) (map answer_of replies.now.values.items)) }
    ensures err { IfErr result (λ e. 2 ^ 32 < length replies.now.values.items) }
{
    if is_bad(&replies.local) || is_bad(&replies.remote) {
        return Ok(Some(ProjectErr::BadVariable {
            table: Part::Profile,
            row: 0,
        }));
    }
    if let Some(place) = first_bad(&replies.values) {
        return Ok(Some(ProjectErr::BadVariable {
            table: Part::Variable,
            row: row_number(place)?,
        }));
    }
    if let Some(place) = first_circular(&replies.values) {
        return Ok(Some(ProjectErr::VariableCycle {
            row: row_number(place)?,
        }));
    }
    Ok(
        too_long(&replies.local)
            .or(too_long(&replies.remote))
            .or(first_long(&replies.values)),
    )
}

fn too_long(reply: &Extent) -> Option<ProjectErr>
    ensures { result ≡ too_long (answer_of reply.now) }
{
    match reply {
        Extent::Long(count) => Some(ProjectErr::OverLimit {
            which: Limit::Expanded,
            count: *count,
        }),
        _ => None,
    }
}

fn first_long(values: &[Extent]) -> Option<ProjectErr>
    ensures { result ≡ first_of too_long (map answer_of values.now) }
{
    for reply in values.iter() {
        let fault = too_long(reply);
        if fault.is_some() {
            return fault;
        }
    }
    None
}
