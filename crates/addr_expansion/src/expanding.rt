// The expansion of one text beside its variables.
ghost use Rattle.std.specs.Prelude.{◌≡◌, ◌⊎◌, Ok, Err, IfOk, IfErr};
ghost use Rattle.addr_expansion.specs.Expansion.{expanded};
ghost use Rattle.addr_expansion.specs.Extents.{answer_of};
ghost use Rattle.addr_expansion.specs.Meaning.{IsMeant};
ghost use Rattle.addr_expansion.specs.declared.error.ExpandErr.TheVariants as expanding;

use crate::error::ExpandErr;
use crate::expansion::{fill, known};
use crate::extent::Extent;
use addr_base::{NoMemory, Text, Var};
use std::alloc::Global;

/// Replaces each name in brackets by the expanded value of the first variable of that name. The time is bounded by the
/// lengths of the values and the square of their number, however often variables double each other.
pub fn expand(alloc: Global, variables: &[Var], text: &str) -> Result<Text, ExpandErr>
    ensures ok { IfOk result (λ t. expanded variables.now text.now ≡ Ok t) }
    ensures err { IfErr result (λ e. (e ≡ expanding.NoMemory) ⊎ (expanded variables.now text.now ≡ Err e)) }
{
    let extent = extent_of_reply(alloc, variables, text)?;
    match extent {
        Extent::Bad => Err(ExpandErr::BadVariable),
        Extent::Circular => Err(ExpandErr::Cycle),
        Extent::Whole(text) => Ok(text),
        Extent::Long(length) => Err(ExpandErr::TooLong(length)),
    }
}

/// What the answer of `expand` stands for: the text with its names replaced, or that a walk from it leads to a bad text, or to
/// a variable that leads to itself. Nothing runs.
pub fn expansion_is_meant(variables: &[Var], text: &str)
    ensures { IsMeant variables.now text.now }
{}

/// What is kept of a text's expansion.
fn extent_of_reply(alloc: Global, variables: &[Var], text: &str) -> Result<Extent, NoMemory>
    ensures { IfOk result (λ e. answer_of e ≡ expanded variables.now text.now) }
{
    let table = known(alloc, variables)?;
    let extent = fill(alloc, variables, &table, text)?;
    Ok(extent)
}
