// What a profile's two texts and the variables' values expand to, all by one table of the values.
ghost use Rattle.std.specs.Prelude.{◌≡◌, map, IfOk};
ghost use Rattle.std.specs.List.{position};
ghost use Rattle.addr_expansion.specs.Expansion.{expanded};
ghost use Rattle.addr_expansion.specs.Extents.{answer_of};
ghost use Rattle.addr_expansion.specs.Replies.{is_bad, is_circular, replies};

use crate::expansion::{fill, known, round};
use crate::extent::Extent;
use addr_base::{NoMemory, Var};
use std::alloc::Global;

/// What is kept of the expanded texts.
#[derive(Drop)]
pub struct Replies {
    pub local: Extent,
    pub remote: Extent,
    pub values: Vec<Extent>,
}

/// Expands the two texts of a profile, and each variable's value.
pub fn replies_of(
    alloc: Global,
    variables: &[Var],
    local: &str,
    remote: &str,
) -> Result<Replies, NoMemory>
    ensures local { IfOk result (λ r. answer_of r.local ≡ expanded variables.now local.now) }
    ensures remote { IfOk result (λ r. answer_of r.remote ≡ expanded variables.now remote.now) }
    ensures values { IfOk result (λ r. map answer_of r.values.items ≡ replies variables.now) }
{
    let table = known(alloc, variables)?;
    let values = round(alloc, variables, &table)?;
    let local = fill(alloc, variables, &table, local)?;
    let remote = fill(alloc, variables, &table, remote)?;
    Ok(Replies {
        local,
        remote,
        values,
    })
}

pub fn is_bad(reply: &Extent) -> bool
    ensures { result ≡ is_bad (answer_of reply.now) }
{
    match reply {
        Extent::Bad => true,
        _ => false,
    }
}

fn is_circular(reply: &Extent) -> bool
    ensures { result ≡ is_circular (answer_of reply.now) }
{
    match reply {
        Extent::Circular => true,
        _ => false,
    }
}

/// The first value that leads to an unknown name or an open bracket.
pub fn first_bad(values: &[Extent]) -> Option<usize>
    ensures { result ≡ position is_bad (map answer_of values.now) }
{
    bad_place(values)
}

fn bad_place(values: &[Extent]) -> Option<usize>
    ensures { result ≡ position (λ e. is_bad (answer_of e)) values.now }
{
    values.iter().position(|reply| is_bad(reply))
}

/// The first value that leads to a variable that leads to itself.
pub fn first_circular(values: &[Extent]) -> Option<usize>
    ensures { result ≡ position is_circular (map answer_of values.now) }
{
    circular_place(values)
}

fn circular_place(values: &[Extent]) -> Option<usize>
    ensures { result ≡ position (λ e. is_circular (answer_of e)) values.now }
{
    values.iter().position(|reply| is_circular(reply))
}
