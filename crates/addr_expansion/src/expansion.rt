// Expansion in rounds: after n rounds each value is known as far as walks of fewer than n names lead, so after as many
// rounds as there are variables what is still open leads to itself. No walk is followed twice, and no long text is built.
ghost use Rattle.std.specs.Prelude.{◌≡◌, ◌<◌, List, ℕ, IfOk, MatchOption, length, map, slice_get};
ghost use Rattle.std.specs.Option.{option_copied};
ghost use Rattle.std.specs.List.{fold, position, position_or_len, before_first, after_first};
ghost use Rattle.std.specs.Str.{bytes_eq};
ghost use Rattle.addr_expansion.specs.Expansion.{Outcome, bad, circular, joined, filled, outcome_of, pieces_of, with_piece, of_name, closes};
ghost use Rattle.addr_expansion.specs.Extents.{IsExtent, extent_of, extents};

use crate::extent::{Extent, extent_of_text, join};
use addr_base::{NoMemory, Var};
use std::alloc::Global;

/// What is kept of each variable's value, after as many rounds as there are variables.
pub fn known(alloc: Global, variables: &[Var]) -> Result<Vec<Extent>, NoMemory>
    ensures { IfOk result
        (λ table. table.items ≡ extents (outcome_of variables.now (length variables.now)) variables.now) }
{
    let mut table = unknown(alloc, variables)?;
    for _round in 0..variables.len() {
        table = round(alloc, variables, &table)?;
    }
    Ok(table)
}

/// What is kept of a text, given what is kept of each value.
pub fn fill(
    alloc: Global,
    variables: &[Var],
    table: &[Extent],
    text: &str,
) -> Result<Extent, NoMemory>
    ensures { IfOk result (λ e. (lead : List ℕ → Outcome) → table.now ≡ extents lead variables.now
        → IsExtent e (filled variables.now lead text.now)) }
{
    let pieces = pieces_of(alloc, text)?;
    match pieces.split_first() {
        Some((plain, rest)) => {
            let extent = extent_of_text(alloc, plain)?;
            let filled = fill_pieces(alloc, variables, table, extent, rest)?;
            Ok(filled)
        }
        None => {
            let extent = extent_of_text(alloc, "")?;
            Ok(extent)
        }
    }
}

fn fill_pieces(
    alloc: Global,
    variables: &[Var],
    table: &[Extent],
    first: Extent,
    pieces: &[&str],
) -> Result<Extent, NoMemory>
    ensures { IfOk result
        (λ e. (lead : List ℕ → Outcome) (a : Outcome) → table.now ≡ extents lead variables.now → IsExtent first a
        → IsExtent e (fold (with_piece (of_name variables.now lead)) a (map (λ piece. piece.now) pieces.now))) }
{
    let mut extent = first;
    for piece in pieces.iter() {
        extent = add_piece(alloc, variables, table, extent, piece)?;
    }
    Ok(extent)
}

/// One more round.
pub fn round(alloc: Global, variables: &[Var], table: &[Extent]) -> Result<Vec<Extent>, NoMemory>
    ensures { IfOk result (λ next. (lead : List ℕ → Outcome) → table.now ≡ extents lead variables.now
        → next.items ≡ extents (filled variables.now lead) variables.now) }
{
    let mut next = Vec::new(alloc);
    for variable in variables.iter() {
        let extent = fill(alloc, variables, table, variable.value.as_str())?;
        next.push(extent)?;
    }
    Ok(next)
}

fn unknown(alloc: Global, variables: &[Var]) -> Result<Vec<Extent>, NoMemory>
    ensures { IfOk result (λ table. table.items ≡ extents (λ text. circular) variables.now) }
{
    let mut table = Vec::new(alloc);
    for variable in variables.iter() {
        let _open = variable;
        table.push(Extent::Circular)?;
    }
    Ok(table)
}

fn pieces_of<'a>(alloc: Global, text: &'a str) -> Result<Vec<&'a str>, NoMemory>
    ensures { IfOk result (λ pieces. map (λ piece. piece.now) pieces.items ≡ pieces_of text.now) }
{
    let pieces = text.split('[').collect(alloc)?;
    Ok(pieces)
}

fn add_piece(
    alloc: Global,
    variables: &[Var],
    table: &[Extent],
    before: Extent,
    piece: &str,
) -> Result<Extent, NoMemory>
    ensures { IfOk result
        (λ e. (lead : List ℕ → Outcome) (a : Outcome) → table.now ≡ extents lead variables.now → IsExtent before a
        → IsExtent e (with_piece (of_name variables.now lead) a piece.now)) }
{
    let Some((name, plain)) = split_name(piece) else {
        return Ok(Extent::Bad);
    };
    let plain = extent_of_text(alloc, plain)?;
    let led = join_named(before, named(variables, table, name))?;
    let extent = join(led, &plain)?;
    Ok(extent)
}

fn join_named(before: Extent, value: Option<&Extent>) -> Result<Extent, NoMemory>
    ensures { IfOk result (λ e. (a o : Outcome) → IsExtent before a → MatchOption value.entry (o ≡ bad)
        (λ v. v.now ≡ extent_of o) → IsExtent e (joined a o)) }
{
    match value {
        Some(value) => {
            let extent = join(before, value)?;
            Ok(extent)
        }
        None => Ok(Extent::Bad),
    }
}

/// The name that a piece begins with, up to its first `]`, and the rest.
fn split_name(piece: &str) -> Option<(&str, &str)>
    ensures { MatchOption result (position_or_len closes piece.now ≡ length piece.now)
        (λ r. (r.0.now ≡ before_first closes piece.now) × (r.1.now ≡ after_first closes piece.now) × (position_or_len closes piece.now < length piece.now)) }
{
    piece.split_once(']')
}

fn named<'a>(variables: &[Var], table: &'a [Extent], name: &str) -> Option<&'a Extent>
    ensures { (lead : List ℕ → Outcome) → table.now ≡ extents lead variables.now
        → MatchOption result (of_name variables.now lead name.now ≡ bad) (λ e. e.now ≡ extent_of (of_name variables.now lead name.now)) }
{
    match position_of(variables, name) {
        Some(at) => value_at(table, at),
        None => None,
    }
}

fn value_at<'a>(table: &'a [Extent], at: usize) -> Option<&'a Extent>
    ensures { option_copied result ≡ slice_get table.now at }
{
    table.get(at)
}

fn position_of(variables: &[Var], name: &str) -> Option<usize>
    ensures { result ≡ position (λ v. bytes_eq v.name name.now) variables.now }
{
    variables.iter().position(|v| v.name.as_str() == name)
}
