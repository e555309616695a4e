// A script, line by line from the front. The first line that isn't in the grammar at its place ends the reading.
ghost use Rattle.std.specs.Prelude.{◌≡◌, ◌<◌, ◌≤◌, ◌+◌, ◌∷◌, [], ◌↔◌, ℕ, List, IsTrue, MatchOption, IfErr, IfOk, IfSome, Some, length, true, false};
ghost use Rattle.addr_fields.specs.Lines.{lines_of};
ghost use Rattle.addr_base.specs.declared.var.Var.{Var};
ghost use Rattle.addr_script.specs.Commands.{set_line, spell, takes, IsNone, IsOf, IsSet};
ghost use Rattle.addr_script.specs.ScriptParts.{BeginsScript, HasLimit, HasSets, IsBadNext, IsNextCommand};
ghost use Rattle.addr_script.specs.Scripts.{IsLimit, limit_lines};

use crate::command::{Command, Grammar};
use crate::error::ScriptErr;
use crate::parser::parse_command;
use crate::set_line::parse_set;
use addr_base::{Items, NoMemory, Var};
use addr_fields::{next_line, number_after};
use std::alloc::Global;

/// The most lines that a script may have; a line's number then fits a u32.
const MAX_LINES: u32 = 100_000;

/// The most events that a journal may be opened for.
const MAX_LIMIT: u32 = 1_000_000;

/// What a script begins with, and where the lines of its commands begin.
#[derive(Drop)]
pub struct ScriptHead<'a> {
    /// The most events that the journal may have, where the first line says so.
    pub limit: Option<u32>,
    /// The variables that the script sets, in order.
    pub vars: Items<Var>,
    /// The bytes of the lines of its commands.
    pub rest: &'a [u8],
    /// The number, from 1, of the first of these lines.
    pub next: u32,
}

/// Reads what a script begins with. The lines of its commands are read by `next_command`.
pub fn read_head(alloc: Global, bytes: &[u8]) -> Result<ScriptHead<'_>, NoMemory>
    ensures begins { IfOk result (λ h. BeginsScript bytes.now h.limit h.vars h.rest.now h.next) }
    ensures limit { IfOk result (λ h. IfSome h.limit IsLimit) }
    ensures few { IfOk result (λ h. h.next ≤ 100001) }
{
    let (limit, rest) = first_limit(bytes);
    let sets = read_sets(alloc, rest, first_number(limit))?;
    Ok(ScriptHead {
        limit,
        vars: sets.vars,
        rest: sets.rest,
        next: sets.next,
    })
}

/// The limit of a first line that has one, and the bytes behind that line, else all bytes.
fn first_limit(bytes: &[u8]) -> (Option<u32>, &[u8])
    ensures { HasLimit (lines_of bytes.now) result.0 (lines_of result.1.now) }
{
    match next_line(bytes) {
        Some((line, rest)) => match limit_of(line) {
            Some(limit) => (Some(limit), rest),
            None => (None, bytes),
        },
        None => (None, bytes),
    }
}

fn is_limit(n: u32) -> bool
    ensures { IsTrue result ↔ IsLimit n }
{
    1 <= n && n <= MAX_LIMIT
}

fn limit_of(line: &[u8]) -> Option<u32>
    ensures { MatchOption result ((n : ℕ) → IsLimit n → line.now ∷ [] ≡ limit_lines (Some n) → ⊥)
        (λ n. IsLimit n × (line.now ∷ [] ≡ limit_lines (Some n))) }
{
    match number_after(line, b"limit ") {
        Some(limit) => { if is_limit(limit) { Some(limit) } else { None } }
        None => None,
    }
}

/// The number of the first line behind the one of the limit.
fn first_number(limit: Option<u32>) -> u32
    ensures value { result ≡ 1 + length (limit_lines limit) }
    ensures few { result ≤ 2 }
{
    match limit {
        Some(_) => 2,
        None => 1,
    }
}

/// The variables that the first lines set, the bytes behind these lines, and the number of the line that begins there.
#[derive(Drop)]
struct Sets<'a> {
    vars: Items<Var>,
    rest: &'a [u8],
    next: u32,
}

/// The variables that lines set of which the first has that number.
fn read_sets(alloc: Global, bytes: &[u8], first: u32) -> Result<Sets<'_>, NoMemory>
    requires { first ≤ 2 }
    ensures { IfOk result (λ s. HasSets (lines_of bytes.now) first s.vars (lines_of s.rest.now) s.next) }
{
    let mut vars = Items::new(alloc);
    let mut rest = bytes;
    let mut next = first;
    while let Some((var, after)) = next_set(alloc, rest, next)? {
        vars.push(var)?;
        next += 1;
        rest = after;
    }
    Ok(Sets { vars, rest, next })
}

/// The variable that the line with that number sets, and the bytes behind the line. A line past the last has none.
fn next_set(alloc: Global, bytes: &[u8], number: u32) -> Result<Option<(Var, &[u8])>, NoMemory>
    ensures { IfOk result (λ found. MatchOption found
        (number ≤ 100000 → (v : Var) (more : List (List ℕ)) → IsSet v → lines_of bytes.now ≡ set_line v ∷ more → ⊥)
        (λ p. IsSet p.0 × (lines_of bytes.now ≡ set_line p.0 ∷ lines_of p.1.now) × (number ≤ 100000)
        × (length p.1.now < length bytes.now))) }
{
    if MAX_LINES < number {
        return Ok(None);
    }
    let Some((line, after)) = next_line(bytes) else {
        return Ok(None);
    };
    match parse_set(alloc, line)? {
        Some(var) => Ok(Some((var, after))),
        None => Ok(None),
    }
}

/// The command of the first of some lines, which has that number in a script of that kind, and the bytes behind its line; None
/// where no line is left.
pub fn next_command(
    alloc: Global,
    grammar: Grammar,
    bytes: &[u8],
    number: u32,
) -> Result<Option<(Command, &[u8])>, ScriptErr>
    ensures found { IfOk result (λ found. MatchOption found (bytes.now ≡ [])
        (λ p. IsNextCommand grammar bytes.now number p.0 p.1.now)) }
    ensures refused { IfErr result (IsBadNext grammar bytes.now number) }
{
    let Some((line, after)) = next_line(bytes) else {
        return Ok(None);
    };
    if number > MAX_LINES {
        return Err(ScriptErr::Line(number));
    }
    match command_of(alloc, grammar, line)? {
        Some(command) => Ok(Some((command, after))),
        None => Err(ScriptErr::Line(number)),
    }
}

/// The command that the line spells, where a script of that kind may have it.
fn command_of(alloc: Global, grammar: Grammar, line: &[u8]) -> Result<Option<Command>, NoMemory>
    ensures { IfOk result (λ found. MatchOption found (IsNone grammar line.now)
        (λ command. IsOf grammar command × (line.now ≡ spell command))) }
{
    match parse_command(alloc, line)? {
        Some(command) => Ok(taken(grammar, command)),
        None => Ok(None),
    }
}

fn taken(grammar: Grammar, command: Command) -> Option<Command>
    ensures { MatchOption result (takes grammar command ≡ false) (λ c. (c ≡ command) × (takes grammar command ≡ true)) }
{
    if grammar.takes(&command) {
        Some(command)
    } else {
        None
    }
}
