// A line that sets a variable: its name and its value, both tokens.
ghost use Rattle.std.specs.Prelude.{◌≡◌, ℕ, List, MatchOption, IfOk, IfSome};
ghost use Rattle.addr_base.specs.Tokens.{token_of};
ghost use Rattle.addr_base.specs.declared.var.Var.{Var};
ghost use Rattle.addr_script.specs.Commands.{IsSet, ReadsSet};
ghost use Rattle.addr_script.specs.ScriptParts.{IsSetLine};

use crate::words::word_then;
use addr_base::{NoMemory, Var, untoken_bytes};
use addr_fields::after_word;
use std::alloc::Global;

/// The variable that the line sets, or None where it sets none.
pub fn parse_set(alloc: Global, line: &[u8]) -> Result<Option<Var>, NoMemory>
    ensures { IfOk result (λ found. ReadsSet line.now found) }
{
    match set_fields(line) {
        Some((name, value)) => match var_of(alloc, name, value)? {
            Some(var) => Ok(Some(var)),
            None => Ok(None),
        },
        None => Ok(None),
    }
}

fn set_fields(line: &[u8]) -> Option<(&[u8], &[u8])>
    ensures found { MatchOption result ((name value : List ℕ) → IsSetLine line.now name value → ⊥)
        (λ p. IsSetLine line.now p.0.now p.1.now) }
    ensures only { IfSome result (λ p. (name value : List ℕ) → IsSetLine line.now name value
        → (name ≡ p.0.now) × (value ≡ p.1.now)) }
{
    let (name, value) = word_then(after_word(line, b"set ")?)?;
    Some((name, value))
}

fn var_of(alloc: Global, name: &[u8], value: &[u8]) -> Result<Option<Var>, NoMemory>
    ensures { IfOk result (λ found. MatchOption found
        ((v : Var) → IsSet v → name.now ≡ token_of v.name → value.now ≡ token_of v.value → ⊥)
        (λ v. IsSet v × (name.now ≡ token_of v.name) × (value.now ≡ token_of v.value))) }
{
    match untoken_bytes(alloc, name)? {
        Some(name) => match untoken_bytes(alloc, value)? {
            Some(value) => Ok(Some(Var { name, value })),
            None => Ok(None),
        },
        None => Ok(None),
    }
}
