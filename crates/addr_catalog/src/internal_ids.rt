// Internal ids as they are written: some begin with the number of a prefix, so that a long path stands once in the document.
ghost use Rattle.std.specs.Prelude.{◌≡◌, ◌≤◌, ◌^◌, ◌++◌, ℕ, [], Some, IfOk, MatchOption};
ghost use Rattle.std.specs.Char.{is_ascii_digit};
ghost use Rattle.std.specs.List.{before_last, after_last, list_all};
ghost use Rattle.std.specs.Option.{option_copied};
ghost use Rattle.addr_catalog.specs.InternalIds.{is_mark, is_run, number_of, prefix_of, whole_id};

use addr_base::{NoMemory, Text};
use std::alloc::Global;

/// What stands before the last `#`, and what behind it.
fn around_mark(id: &str) -> Option<(&str, &str)>
    ensures { MatchOption result (before_last is_mark id.now ≡ [])
        (λ p. (p.0.now ≡ before_last is_mark id.now) × (p.1.now ≡ after_last is_mark id.now)) }
{
    id.rsplit_once('#')
}

fn are_digits(text: &[u8]) -> bool
    ensures { result ≡ list_all is_ascii_digit text.now }
{
    text.iter().all(|b| b.is_ascii_digit())
}

fn is_run(text: &str) -> bool
    ensures { result ≡ is_run text.now }
{
    !text.is_empty() && are_digits(text.as_bytes())
}

/// The number of a run of digits, where it fits a place in a list.
fn number_of(text: &str) -> Option<usize>
    ensures { MatchOption result ((n : ℕ) → number_of text.now ≡ Some n → 2 ^ 64 ≤ n)
        (λ n. number_of text.now ≡ Some n) }
{
    if !is_run(text) {
        return None;
    }
    match text.parse::<usize>() {
        Ok(number) => Some(number),
        Err(_) => None,
    }
}

fn prefix_of<'a>(prefixes: &'a [Text], text: &str) -> Option<&'a str>
    ensures { option_copied result ≡ prefix_of prefixes.now text.now }
{
    let number = number_of(text)?;
    match prefixes.get(number) {
        Some(prefix) => Some(prefix.as_str()),
        None => None,
    }
}

fn joined(alloc: Global, prefix: &str, rest: &str) -> Result<Text, NoMemory>
    ensures { IfOk result (λ text. text ≡ prefix.now ++ rest.now) }
{
    let mut text = String::from_str(alloc, prefix)?;
    text.push_str(rest)?;
    Ok(Text::from_string(text))
}

/// The whole id that a written one stands for.
#[tactic(auto, using(crate::proofs::MarkLemmas::unmarked), unfolding(crate::specs::InternalIds::whole_id))]
pub fn whole_id(alloc: Global, prefixes: &[Text], id: &str) -> Result<Text, NoMemory>
    ensures { IfOk result (λ whole. whole ≡ whole_id prefixes.now id.now) }
{
    let Some((number, rest)) = around_mark(id) else {
        return Text::copy_of(alloc, id);
    };
    match prefix_of(prefixes, number) {
        Some(prefix) => joined(alloc, prefix, rest),
        None => Text::copy_of(alloc, id),
    }
}
