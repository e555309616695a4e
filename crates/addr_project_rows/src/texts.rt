// Tests of texts: versions, names of variables, and names of files below the folder.
ghost use Rattle.std.specs.Prelude.{◌≡◌, ◌&&◌, nat_le, length, IfOk, List, map};
ghost use Rattle.std.specs.List.{list_all, list_any, slice_split};
ghost use Rattle.addr_project_rows.specs.Fields.{is_version, is_name, is_bracket, is_file_name, is_part, is_taken, is_first_free, is_within, most_text, parts_of, are_free};

use addr_base::NoMemory;
use std::alloc::Global;

/// The most bytes of a text.
pub const MOST_TEXT: usize = 255;
/// The most bytes of a variable's name.
pub const MOST_NAME: usize = 64;

pub fn is_within(text: &str, low: usize, high: usize) -> bool
    ensures { result ≡ is_within low high text.now }
{
    low <= text.len() && text.len() <= high
}

/// A text of at least one byte that is not too long.
pub fn is_text(text: &str) -> bool
    ensures { result ≡ is_within 1 most_text text.now }
{
    is_within(text, 1, MOST_TEXT)
}

/// A text of bytes that are printed and no space.
pub fn is_version(text: &str) -> bool
    ensures { result ≡ is_version text.now }
{
    is_text(text) && is_printed(text.as_bytes())
}

fn is_printed(text: &[u8]) -> bool
    ensures { result ≡ list_all (λ b. nat_le 33 b && nat_le b 126) text.now }
{
    text.iter().all(|b| 33 <= *b && *b <= 126)
}

/// At least one byte, none of them a bracket, and not too long.
pub fn is_variable_name(text: &str) -> bool
    ensures { result ≡ is_name text.now }
{
    is_within(text, 1, MOST_NAME) && !has_bracket(text.as_bytes())
}

fn has_bracket(text: &[u8]) -> bool
    ensures { result ≡ list_any is_bracket text.now }
{
    text.iter().any(|b| is_bracket(*b))
}

fn is_bracket(b: u8) -> bool
    ensures { result ≡ is_bracket b }
{
    b == b'[' || b == b']' || b == b'{' || b == b'}'
}

/// A name below the folder that nothing else takes: a text with no part that is empty or dots, and a free first part.
pub fn is_file_name(alloc: Global, text: &str) -> Result<bool, NoMemory>
    ensures { IfOk result (λ good. good ≡ is_file_name text.now) }
{
    if !is_text(text) {
        return Ok(false);
    }
    let parts = parts_of(alloc, text)?;
    Ok(are_free(&parts))
}

#[tactic(auto, using(crate::proofs::Lists::all_parts))]
fn are_free(parts: &[&str]) -> bool
    ensures { result ≡ are_free (map (λ part. part.now) parts.now) }
{
    are_parts(parts) && is_first_free(parts)
}

fn parts_of<'a>(alloc: Global, name: &'a str) -> Result<Vec<&'a str>, NoMemory>
    ensures { IfOk result (λ parts. map (λ part. part.now) parts.items ≡ parts_of name.now) }
{
    let parts = name.split('/').collect(alloc)?;
    Ok(parts)
}

fn are_parts(parts: &[&str]) -> bool
    ensures { result ≡ list_all (λ part. is_part part.now) parts.now }
{
    parts.iter().all(|part| is_part(part))
}

fn is_part(part: &str) -> bool
    ensures { result ≡ is_part part.now }
{
    !(part.is_empty() || part == "." || part == "..")
}

fn is_first_free(parts: &[&str]) -> bool
    ensures { result ≡ is_first_free (map (λ part. part.now) parts.now) }
{
    match parts.first() {
        Some(part) => !is_taken(part),
        None => true,
    }
}

fn is_taken(part: &str) -> bool
    ensures { result ≡ is_taken part.now }
{
    part == "local"
        || part == "remote"
        || part == "cache"
        || part == "project.toml"
        || part.as_bytes().starts_with("state_".as_bytes())
}
