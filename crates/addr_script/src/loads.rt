// The line of a load: its words, and what they ask for.
ghost use Rattle.std.specs.Prelude.{◌≡◌, Bool, ℕ, List, Option, MatchOption, IfOk, IfSome};
ghost use Rattle.addr_locate.specs.declared.rows.Merge.{Merge};
ghost use Rattle.addr_script.specs.Commands.{kind_field, mode_word, one_or_all, IsKind, Spells};
ghost use Rattle.addr_script.specs.ScriptParts.{IsLoadLine, SaysAsk};
ghost use Rattle.addr_script.specs.declared.command.Command.TheVariants.{Load};

use crate::command::Command;
use crate::keys::key_list;
use crate::words::word_then;
use addr_base::{Items, NoMemory, Text, untoken_bytes};
use addr_fields::{after_word, is_same, number_then};
use addr_locate::Merge;
use std::alloc::Global;

/// The words of a load's line.
#[derive(Drop)]
struct LoadLine<'a> {
    caller: u32,
    all: &'a [u8],
    mode: &'a [u8],
    kind: &'a [u8],
    keys: &'a [u8],
}

/// What a load asks for, in texts.
#[derive(Drop)]
struct TextAsk {
    all: bool,
    mode: Merge,
    kind: Option<Text>,
    keys: Items<Text>,
}

/// The load that the line spells.
pub fn load(alloc: Global, line: &[u8]) -> Result<Option<Command>, NoMemory>
    ensures { IfOk result (λ found. MatchOption found
        ((caller : ℕ) (all : Bool) (mode : Merge) (kind : Option (List ℕ)) (keys : List (List ℕ))
        → Spells line.now (Load caller all mode kind keys) → ⊥)
        (λ command. Spells line.now command)) }
{
    match load_line(line) {
        Some(words) => match text_ask(alloc, &words)? {
            Some(ask) => Ok(Some(Command::Load {
                caller: words.caller,
                all: ask.all,
                mode: ask.mode,
                kind: ask.kind,
                keys: ask.keys,
            })),
            None => Ok(None),
        },
        None => Ok(None),
    }
}

fn load_line(line: &[u8]) -> Option<LoadLine<'_>>
    ensures found { MatchOption result ((caller : ℕ) (all mode kind keys : List ℕ)
        → IsLoadLine line.now caller all mode kind keys → ⊥)
        (λ l. IsLoadLine line.now l.caller l.all.now l.mode.now l.kind.now l.keys.now) }
    ensures only { IfSome result (λ l. (caller : ℕ) (all mode kind keys : List ℕ)
        → IsLoadLine line.now caller all mode kind keys → (caller ≡ l.caller) × (all ≡ l.all.now)
        × (mode ≡ l.mode.now) × (kind ≡ l.kind.now) × (keys ≡ l.keys.now)) }
{
    let (caller, rest) = number_then(after_word(line, b"load ")?)?;
    let (all, rest) = word_then(rest)?;
    let (mode, rest) = word_then(rest)?;
    let (kind, keys) = word_then(rest)?;
    Some(LoadLine {
        caller,
        all,
        mode,
        kind,
        keys,
    })
}

fn text_ask(alloc: Global, words: &LoadLine) -> Result<Option<TextAsk>, NoMemory>
    ensures { IfOk result (λ found. MatchOption found
        ((all : Bool) (mode : Merge) (kind : Option (List ℕ)) (keys : List (List ℕ))
        → SaysAsk words.now.all.now words.now.mode.now words.now.kind.now words.now.keys.now all mode kind keys → ⊥)
        (λ a. SaysAsk words.now.all.now words.now.mode.now words.now.kind.now words.now.keys.now a.all a.mode a.kind a.keys)) }
{
    let Some(all) = all_of(words.all) else {
        return Ok(None);
    };
    let Some(mode) = mode_of(words.mode) else {
        return Ok(None);
    };
    let Some(kind) = kind_of(alloc, words.kind)? else {
        return Ok(None);
    };
    match key_list(alloc, words.keys)? {
        Some(keys) => Ok(Some(TextAsk {
            all,
            mode,
            kind,
            keys,
        })),
        None => Ok(None),
    }
}

fn all_of(word: &[u8]) -> Option<bool>
    ensures { MatchOption result ((all : Bool) → word.now ≡ one_or_all all → ⊥) (λ all. word.now ≡ one_or_all all) }
{
    if is_same(word, b"one") {
        return Some(false);
    }
    if is_same(word, b"all") {
        return Some(true);
    }
    None
}

fn mode_of(word: &[u8]) -> Option<Merge>
    ensures { MatchOption result ((mode : Merge) → word.now ≡ mode_word mode → ⊥) (λ mode. word.now ≡ mode_word mode) }
{
    if is_same(word, b"first") {
        return Some(Merge::UseFirst);
    }
    if is_same(word, b"union") {
        return Some(Merge::Union);
    }
    if is_same(word, b"inter") {
        return Some(Merge::Intersection);
    }
    None
}

/// The type that a word asks for: None within for any.
fn kind_of(alloc: Global, word: &[u8]) -> Result<Option<Option<Text>>, NoMemory>
    ensures { IfOk result (λ found. MatchOption found
        ((kind : Option (List ℕ)) → IsKind kind → word.now ≡ kind_field kind → ⊥)
        (λ kind. IsKind kind × (word.now ≡ kind_field kind))) }
{
    if is_same(word, b"%*") {
        return Ok(Some(None));
    }
    match untoken_bytes(alloc, word)? {
        Some(text) => Ok(Some(Some(text))),
        None => Ok(None),
    }
}
