// The journal, an event a line.
ghost use Rattle.std.specs.Prelude.{◌≡◌, ◌++◌, ◌∷◌, [], OnOk, string_bytes};
ghost use Rattle.std.specs.List.{flat_map};
ghost use Rattle.addr_history.specs.declared.event.Event.TheVariants.{Load};
ghost use Rattle.addr_locate.specs.Rows.{text_at};
ghost use Rattle.addr_script.specs.Commands.{mode_word, one_or_all};
ghost use Rattle.addr_live.specs.LiveText.{event_text, events_text, journal_text, key_text, keys_text, kind_text};

use addr_base::{KeyNo, NoMemory, OpId, TypeNo, token};
use addr_core::{Ask, Event};
use addr_locate::{Kind, Locator, Merge};
use addr_script::CauseText;
use std::alloc::Global;
use std::fmt::Write;

/// Appends the journal: how many events there are, and each on a line, with the texts of keys and types.
pub fn push_journal(
    alloc: Global,
    text: &mut String,
    locator: &Locator,
    events: &[Event],
) -> Result<(), NoMemory>
    ensures { OnOk result (string_bytes text.new ≡ string_bytes text.old ++ journal_text locator.now events.now) }
{
    let count = events.len();
    writeln!(text, "journal {count}")?;
    push_events(alloc, text, locator, events)?;
    Ok(())
}

fn push_events(
    alloc: Global,
    text: &mut String,
    locator: &Locator,
    events: &[Event],
) -> Result<(), NoMemory>
    ensures { OnOk result (string_bytes text.new ≡ string_bytes text.old ++ events_text locator.now events.now) }
{
    for event in events {
        push_event(alloc, text, locator, event)?;
        text.push('\n')?;
    }
    Ok(())
}

fn push_event(
    alloc: Global,
    text: &mut String,
    locator: &Locator,
    event: &Event,
) -> Result<(), NoMemory>
    ensures { OnOk result (string_bytes text.new ≡ string_bytes text.old ++ event_text locator.now event.now) }
{
    match event {
        Event::Load { op, caller, ask } => push_load(alloc, text, locator, *op, *caller, ask)?,
        Event::Acquire { op, caller } => {
            let op = op.0;
            write!(text, "A {op} {caller}")?;
        }
        Event::Release { op, caller } => {
            let op = op.0;
            write!(text, "R {op} {caller}")?;
        }
        Event::Take { b, worker } => {
            let b = b.0;
            write!(text, "T {b} {worker}")?;
        }
        Event::Done { b, worker } => {
            let b = b.0;
            write!(text, "D {b} {worker}")?;
        }
        Event::Fail { b, worker, cause } => {
            let b = b.0;
            let cause = CauseText(*cause);
            write!(text, "F {b} {worker} {cause}")?;
        }
        Event::Close => text.push('C')?,
    }
    Ok(())
}

fn push_load(
    alloc: Global,
    text: &mut String,
    locator: &Locator,
    op: OpId,
    caller: u32,
    ask: &Ask,
) -> Result<(), NoMemory>
    ensures { OnOk result
        (string_bytes text.new ≡ string_bytes text.old ++ event_text locator.now (Load op caller ask.now)) }
{
    let op = op.0;
    let all = all_word(ask.all);
    let mode = merge_word(ask.mode);
    write!(text, "L {op} {caller} {all} {mode} ")?;
    push_kind(alloc, text, locator, ask.kind)?;
    text.push(' ')?;
    push_keys(alloc, text, locator, ask.keys.as_slice())?;
    Ok(())
}

fn all_word(all: bool) -> &'static str
    ensures { result.now ≡ one_or_all all }
{
    if all { "all" } else { "one" }
}

fn merge_word(mode: Merge) -> &'static str
    ensures { result.now ≡ mode_word mode }
{
    match mode {
        Merge::UseFirst => "first",
        Merge::Union => "union",
        Merge::Intersection => "inter",
    }
}

fn push_kind(
    alloc: Global,
    text: &mut String,
    locator: &Locator,
    kind: Kind,
) -> Result<(), NoMemory>
    ensures { OnOk result (string_bytes text.new ≡ string_bytes text.old ++ kind_text locator.now kind) }
{
    match kind {
        Kind::Any => text.push_str("%*")?,
        Kind::Unknown => text.push_str("%?")?,
        Kind::Known(number) => {
            let token = token(alloc, named_type(locator, number))?;
            text.push_str(token.as_str())?;
        }
    }
    Ok(())
}

fn push_keys(
    alloc: Global,
    text: &mut String,
    locator: &Locator,
    keys: &[Option<KeyNo>],
) -> Result<(), NoMemory>
    ensures { OnOk result (string_bytes text.new ≡ string_bytes text.old ++ keys_text locator.now keys.now) }
{
    let Some((first, others)) = keys.split_first() else {
        return Ok(());
    };
    push_key(alloc, text, locator, *first)?;
    push_more_keys(alloc, text, locator, others)?;
    Ok(())
}

/// Appends keys behind others.
fn push_more_keys(
    alloc: Global,
    text: &mut String,
    locator: &Locator,
    keys: &[Option<KeyNo>],
) -> Result<(), NoMemory>
    ensures { OnOk result (string_bytes text.new ≡ string_bytes text.old ++ flat_map
        (λ k. 44 ∷ key_text locator.now k) keys.now) }
{
    for key in keys {
        text.push(',')?;
        push_key(alloc, text, locator, *key)?;
    }
    Ok(())
}

fn push_key(
    alloc: Global,
    text: &mut String,
    locator: &Locator,
    key: Option<KeyNo>,
) -> Result<(), NoMemory>
    ensures { OnOk result (string_bytes text.new ≡ string_bytes text.old ++ key_text locator.now key) }
{
    match key {
        None => text.push_str("%?")?,
        Some(number) => {
            let token = token(alloc, named_text(locator, number))?;
            text.push_str(token.as_str())?;
        }
    }
    Ok(())
}

fn named_text(locator: &Locator, key: KeyNo) -> &str
    ensures { result.now ≡ text_at locator.now.keys key.0 }
{
    match locator.key_text(key) {
        Some(text) => text,
        None => "",
    }
}

fn named_type(locator: &Locator, kind: TypeNo) -> &str
    ensures { result.now ≡ text_at locator.now.kinds kind.0 }
{
    match locator.type_text(kind) {
        Some(text) => text,
        None => "",
    }
}
