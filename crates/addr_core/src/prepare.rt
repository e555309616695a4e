// All of a load that may fail, and takes memory: which refusal comes first, and what is wanted; and whether one reference more has
// room.
ghost use Rattle.std.specs.Prelude.{◌≡◌, ◌+◌, ◌<◌, ◌^◌, not, nat_lt, length, take, if◌then◌else◌, IfOk, IfSome};
ghost use Rattle.std.specs.List.{list_any, position};
ghost use Rattle.std.specs.Prelude.{true};
ghost use Rattle.addr_locate.specs.Rows.{are_bundles};
ghost use Rattle.addr_locate.specs.Merge.{is_match, merged};
ghost use Rattle.addr_history.specs.Events.{needs_of};
ghost use Rattle.addr_history.specs.Counts.{is_unreleased};
ghost use Rattle.addr_history.specs.Answers.{first_missing, acquire_reply};
ghost use Rattle.addr_core.specs.within.Prepare.{Prepares};

use crate::now::Now;
use crate::wanted::Wanted;
use addr_base::{BundleNo, Items, KeyNo, NoMemory, OpId, RowNo};
use addr_history::{AcquireErr, Ask, LoadErr};
use addr_locate::{Kind, Locator};
use std::alloc::Global;

fn missing_place(locator: &Locator, keys: &[Option<KeyNo>], kind: Kind) -> Option<usize>
    ensures place { result ≡ position (λ key. not (list_any (is_match kind key) locator.now.assets)) keys.now }
    ensures within { IfSome result (λ place. place < length keys.now) }
{
    keys.iter().position(|key| !locator.has_row(*key, kind))
}

/// The place of the first key that no row of the asked kind has.
#[tactic(auto, unfolding(addr_history::specs::Answers::first_missing))]
fn first_missing(locator: &Locator, ask: &Ask) -> Option<u32>
    requires { length ask.now.keys < 2 ^ 32 }
    ensures { result ≡ first_missing locator.now ask.now }
{
    match missing_place(locator, ask.keys.as_slice(), ask.kind) {
        Some(place) => Some(place as u32),
        None => None,
    }
}

fn chosen(rows: &[RowNo], all: bool) -> &[RowNo]
    ensures { result.now ≡ (if all then rows.now else take 1 rows.now) }
{
    if all || rows.is_empty() {
        rows
    } else {
        &rows[..1]
    }
}

/// The bundles that an ask needs, where it finds a row.
fn needs_of(
    alloc: Global,
    now: &Now,
    ask: &Ask,
    found: &[RowNo],
) -> Result<Items<BundleNo>, NoMemory>
    requires { found.now ≡ merged now.now.locator.now.assets ask.now.keys ask.now.mode ask.now.kind }
    ensures needs { IfOk result (λ needs. needs ≡ needs_of now.now.locator.now ask.now) }
    ensures few { IfOk result (λ needs. length needs < 2 ^ 32) }
    ensures within { IfOk result (λ needs. are_bundles (length now.now.locator.now.bundles) needs ≡ true) }
{
    let _bundles = now.locator.bundles();
    let needs = now.locator.deps(alloc, chosen(found, ask.all))?;
    Ok(needs)
}

/// The first refusal, or what the load wants.
pub fn prepare(alloc: Global, now: &Now, ask: &Ask) -> Result<Wanted, LoadErr>
    requires { length ask.now.keys < 2 ^ 32 }
    ensures { Prepares now.now.locator.now now.now.limit now.now.events.now ask.now result }
{
    if now.closed {
        return Err(LoadErr::Closed);
    }
    let found = now
        .locator
        .locate(alloc, ask.keys.as_slice(), ask.mode, ask.kind)?;
    if found.as_slice().is_empty() {
        return Err(LoadErr::NoLocation {
            first: first_missing(now.locator, ask),
        });
    }
    let needs = needs_of(alloc, now, ask, found.as_slice())?;
    let used = used(now);
    let reserved = now.reserved();
    let needed = now.needed(needs.as_slice());
    if passes(now.limit, used, reserved, needed) {
        return Err(LoadErr::JournalFull {
            used,
            reserved,
            needed,
        });
    }
    let rows = rows_of(alloc, ask, found.as_slice())?;
    Ok(Wanted { rows, needs })
}

/// The rows that an ask wants of those that it finds, in a list no longer than they are.
fn rows_of(alloc: Global, ask: &Ask, found: &[RowNo]) -> Result<Items<RowNo>, NoMemory>
    ensures { IfOk result (λ rows. rows ≡ (if ask.now.all then found.now else take 1 found.now)) }
{
    let rows = Items::copy_of(alloc, chosen(found, ask.all))?;
    Ok(rows)
}

/// Whether one reference more of an unreleased operation has room, with the Release that it owes.
pub fn may_add(now: &Now, op: OpId) -> Result<(), AcquireErr>
    requires { is_unreleased now.now.events.now op ≡ true }
    ensures { result ≡ acquire_reply now.now.locator.now now.now.limit now.now.events.now op }
{
    let used = used(now);
    let reserved = now.reserved();
    if passes(now.limit, used, reserved, 2) {
        return Err(AcquireErr::JournalFull {
            used,
            reserved,
            needed: 2,
        });
    }
    Ok(())
}

fn used(now: &Now) -> u32
    ensures { result ≡ length now.now.events.now }
{
    now.events.len() as u32
}

/// Whether the three numbers sum to more than the limit.
fn passes(limit: u32, used: u32, reserved: u32, needed: u64) -> bool
    requires { needed < 2 ^ 34 }
    ensures { result ≡ nat_lt limit (used + reserved + needed) }
{
    u64::from(used) + u64::from(reserved) + needed > u64::from(limit)
}
