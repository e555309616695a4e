// The commands of a script, read from their lines. Each command has a reader of its own, which finds it where it is there,
// and only there; so which one is tried first makes no difference.
ghost use Rattle.std.specs.Prelude.{◌≡◌, ◌<◌, ◌^◌, ℕ, Option, Some, None, MatchOption, IfOk, IfSome, IsNone};
ghost use Rattle.addr_base.specs.declared.cause.Cause.{Cause};
ghost use Rattle.addr_base.specs.declared.ids.BundleNo.{BundleNo};
ghost use Rattle.addr_base.specs.declared.ids.OpId.{OpId};
ghost use Rattle.addr_script.specs.Causes.{cause_text, IsGivenCause};
ghost use Rattle.addr_script.specs.Commands.{ReadsCommand, Spells};
ghost use Rattle.addr_script.specs.declared.command.Command.TheVariants.{Acquire, Release, Status, Wait, References, Read, ReadAll, Count, Close, Take, Done, Fail};

use crate::command::Command;
use crate::loads::load;
use addr_base::{BundleNo, Cause, NoMemory, OpId};
use addr_fields::{
    after_word, is_same, long_after, number_after, number_then, short_after, two_numbers_after,
};
use std::alloc::Global;

/// The command that the line spells, or None where it spells none. Only the keys of a load take memory.
pub fn parse_command(alloc: Global, line: &[u8]) -> Result<Option<Command>, NoMemory>
    ensures { IfOk result (λ found. ReadsCommand line.now found) }
{
    match question(line) {
        Some(command) => Ok(Some(command)),
        None => match change(line) {
            Some(command) => Ok(Some(command)),
            None => load(alloc, line),
        },
    }
}

/// `status`, `wait`, `refs`, `read`, `readall`, `count` and `close`.
fn question(line: &[u8]) -> Option<Command>
    ensures found { IfSome result (λ command. Spells line.now command) }
    ensures close { IsNone result → Spells line.now Close → ⊥ }
    ensures status { IsNone result → (op : OpId) → Spells line.now (Status op) → ⊥ }
    ensures wait { IsNone result → (op : OpId) → Spells line.now (Wait op) → ⊥ }
    ensures references { IsNone result → (op : OpId) → Spells line.now (References op) → ⊥ }
    ensures read { IsNone result → (op : OpId) (i : ℕ) → Spells line.now (Read op i) → ⊥ }
    ensures read_all { IsNone result → (op : OpId) (i : ℕ) → Spells line.now (ReadAll op i) → ⊥ }
    ensures count { IsNone result → (b : BundleNo) → Spells line.now (Count b) → ⊥ }
{
    if is_same(line, b"close") {
        return Some(Command::Close);
    }
    if let Some(op) = number_after(line, b"status ") {
        return Some(Command::Status(OpId(op)));
    }
    if let Some(op) = number_after(line, b"wait ") {
        return Some(Command::Wait(OpId(op)));
    }
    if let Some(op) = number_after(line, b"refs ") {
        return Some(Command::References(OpId(op)));
    }
    if let Some((op, i)) = two_numbers_after(line, b"read ") {
        return Some(Command::Read { op: OpId(op), i });
    }
    if let Some((op, i)) = two_numbers_after(line, b"readall ") {
        return Some(Command::ReadAll { op: OpId(op), i });
    }
    match number_after(line, b"count ") {
        Some(b) => Some(Command::Count(BundleNo(b))),
        None => None,
    }
}

/// `acquire`, `release`, `take`, `done` and `fail`.
fn change(line: &[u8]) -> Option<Command>
    ensures found { IfSome result (λ command. Spells line.now command) }
    ensures acquire { IsNone result → (caller : ℕ) (op : OpId) → Spells line.now (Acquire caller op) → ⊥ }
    ensures release { IsNone result → (caller : ℕ) (op : OpId) → Spells line.now (Release caller op) → ⊥ }
    ensures take { IsNone result → (worker : ℕ) → Spells line.now (Take worker) → ⊥ }
    ensures done { IsNone result → (worker : ℕ) (b : BundleNo) → Spells line.now (Done worker b) → ⊥ }
    ensures fail { IsNone result → (worker : ℕ) (b : BundleNo) (cause : Cause)
        → Spells line.now (Fail worker b cause) → ⊥ }
{
    if let Some((caller, op)) = two_numbers_after(line, b"acquire ") {
        return Some(Command::Acquire {
            caller,
            op: OpId(op),
        });
    }
    if let Some((caller, op)) = two_numbers_after(line, b"release ") {
        return Some(Command::Release {
            caller,
            op: OpId(op),
        });
    }
    if let Some(worker) = number_after(line, b"take ") {
        return Some(Command::Take { worker });
    }
    if let Some((worker, b)) = two_numbers_after(line, b"done ") {
        return Some(Command::Done {
            worker,
            b: BundleNo(b),
        });
    }
    fail(line)
}

fn fail(line: &[u8]) -> Option<Command>
    ensures { MatchOption result ((worker : ℕ) (b : BundleNo) (cause : Cause)
        → Spells line.now (Fail worker b cause) → ⊥) (λ command. Spells line.now command) }
{
    let rest = after_word(line, b"fail ")?;
    let (worker, rest) = number_then(rest)?;
    let (b, rest) = number_then(rest)?;
    let cause = given_cause(rest)?;
    Some(Command::Fail {
        worker,
        b: BundleNo(b),
        cause,
    })
}

/// The cause that a field of a `fail` line spells.
fn given_cause(field: &[u8]) -> Option<Cause>
    ensures { MatchOption result ((cause : Cause) → IsGivenCause cause → field.now ≡ cause_text cause → ⊥)
        (λ cause. IsGivenCause cause × (field.now ≡ cause_text cause)) }
{
    if is_same(field, b"missing") {
        return Some(Cause::Missing);
    }
    if let Some(n) = long_after(field, b"fault:") {
        return Some(Cause::Fault(n));
    }
    if let Some(n) = long_after(field, b"toolong:") {
        return Some(Cause::TooLong(n));
    }
    match short_after(field, b"refused:") {
        Some(status) => Some(Cause::Refused(status)),
        None => None,
    }
}
