// How a command's end is printed: its text, or the one line of its refusal, by one put.
ghost use Rattle.std.specs.Prelude.{◌≡◌, ◌++◌, ◌∷◌, [], ◌⊎◌, Err, IfOk, codes, string_bytes};
ghost use Rattle.addr_base.specs.Faults.{one_more};
ghost use Rattle.addr_cli.specs.Outcome.{Prints};
ghost use Rattle.addr_cli.specs.Refusals.{ended_status, ended_text, refusal_text};
ghost use Rattle.addr_cli.specs.declared.refusal.Refusal.TheVariants.{Usage};

use crate::refusal::Refusal;
use crate::status::Status;
use addr_base::{NoMemory, Sink, Text};
use std::alloc::Global;
use std::fmt::Write;

/// What is printed where a text or a refusal's line finds no memory.
const MEMORY_LINE: &[u8] = b"error 1 memory\n";

/// What is printed where the words are no command's. It takes no memory.
const USAGE_LINE: &[u8] = b"error 2 usage\n";

/// Prints the text of a command or the line of its refusal; where that line finds no memory, the one that says so.
pub fn report<K: Sink>(alloc: Global, ended: Result<Text, Refusal>, out: &mut K) -> Status
    ensures prints { Prints (ended_status ended) (ended_text ended) result.0 (K.now out.old) (K.now out.new)
        ⊎ Prints 1 (codes "error 1 memory" ++ 10 ∷ []) result.0 (K.now out.old) (K.now out.new) }
    ensures usage { ended ≡ Err Usage → (result.0 ≡ 2) ⊎ (result.0 ≡ 13) }
    ensures once { (K.now out.new).puts ≡ one_more (K.now out.old).puts }
{
    match ended {
        Ok(text) => print(out, text.as_bytes(), Status::DONE),
        Err(Refusal::Usage) => print(out, USAGE_LINE, Refusal::Usage.status()),
        Err(refusal) => match refusal_line(alloc, &refusal) {
            Ok(line) => print(out, line.as_bytes(), refusal.status()),
            Err(NoMemory) => print(out, MEMORY_LINE, Refusal::NoMemory.status()),
        },
    }
}

/// Prints the line of words that are no command's.
pub fn print_usage<K: Sink>(out: &mut K) -> Status
    ensures prints { Prints 2 (codes "error 2 usage" ++ 10 ∷ []) result.0 (K.now out.old) (K.now out.new) }
    ensures once { (K.now out.new).puts ≡ one_more (K.now out.old).puts }
{
    print(out, USAGE_LINE, Status(2))
}

/// Puts a whole text, whose status it answers unless the sink fails.
fn print<K: Sink>(out: &mut K, text: &[u8], status: Status) -> Status
    ensures prints { Prints status.0 text.now result.0 (K.now out.old) (K.now out.new) }
    ensures once { (K.now out.new).puts ≡ one_more (K.now out.old).puts }
{
    match out.put(text) {
        Ok(()) => status,
        Err(_) => Status::SINK_FAULT,
    }
}

fn refusal_line(alloc: Global, refusal: &Refusal) -> Result<String, NoMemory>
    ensures { IfOk result (λ line. string_bytes line ≡ refusal_text refusal.now ++ 10 ∷ []) }
{
    let mut line = String::new(alloc);
    writeln!(line, "{refusal}")?;
    Ok(line)
}
