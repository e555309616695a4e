// How the end of a command is printed: its text by one put.
ghost use Rattle.std.specs.Prelude.{◌≡◌, ◌++◌, ◌∷◌, [], codes};
ghost use Rattle.addr_base.specs.Faults.{one_more};
ghost use Rattle.addr_show.specs.Printing.{PrintsText};

use addr_base::Sink;

/// What is printed where a line finds no memory.
const MEMORY_LINE: &[u8] = b"error 1 memory\n";

/// What is printed of a depot's fault. It takes no memory.
const DEPOT_LINE: &[u8] = b"error 3 depot\n";

/// What is printed where the words are no command's. It takes no memory.
const USAGE_LINE: &[u8] = b"error 2 usage\n";

/// Puts a whole text, whose status it answers unless the sink fails.
pub fn print<K: Sink>(out: &mut K, text: &[u8], status: u8) -> u8
    ensures prints { PrintsText status text.now result (K.now out.old) (K.now out.new) }
    ensures once { (K.now out.new).puts ≡ one_more (K.now out.old).puts }
{
    match out.put(text) {
        Ok(()) => status,
        Err(_) => 13,
    }
}

/// Prints the line of words that are no command's.
pub fn print_usage<K: Sink>(out: &mut K) -> u8
    ensures prints { PrintsText 2 (codes "error 2 usage" ++ 10 ∷ []) result (K.now out.old) (K.now out.new) }
    ensures once { (K.now out.new).puts ≡ one_more (K.now out.old).puts }
{
    print(out, USAGE_LINE, 2)
}

/// Prints the line that says that memory is wanted.
pub fn print_want<K: Sink>(out: &mut K) -> u8
    ensures prints { PrintsText 1 (codes "error 1 memory" ++ 10 ∷ []) result (K.now out.old) (K.now out.new) }
    ensures once { (K.now out.new).puts ≡ one_more (K.now out.old).puts }
{
    print(out, MEMORY_LINE, 1)
}

/// Prints the line of a depot's fault.
pub fn print_depot<K: Sink>(out: &mut K) -> u8
    ensures prints { PrintsText 3 (codes "error 3 depot" ++ 10 ∷ []) result (K.now out.old) (K.now out.new) }
    ensures once { (K.now out.new).puts ≡ one_more (K.now out.old).puts }
{
    print(out, DEPOT_LINE, 3)
}
