// The spelling of a group's name or a label inside a bundle's name. It has no `_`, which parts the names there, and
// different texts have different spellings.
ghost use Rattle.std.specs.Prelude.{◌≡◌, ◌<◌, ◌++◌, [], ◌∷◌, List, ℕ, IfOk, OnOk, string_bytes};
ghost use Rattle.std.specs.List.{Contains};
ghost use Rattle.addr_base.specs.Escapes.{is_name_byte, hex_digit, escaped_byte, escaped};

use crate::memory::NoMemory;
use crate::text::Text;
use std::alloc::Global;

/// Letters, digits and `-` of ASCII stay, and every other byte becomes `~` and two lower-case hex digits.
pub fn esc(alloc: Global, text: &str) -> Result<Text, NoMemory>
    ensures escaped { IfOk result (λ name. name ≡ escaped text.now) }
    ensures no_underscore { IfOk result (λ name. Contains name 95 → ⊥) }
{
    let mut name = String::new(alloc);
    for b in text.as_bytes().iter() {
        push_escaped(&mut name, *b)?;
    }
    Ok(Text::from_string(name))
}

/// Two texts that are spelled alike are the same text. This is a law about the definition, and does nothing when it runs.
pub fn spellings_differ()
    ensures { (a b : List ℕ) → escaped a ≡ escaped b → a ≡ b }
{}

#[tactic(auto, unfolding(crate::specs::Escapes::escaped_byte))]
fn push_escaped(name: &mut String, b: u8) -> Result<(), NoMemory>
    ensures { OnOk result (string_bytes name.new ≡ string_bytes name.old ++ escaped_byte b) }
{
    if is_name_byte(b) {
        name.push(char::from(b))?;
    } else {
        name.push('~')?;
        name.push(hex_digit(b / 16))?;
        name.push(hex_digit(b % 16))?;
    }
    Ok(())
}

fn is_name_byte(b: u8) -> bool
    ensures { result ≡ is_name_byte b }
{
    (b'A' <= b && b <= b'Z') || (b'a' <= b && b <= b'z') || (b'0' <= b && b <= b'9') || b == b'-'
}

fn hex_digit(n: u8) -> char
    requires { n < 16 }
    ensures value { result ≡ hex_digit n }
    ensures ascii { result < 128 }
{
    char::from(if n < 10 { b'0' + n } else { b'a' - 10 + n })
}
