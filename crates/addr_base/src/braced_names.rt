// Names in braces, replaced at run time. A text is cut at each `}` first, and its pieces at their `{`, so that many `{`
// before one `}` cost no more than a look at each.
ghost use Rattle.std.specs.Prelude.{◌≡◌, ◌==◌, ◌++◌, ◌∷◌, [], false, IfOk, OnOk, option_map, string_bytes};
ghost use Rattle.std.specs.List.{list_any};
ghost use Rattle.std.specs.Option.{option_copied};
ghost use Rattle.addr_base.specs.Braces.{braced, var_of};

use crate::memory::NoMemory;
use crate::text::Text;
use crate::var::Var;
use std::alloc::Global;

/// The text with each name in braces replaced by its value: of several variables of one name the first counts. A brace
/// that belongs to no name stays, and values are not read again. The list is searched at each `{` that a `}` follows.
pub fn braces(alloc: Global, text: &str, vars: &[Var]) -> Result<Text, NoMemory>
    ensures { IfOk result (λ made. made ≡ braced vars.now text.now) }
{
    let mut made = String::new(alloc);
    let mut rest = text;
    'pieces: while let Some((piece, behind)) = rest.split_once('}') {
        push_piece(&mut made, vars, piece)?;
        rest = behind;
    }
    made.push_str(rest)?;
    Ok(Text::from_string(made))
}

/// Appends what is put for a piece without a `}` and the `}` behind it.
fn push_piece(made: &mut String, vars: &[Var], piece: &str) -> Result<(), NoMemory>
    requires { list_any (λ b. b == 125) piece.now ≡ false }
    ensures { OnOk result (string_bytes made.new ≡ string_bytes made.old ++ braced vars.now (piece.now ++ 125 ∷ [])) }
{
    let mut rest = piece;
    'names: while let Some((before, name)) = rest.split_once('{') {
        made.push_str(before)?;
        if let Some(value) = value_of(vars, name) {
            made.push_str(value)?;
            return Ok(());
        }
        made.push('{')?;
        rest = name;
    }
    made.push_str(rest)?;
    made.push('}')?;
    Ok(())
}

fn value_of<'a>(vars: &'a [Var], name: &str) -> Option<&'a str>
    ensures { option_copied result ≡ option_map (λ v. v.value) (var_of vars.now name.now) }
{
    match vars.iter().find(|var| var.name.as_str() == name) {
        Some(var) => Some(var.value.as_str()),
        None => None,
    }
}
