// What is kept of an expanded text while others are filled with it: the text as long as it is short enough to be answered,
// and else its length alone. So texts that double each other take no room, and no time but that of one sum.
ghost use Rattle.std.specs.Prelude.{◌≡◌, ◌<◌, ◌^◌, ◌≤◌, ◌+◌, ◌++◌, List, ℕ, IfOk, length};
ghost use Rattle.addr_expansion.specs.Expansion.{Outcome, joined, circular, given};
ghost use Rattle.addr_expansion.specs.Extents.{IsExtent};
ghost use Rattle.addr_expansion.specs.declared.extent.Extent.TheVariants as kept;

use addr_base::{NoMemory, Text};
use std::alloc::Global;

/// The most bytes of a text that is kept whole.
pub const MOST_BYTES: usize = 1_024;

/// What is kept of an expanded text.
#[derive(Drop)]
pub enum Extent {
    /// The text leads to an unknown name or an open bracket.
    Bad,
    /// The text leads to a variable that leads to itself.
    Circular,
    /// A text of at most 1,024 bytes.
    Whole(Text),
    /// The length of a longer one, or the greatest u64 where it is longer than that.
    Long(u64),
}

/// A text that stands for itself.
pub fn extent_of_text(alloc: Global, text: &str) -> Result<Extent, NoMemory>
    ensures { IfOk result (λ e. IsExtent e (given text.now)) }
{
    if text.len() <= MOST_BYTES {
        let text = Text::copy_of(alloc, text)?;
        Ok(Extent::Whole(text))
    } else {
        Ok(Extent::Long(text.len() as u64))
    }
}

/// One after the other.
pub fn join(before: Extent, next: &Extent) -> Result<Extent, NoMemory>
    ensures { IfOk result (λ e. (a b : Outcome) → IsExtent before a → IsExtent next.now b → IsExtent e (joined a b)) }
{
    match before {
        Extent::Bad => Ok(Extent::Bad),
        Extent::Circular => Ok(after_circular(next)),
        Extent::Whole(text) => after_whole(text, next),
        Extent::Long(length) => Ok(after_long(length, next)),
    }
}

fn after_circular(next: &Extent) -> Extent
    ensures { (b : Outcome) → IsExtent next.now b → IsExtent result (joined circular b) }
{
    match next {
        Extent::Bad => Extent::Bad,
        _ => Extent::Circular,
    }
}

fn after_whole(text: Text, next: &Extent) -> Result<Extent, NoMemory>
    ensures { IfOk result
        (λ e. length text ≤ 1024 → (b : Outcome) → IsExtent next.now b → IsExtent e (joined (given text) b)) }
{
    match next {
        Extent::Bad => Ok(Extent::Bad),
        Extent::Circular => Ok(Extent::Circular),
        Extent::Whole(more) => longer(text, more),
        Extent::Long(length) => Ok(Extent::Long(length.saturating_add(text.len() as u64))),
    }
}

fn longer(text: Text, more: &Text) -> Result<Extent, NoMemory>
    ensures { IfOk result (λ e. length text ≤ 1024 → length more.now ≤ 1024 → IsExtent e (given (text ++ more.now))) }
{
    let length = text.len().saturating_add(more.len());
    if length <= MOST_BYTES {
        let mut text = text.into_string();
        text.push_str(more.as_str())?;
        Ok(Extent::Whole(Text::from_string(text)))
    } else {
        Ok(Extent::Long(length as u64))
    }
}

fn after_long(length: u64, next: &Extent) -> Extent
    ensures { (a b : Outcome) → IsExtent (kept.Long length) a → IsExtent next.now b → IsExtent result (joined a b) }
{
    match next {
        Extent::Bad => Extent::Bad,
        Extent::Circular => Extent::Circular,
        Extent::Whole(more) => Extent::Long(length.saturating_add(more.len() as u64)),
        Extent::Long(more) => Extent::Long(length.saturating_add(*more)),
    }
}
