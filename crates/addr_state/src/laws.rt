// What holds of all bytes, so that reading has one right answer, and of bundles' names, for builders. Nothing runs.
ghost use Rattle.std.specs.Prelude.{◌≡◌, ◌++◌, ℕ, List, Ok, Err};
ghost use Rattle.std.specs.Str.{IsUtf8};
ghost use Rattle.hex.specs.Hex.{IsBytes};
ghost use Rattle.addr_base.specs.Escapes.{escaped};
ghost use Rattle.addr_base.specs.Ids.{hex_of};
ghost use Rattle.addr_reading.specs.Gives.{IsDecided};
ghost use Rattle.addr_state.specs.Files.{HasNameBytes};
ghost use Rattle.addr_state.specs.Reading.{state_read};
ghost use Rattle.addr_state.specs.Sound.{IsSound};
ghost use Rattle.addr_state.specs.declared.error.StateErr.{StateErr as Fault};
ghost use Rattle.addr_state.specs.declared.error.StateErr.TheVariants as faults;
ghost use Rattle.addr_state.specs.declared.model.State.{State as Whole};

/// Bytes are exactly one state or have exactly one first fault, never both, and a state that is read keeps the rules.
pub fn state_laws()
    ensures either { (bytes : List ℕ) → IsDecided faults.NoMemory (state_read bytes) }
    ensures apart { (bytes : List ℕ) (s : Whole) (e : Fault) → state_read bytes ≡ Ok s → state_read bytes ≡ Err e → ⊥ }
    ensures one { (bytes : List ℕ) (s t : Whole) → state_read bytes ≡ Ok s → state_read bytes ≡ Ok t → s ≡ t }
    ensures first { (bytes : List ℕ) (e f : Fault) → state_read bytes ≡ Err e → state_read bytes ≡ Err f → e ≡ f }
    ensures sound { (bytes : List ℕ) (s : Whole) → state_read bytes ≡ Ok s → IsSound s }
{}

/// Spellings and digits have only bytes that a bundle's name may have, and so has what is made of two such parts.
pub fn bundle_name_laws()
    ensures spelled { (text : List ℕ) → IsUtf8 text → HasNameBytes (escaped text) }
    ensures digits { (bytes : List ℕ) → IsBytes bytes → HasNameBytes (hex_of bytes) }
    ensures joined { (a b : List ℕ) → HasNameBytes a → HasNameBytes b → HasNameBytes (a ++ b) }
{}

/// The same of a text at hand, which is UTF-8 by its type.
pub fn spelled_bytes(text: &str)
    ensures { HasNameBytes (escaped text.now) }
{}
