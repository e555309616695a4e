// What holds of scripts whatever is read, so that exactly one of the answers that reading may have fits the bytes.
ghost use Rattle.std.specs.Prelude.{◌≡◌, ℕ, List};
ghost use Rattle.addr_script.specs.Scripts.{IsFirstBad, IsScript, Script};
ghost use Rattle.addr_script.specs.declared.command.Grammar.{Grammar};

/// Lines are at most one script, and have no first bad line where they are one; other lines have no two.
pub fn script_laws()
    ensures own { (g : Grammar) (lines : List (List ℕ)) (s t : Script) → IsScript g lines s → IsScript g lines t → s ≡ t }
    ensures none { (g : Grammar) (lines : List (List ℕ)) (n : ℕ) (s : Script) → IsFirstBad g lines n → IsScript g lines s → ⊥ }
    ensures one { (g : Grammar) (lines : List (List ℕ)) (n m : ℕ) → IsFirstBad g lines n → IsFirstBad g lines m → n ≡ m }
{}
