// What holds of the plain form whatever is read, so that exactly one of the answers of `read_rows` fits a file.
ghost use Rattle.std.specs.Prelude.{◌≡◌, ◌<◌, ◌^◌, ℕ, List, length};
ghost use Rattle.addr_locate.specs.PlainRows.{ArePlain, IsFirstBad, SpellOneList};

/// Lines in the form spell one list of rows and have no first bad line; other lines have no two.
pub fn plain_laws()
    ensures own { (lines : List (List ℕ)) → length lines < 2 ^ 32 → SpellOneList lines }
    ensures none { (lines : List (List ℕ)) (n : ℕ) → IsFirstBad lines n → ArePlain lines → ⊥ }
    ensures one { (lines : List (List ℕ)) (n m : ℕ) → IsFirstBad lines n → IsFirstBad lines m → n ≡ m }
{}
