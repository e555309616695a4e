// What holds of all bytes, so that reading has one right answer. Nothing runs.
ghost use Rattle.std.specs.Prelude.{◌≡◌, ℕ, List, Ok, Err};
ghost use Rattle.addr_reading.specs.Gives.{IsDecided};
ghost use Rattle.addr_keys.specs.Faults.{key_read};
ghost use Rattle.addr_keys.specs.Format.{IsBytes, KeyAt};
ghost use Rattle.addr_keys.specs.declared.error.KeyErr.{KeyErr as Fault};
ghost use Rattle.addr_keys.specs.declared.error.KeyErr.TheVariants as faults;
ghost use Rattle.addr_keys.specs.declared.key.Key.{Key as KeyOf};

/// At each place of some bytes one key stands or reading has a first fault, and never both.
pub fn key_laws()
    ensures either { (bytes : List ℕ) (at : ℕ) → IsDecided faults.NoMemory (key_read bytes at) }
    ensures read { (bytes : List ℕ) (at : ℕ) (key : KeyOf) (end : ℕ) → KeyAt bytes at key end
        → key_read bytes at ≡ Ok (key, end) }
    ensures stands { (bytes : List ℕ) (at : ℕ) (key : KeyOf) (end : ℕ) → IsBytes bytes
        → key_read bytes at ≡ Ok (key, end) → KeyAt bytes at key end }
    ensures apart { (bytes : List ℕ) (at : ℕ) (key : KeyOf) (end : ℕ) (e : Fault) → KeyAt bytes at key end
        → key_read bytes at ≡ Err e → ⊥ }
{}
