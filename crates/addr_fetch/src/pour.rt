// Where bytes are poured while they arrive. What was taken is a relation to the bytes and not a function of the taker: a
// digest that runs along doesn't give its message back.
ghost use Rattle.std.specs.Prelude.{◌≡◌, ◌++◌, List, ℕ, OnOk, OnErr};

use addr_base::NoMemory;

/// What takes a file in pieces.
pub trait Pour {
    /// What it was made with.
    type Fixed;

    /// It may have taken these bytes, and no others.
    ghost took: { Self → List ℕ → Type 0 };

    /// What it was made with, which no call changes.
    ghost fixed: { Self → Self.Fixed };

    /// Takes one piece more. A refused piece leaves what was taken as it was.
    fn pour(&mut self, piece: &[u8]) -> Result<(), NoMemory>
        ensures took { OnOk result ((fed : List ℕ) → took self.old fed → took self.new (fed ++ piece.now)) }
        ensures refused { OnErr result ((fed : List ℕ) → took self.old fed → took self.new fed) }
        ensures fixed { fixed self.new ≡ fixed self.old };
}
