// What a lock's state tells: a list of entries that only grows, and a part that never changes.
ghost use Rattle.std.specs.Prelude.{◌≡◌, List, ℕ, Option, length};

/// A state that stands for a list of entries and for a fixed part, both plain data. Each entry has a number or none.
pub trait Told {
    type Entry;

    type Fixed;

    ghost entries: { Self → List Self.Entry };

    ghost fixed: { Self → Self.Fixed };

    ghost number: { Self.Entry → Option ℕ };

    /// The length of the list of entries.
    fn told(&self) -> u64
        ensures { result ≡ length (entries self.now) };
}
