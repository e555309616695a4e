// What becomes of an entry in an update.
use addr_update::Why;

/// What becomes of an entry.
#[derive(Clone, Copy, Debug, PartialEq, Eq)]
pub enum Fate {
    /// Its group isn't fixed.
    Free,
    /// It stays in the bundle of the state with this number.
    Kept(u32),
    /// It moves, and this is why.
    Moves(Why),
}
