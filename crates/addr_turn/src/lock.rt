//! The three types of a turn lock: the lock, a pass, and a turn that a pass is inside of.
//! The numbers of a pass stand in its view, for the proof, and beside it, for the code: a seat has no bytes.
ghost use Rattle.std.specs.Prelude.{◌≡◌, ◌+◌, ◌≤◌, length};
ghost use Rattle.addr_turn.specs.Numbers.{number_bound};

use crate::board::{Board, Place};
use addr_base::Told;

/// A state for all threads, with one history. It is not `Drop`: end it by `close`.
pub struct Turns<S: Told> {
    pub(crate) board: Board<S>,
    ghost sized: { (board.shared.table_id.words ≡ 3) × (board.shared.table_id.slots ≡ 1) },
}

/// What one thread enters turns with. Dropping it leaves its numbers with nobody.
#[derive(Drop)]
pub struct Pass<S: Told> {
    pub(crate) place: Place<S>,
    pub(crate) number: u32,
    pub(crate) low: u64,
    pub(crate) spare: u32,
    pub(crate) count: u64,
    ghost numbered: { place.me.0.number ≡ number },
    ghost lowest: { place.me.0.low ≡ low },
    ghost spared: { place.me.0.spare ≡ spare },
    ghost counted: { length place.me.0.seen ≡ count },
    ghost bounded: { low + spare ≤ number_bound },
}

/// A turn, with the state out of the lock. It is not `Drop`: end it by `leave`.
pub struct Inside<'t, 'p, S: Told> {
    pub(crate) turns: &'t Turns<S>,
    pub(crate) pass: &'p mut Pass<S>,
    pub(crate) state: S,
    pub(crate) is_recorded: bool,
}

/// A turn in which an entry was recorded.
pub type Recorded<'t, 'p, S: Told> = Inside<'t, 'p, S>;
