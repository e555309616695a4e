//! The table that the threads of one lock share: three words and one slot.
//! Word 0 counts the tickets that were drawn, word 1 the turns that are over, both modulo 2^64; word 2 is the length of the
//! history. The slot has the state. A role or a view is what a thread knows: none is ever made.
use addr_base::Told;
use atomic_table::{Seat, Table, TableRule};
use std::alloc::Global;
use std::collections::LinkedList;
use std::marker::PhantomData;
use std::snapshot::Snapshot;

/// How far a pass is with a turn, with its ticket. No value of it is made.
pub enum Role {
    Idle,
    Drawn(u64),
    Turn(u64),
    Glanced(u64),
    Out(u64),
}

/// What a pass knows. No value of it is made, so its numbers have no bound but the rule's.
pub struct View<E, F> {
    pub role: Role,
    pub number: u64,
    /// The spare numbers are `spare` many, from `low` on.
    pub low: u64,
    pub spare: u64,
    /// How many spare numbers the next `split` takes.
    pub share: u64,
    pub seen: LinkedList<E>,
    /// Of the two lists that the passes of the last `meet` had seen, the shorter one.
    pub shorter: LinkedList<E>,
    pub mine: LinkedList<E>,
    /// The number and the final entries of each pass that was met.
    pub others: LinkedList<(u64, LinkedList<E>)>,
    /// The spans of spare numbers that were given up, each by its first number and its length.
    pub given_up: LinkedList<(u64, u64)>,
    /// The places in the history of the entries without a number that it, or a pass met into it, recorded.
    pub bare: LinkedList<u64>,
    pub fixed: Option<F>,
}

/// The rule of the table.
pub struct Law<S> {
    of: PhantomData<S>,
}

impl<S: Told> TableRule<Option<S>, View<S::Entry, S::Fixed>, Snapshot<S>> for Law<S> {
    ghost use Rattle.addr_turn.specs.OneHistory.{Ruled, first_view};

    ghost holds = { λ _. Ruled S.entries S.fixed S.number };

    ghost first = { λ key. first_view (S.fixed key.value) };
}

pub type Board<S: Told> = Table<Option<S>, View<S::Entry, S::Fixed>, Snapshot<S>, Law<S>, Global>;

pub type Place<S: Told> = Seat<Option<S>, View<S::Entry, S::Fixed>>;
