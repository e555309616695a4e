//! What each step on the table tells the pass that makes it, and how a view is split in two and two are met.
ghost use Rattle.addr_turn.specs.Steps.{drawn, looked, glanced_in_turn, took, recorded, put, served, glanced, planned, compared, kept_view, given_view, met_view};
ghost use Rattle.addr_turn.specs.OneHistory.{spent_view};

use crate::board::View;
use addr_base::Told;
use atomic_table::{Join, Play, Split};
use std::marker::PhantomData;

/// A ticket is drawn.
pub(crate) struct Draw;

impl<S: Told> Play<Option<S>, View<S::Entry, S::Fixed>> for Draw {
    ghost then = { drawn S.entries S.fixed S.number };
}

/// The word of the turns is read: at the pass's ticket it has the turn.
pub(crate) struct Look;

impl<S: Told> Play<Option<S>, View<S::Entry, S::Fixed>> for Look {
    ghost then = { looked S.entries S.fixed S.number };
}

/// The glance at the length of the history that begins a turn.
pub(crate) struct GlanceInTurn;

impl<S: Told> Play<Option<S>, View<S::Entry, S::Fixed>> for GlanceInTurn {
    ghost then = { glanced_in_turn S.entries S.fixed S.number };
}

/// The state comes out of the slot's home, with the seat that has the turn.
pub(crate) struct TakeOut;

impl<S: Told> Play<Option<S>, View<S::Entry, S::Fixed>> for TakeOut {
    ghost then = { took S.entries S.fixed S.number };
}

/// The history grows by the entry of the state in hand.
pub(crate) struct Record;

impl<S: Told> Play<Option<S>, View<S::Entry, S::Fixed>> for Record {
    ghost then = { recorded S.entries S.fixed S.number };
}

/// The state goes back.
pub(crate) struct PutHome;

impl<S: Told> Play<Option<S>, View<S::Entry, S::Fixed>> for PutHome {
    ghost then = { put S.entries S.fixed S.number };
}

/// The turn is over.
pub(crate) struct Serve;

impl<S: Told> Play<Option<S>, View<S::Entry, S::Fixed>> for Serve {
    ghost then = { served S.entries S.fixed S.number };
}

/// The length of the history is read, outside any turn.
pub(crate) struct Glance;

impl<S: Told> Play<Option<S>, View<S::Entry, S::Fixed>> for Glance {
    ghost then = { glanced S.entries S.fixed S.number };
}

/// The pass knows how many spare numbers it is to give.
pub(crate) struct Plan;

impl<S: Told> Play<Option<S>, View<S::Entry, S::Fixed>> for Plan {
    ghost then = { planned S.entries S.fixed S.number };
}

/// What two passes know of one history, after they were met.
pub(crate) struct Compare;

impl<S: Told> Play<Option<S>, View<S::Entry, S::Fixed>> for Compare {
    ghost then = { compared S.entries S.fixed S.number };
}

/// Spare numbers go to another pass.
pub(crate) struct SplitPass;

impl<E, F> Split<View<E, F>> for SplitPass {
    ghost left = { kept_view };

    ghost right = { given_view };
}

/// One pass is met into another.
pub(crate) struct MeetPasses;

impl<E, F> Join<View<E, F>> for MeetPasses {
    ghost both = { met_view };

    ghost spent = { spent_view };
}
