//! The rule of a cell, and what each kind of step on its table tells. A step's type only names what it tells.
ghost use Rattle.turn_cell.specs.Rule.{Kept, first_view};
ghost use Rattle.turn_cell.specs.Moves.{begins, takes_ticket, calls, counts, raises, passes, releases, tells, left_of, right_of, both_of, spent};

use crate::body::TurnBody;
use crate::view::{Opening, View};
use atomic_table::{Join, Play, Split, TableRule};
use std::marker::PhantomData;

/// The rule of a cell.
pub struct Law<B> {
    body: PhantomData<B>,
}

impl<B: TurnBody> TableRule<Option<B>, View<B::Entry, B>, Opening<B>> for Law<B> {
    ghost holds = { λ key s. Kept B.stands B.fixed key.body.value key.seats s };

    ghost first = { λ key. first_view key.body.value key.seats };
}

/// The first seat reads the opening list.
pub(crate) struct Begin<B> {
    body: PhantomData<B>,
}

impl<B: TurnBody> Play<Option<B>, View<B::Entry, B>> for Begin<B> {
    ghost then = { begins B.stands };
}

/// Takes a ticket.
pub(crate) struct TakeTicket;

impl<S, E, B> Play<S, View<E, B>> for TakeTicket {
    ghost then = { takes_ticket };
}

/// Loads the tickets that were served. Where that is the seat's own, it has the turn, and the slot.
pub(crate) struct Call<B> {
    body: PhantomData<B>,
}

impl<B: TurnBody> Play<Option<B>, View<B::Entry, B>> for Call<B> {
    ghost then = { calls B.stands B.fixed };
}

/// Loads the count, in a turn.
pub(crate) struct Count;

impl<S, E, B> Play<S, View<E, B>> for Count {
    ghost then = { counts };
}

/// Raises the count by one: the event of a turn that adds an entry.
pub(crate) struct Raise<B> {
    body: PhantomData<B>,
}

impl<B: TurnBody> Play<Option<B>, View<B::Entry, B>> for Raise<B> {
    ghost then = { raises B.stands };
}

/// Raises the count by nothing: the event of a turn that adds none.
pub(crate) struct Pass;

impl<S, E, B> Play<S, View<E, B>> for Pass {
    ghost then = { passes };
}

/// Raises the tickets that were served: the turn is over, and the slot is at home.
pub(crate) struct Release;

impl<S, E, B> Play<S, View<E, B>> for Release {
    ghost then = { releases };
}

/// Loads the count after a join: what the seat has seen now begins with what both had seen.
pub(crate) struct Tell;

impl<S, E, B> Play<S, View<E, B>> for Tell {
    ghost then = { tells };
}

/// A seat is split off.
pub(crate) struct Cut;

impl<E, B> Split<View<E, B>> for Cut {
    ghost left = { left_of };

    ghost right = { right_of };
}

/// A seat is joined into another.
pub(crate) struct Glue;

impl<E, B> Join<View<E, B>> for Glue {
    ghost both = { both_of };

    ghost spent = { spent };
}
