//! The cell and its seats.
ghost use Rattle.std.specs.Prelude.{◌≡◌, ℕ, ◌<◌, ◌+◌, [], length, List, Some, IfOk, vec_len};
ghost use Rattle.std.specs.List.{All};
ghost use Rattle.turn_cell.specs.Seats.{StandsForOne, IsSeat, IsFresh, AreNumbered, HaveOwnNumbers, Turned, Joined, Closing};

use crate::body::{Job, TurnBody};
use crate::moves::{Cut, Glue, Law};
use crate::table::{acquire, open, pass, raise, tell};
use crate::view::{Opening, View};
use atomic_table::Table;
use std::alloc::{AllocError, Global};
use std::marker::Model;
use std::mem;
use std::sync::Wait;

/// A body with a history of what was done to it. Jobs are done one after the other, each in a turn of a seat.
/// Clauses see it as its `id`, what is `fixed`, and its number of `seats`.
#[derive(Drop)]
pub struct TurnCell<B: TurnBody> {
    table: Table<Option<B>, View<B::Entry, B>, Opening<B>, Law<B>, Global>,
    ghost sized: { (table.shared.table_id.words ≡ 3) × (table.shared.table_id.slots ≡ 1) },
}

impl<B: TurnBody> Model for TurnCell<B> {
    ghost use Rattle.turn_cell.specs.Seats.{CellFacts};

    ghost Value = { CellFacts B.Fixed };

    ghost view = { λ c. record {
      id = c.table.shared.table_id;
      fixed = B.fixed c.table.shared.key.body.value;
      seats = c.table.shared.key.seats;
    } };
}

/// One caller's place at a cell, of eight bytes. All seats of a cell are made with it.
/// Clauses see it as its `cell`, its `number`, what is `fixed`, the `opening` list, the history that it has
/// `seen`, its `own` entries, the lengths after its `turns`, and the seats that were `joined` into it.
#[derive(Drop)]
pub struct Seat<B: TurnBody> {
    front: u64,
    seat: atomic_table::Seat<Option<B>, View<B::Entry, B>>,
}

impl<B: TurnBody> Model for Seat<B> {
    ghost use Rattle.turn_cell.specs.Seats.{SeatFacts};
    ghost use Rattle.turn_cell.specs.Rule.{facts_of, IsAtRest};

    ghost Value = { SeatFacts B.Entry B.Fixed };

    ghost view = { λ s. facts_of B.fixed s.seat.table_id s.seat.me.0 };

    ghost invariant = { λ s. IsAtRest B.fixed s.front s.seat.table_id s.seat.me };
}

impl<B: TurnBody> Seat<B> {
    /// The length of the history that it has seen.
    pub fn front(&self) -> u64
        ensures { result ≡ length self.now.seen }
    {
        self.front
    }

    // What holds of each seat, in sight of the laws.
    pub(crate) fn facts(&self)
        ensures { IsSeat self.now }
    {
        let _front = self.front;
    }
}

impl<B: TurnBody> TurnCell<B> {
    /// One turn of the seat: one event of the one history. It waits for its turn, and calls of other seats wait
    /// while it lasts. Where the entry would raise the history's length past 2^64 - 1, it doesn't return.
    pub fn turn<J: Job<B>, R: Wait>(&self, rt: &R, seat: &mut Seat<B>, job: J) -> J::Out
        requires cell { seat.old.cell ≡ self.now.id }
        requires needs { (f : B.Fixed) × (seat.old.fixed ≡ Some f) × J.needs job f }
        ensures seat { (seat.new.cell ≡ seat.old.cell) × (seat.new.fixed ≡ seat.old.fixed)
            × (seat.new.joined ≡ seat.old.joined) }
        ensures event { (f : B.Fixed) × (seat.old.fixed ≡ Some f)
            × Turned (λ before after. J.does job f before result after) (J.adds result)
            seat.old seat.new }
    {
        let shared = &self.table.shared;
        let mut body = acquire(rt, shared, &mut seat.seat);
        let out = job.run(&mut body);
        if J::added(&out) {
            seat.front = raise(rt, shared, &mut seat.seat, body);
            return out;
        }
        seat.front = pass(shared, &mut seat.seat, body);
        out
    }

    /// The seat tells from now on what the other did too, and has seen what the other had seen.
    pub fn join(&self, seat: &mut Seat<B>, other: Seat<B>)
        requires cell { (seat.old.cell ≡ self.now.id) × (other.cell ≡ self.now.id) }
        ensures seat { (seat.new.cell ≡ seat.old.cell) × (seat.new.fixed ≡ seat.old.fixed)
            × (length seat.new.joined ≡ length seat.old.joined + length other.joined + 1) }
        ensures joined { Joined seat.old other seat.new }
    {
        let Seat { front, seat: other } = other;
        let shared = &self.table.shared;
        shared.join_seat::<Glue>(&mut seat.seat, other);
        tell(shared, &mut seat.seat);
        if seat.front < front {
            seat.front = front;
        }
    }

    /// The body, once every other seat was joined into this one.
    pub fn close(self, seat: Seat<B>) -> B
        requires cell { seat.cell ≡ self.id }
        requires all { length seat.joined + 1 ≡ self.seats }
        ensures fixed { B.fixed result ≡ self.fixed }
        ensures history { Closing B.stands seat result }
    {
        let TurnCell { table } = self;
        let Seat { front: _, seat } = seat;
        let mut closed = table.close_with(seat);
        let slot = closed.take(0);
        closed.free();
        let Some(body) = slot else { unreachable!() };
        body
    }
}

impl<B: TurnBody + Drop> TurnCell<B> {
    /// A cell, and all the seats that it will ever have, numbered from 1 on. The list for which the body stands,
    /// of `length` entries, is the opening history, which each seat has seen.
    pub fn make(
        alloc: Global,
        body: B,
        length: u64,
        seats: u32,
    ) -> Result<(TurnCell<B>, Vec<Seat<B>>), AllocError>
        requires seats { 0 < seats }
        requires opening { StandsForOne B.stands body length }
        ensures cell { IfOk result (λ r. (r.0.fixed ≡ B.fixed body) × (r.0.seats ≡ seats)) }
        ensures count { IfOk result (λ r. vec_len r.1 ≡ seats) }
        ensures seats { IfOk result (λ r.
            All (λ s. (s.cell ≡ r.0.id) × (s.fixed ≡ Some (B.fixed body)) × (s.joined ≡ [])
            × IsFresh s) r.1.items) }
        ensures opening { (l : List B.Entry) → B.stands body l → IfOk result (λ r.
            All (λ s. s.opening ≡ l) r.1.items) }
        ensures numbers { IfOk result (λ r. AreNumbered r.1.items × HaveOwnNumbers r.1.items) }
    {
        let mut all = Vec::with_capacity(alloc, seats as usize)?;
        let (table, mut seat) = open(alloc, body, length, seats)?;
        for _ in 1..seats {
            let next = table.shared.split_seat::<Cut>(&mut seat);
            let made = mem::replace(&mut seat, next);
            all.push_reserved(Seat {
                front: length,
                seat: made,
            });
        }
        all.push_reserved(Seat {
            front: length,
            seat,
        });
        Ok((TurnCell { table }, all))
    }
}
