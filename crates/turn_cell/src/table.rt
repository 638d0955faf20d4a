//! The steps on a cell's table: a turn is taking a ticket, waiting for it, and then raising the count or passing.
ghost use Rattle.std.specs.Prelude.{◌≡◌, ℕ, ◌<◌, ◌+◌, [], ◌∷◌, ◌++◌, length, List, None, Some, IfOk, IfErr};
ghost use mathlib.Core.List.{IsPrefix};
ghost use Rattle.turn_cell.specs.declared.view.Stage.TheVariants.{Idle, Holding};
ghost use Rattle.turn_cell.specs.Histories.{plain, made_by};
ghost use Rattle.turn_cell.specs.Seats.{StandsForOne};
ghost use Rattle.turn_cell.specs.Rule.{fixed_in, first_view};
ghost use Rattle.turn_cell.specs.Moves.{raised, passed, rested, begun_with, Known};

use crate::body::TurnBody;
use crate::moves::{Begin, Call, Count, Law, Pass, Raise, Release, TakeTicket, Tell};
use crate::view::{Opening, View};
use atomic_table::{Seat, Shared, Table};
use std::alloc::{AllocError, Global};
use std::snapshot::Snapshot;
use std::sync::Wait;

// The words of the table, and its one slot, where the body lies.
const COUNT: usize = 0;

const TICKETS: usize = 1;

const SERVING: usize = 2;

const BODY: usize = 0;

// So many loads a waiting seat makes at once, before it gives way to other threads between two loads.
const SPINS: u32 = 64;

/// Takes a ticket, waits until it is served, and takes the body out of the slot.
pub(crate) fn acquire<B: TurnBody, R: Wait>(
    rt: &R,
    shared: &Shared<Option<B>, View<B::Entry, B>, Opening<B>, Law<B>>,
    seat: &mut Seat<Option<B>, View<B::Entry, B>>,
) -> B
    requires sized { (shared.now.table_id.words ≡ 3) × (shared.now.table_id.slots ≡ 1) }
    requires cell { seat.old.table_id ≡ shared.now.table_id }
    requires idle { (seat.old.me.0.stage ≡ Idle) × (seat.old.me.1 ≡ [])
        × (0 < seat.old.me.0.parts) }
    ensures seat { (seat.new.table_id ≡ seat.old.table_id) × (seat.new.id ≡ seat.old.id) }
    ensures turn { (t : ℕ) × (seat.new.me ≡
        (record seat.old.me.0 { stage = Holding t; held = seat.new.me.0.held }, (0, None) ∷ [])) }
    ensures body { B.stands result (plain seat.new.me.0.held)
        × (fixed_in B.fixed seat.old.me.0 ≡ Some (B.fixed result))
        × IsPrefix seat.old.me.0.seen seat.new.me.0.held }
    ensures own { made_by seat.old.me.0.number seat.new.me.0.held ≡ seat.old.me.0.own }
{
    let ticket = shared.fetch_add::<TakeTicket>(seat, TICKETS, 1);
    let mut spins = 0;
    for _ in rt.forever() {
        let found = shared.load::<Call<B>>(seat, SERVING);
        if found == ticket {
            let Some(body) = shared.exchange(seat, BODY, None) else {
                unreachable!()
            };
            return body;
        }
        spins = pause(spins);
    }
    unreachable!()
}

// Between two loads: the number of loads that were made at once.
fn pause(spins: u32) -> u32 {
    if spins < SPINS {
        std::hint::spin_loop();
        return spins + 1;
    }
    std::thread::yield_now();
    spins
}

/// Puts the body back, raises the history's count by the entry, and lets the next seat have its turn. The new count.
/// Where the count can't be raised it doesn't return.
pub(crate) fn raise<B: TurnBody, R: Wait>(
    rt: &R,
    shared: &Shared<Option<B>, View<B::Entry, B>, Opening<B>, Law<B>>,
    seat: &mut Seat<Option<B>, View<B::Entry, B>>,
    body: B,
) -> u64
    requires sized { (shared.now.table_id.words ≡ 3) × (shared.now.table_id.slots ≡ 1) }
    requires cell { seat.old.table_id ≡ shared.now.table_id }
    requires turn { ((t : ℕ) × (seat.old.me.0.stage ≡ Holding t))
        × (seat.old.me.1 ≡ (0, None) ∷ []) }
    requires body { ((e : B.Entry) × B.stands body (plain seat.old.me.0.held ++ e ∷ []))
        × (fixed_in B.fixed seat.old.me.0 ≡ Some (B.fixed body)) }
    ensures seat { (seat.new.table_id ≡ seat.old.table_id) × (seat.new.id ≡ seat.old.id) }
    ensures event { (e : B.Entry) × B.stands body (plain seat.old.me.0.held ++ e ∷ [])
        × (seat.new.me ≡ (rested (raised seat.old.me.0 e), [])) }
    ensures count { result ≡ length seat.new.me.0.seen }
{
    let before = shared.exchange(seat, BODY, Some(body));
    let None = before else { unreachable!() };
    let count = shared.load::<Count>(seat, COUNT);
    if count == u64::MAX {
        for _ in rt.forever() {
            std::thread::yield_now();
        }
        unreachable!()
    }
    shared.fetch_add::<Raise<B>>(seat, COUNT, 1);
    shared.fetch_add::<Release>(seat, SERVING, 1);
    count + 1
}

/// Puts the body back, leaves the history as it is, and lets the next seat have its turn. The count.
pub(crate) fn pass<B: TurnBody>(
    shared: &Shared<Option<B>, View<B::Entry, B>, Opening<B>, Law<B>>,
    seat: &mut Seat<Option<B>, View<B::Entry, B>>,
    body: B,
) -> u64
    requires sized { (shared.now.table_id.words ≡ 3) × (shared.now.table_id.slots ≡ 1) }
    requires cell { seat.old.table_id ≡ shared.now.table_id }
    requires turn { ((t : ℕ) × (seat.old.me.0.stage ≡ Holding t))
        × (seat.old.me.1 ≡ (0, None) ∷ []) }
    requires body { B.stands body (plain seat.old.me.0.held)
        × (fixed_in B.fixed seat.old.me.0 ≡ Some (B.fixed body)) }
    ensures seat { (seat.new.table_id ≡ seat.old.table_id) × (seat.new.id ≡ seat.old.id) }
    ensures event { seat.new.me ≡ (rested (passed seat.old.me.0), []) }
    ensures count { result ≡ length seat.new.me.0.seen }
{
    let before = shared.exchange(seat, BODY, Some(body));
    let None = before else { unreachable!() };
    let count = shared.fetch_add::<Pass>(seat, COUNT, 0);
    shared.fetch_add::<Release>(seat, SERVING, 1);
    count
}

/// After a join, what the seat has seen now and before, and what each joined seat had seen, begin one history.
pub(crate) fn tell<B: TurnBody>(
    shared: &Shared<Option<B>, View<B::Entry, B>, Opening<B>, Law<B>>,
    seat: &mut Seat<Option<B>, View<B::Entry, B>>,
)
    requires sized { (shared.now.table_id.words ≡ 3) × (shared.now.table_id.slots ≡ 1) }
    requires cell { seat.old.table_id ≡ shared.now.table_id }
    requires parts { 0 < seat.old.me.0.parts }
    ensures seat { (seat.new.table_id ≡ seat.old.table_id) × (seat.new.id ≡ seat.old.id) }
    ensures told { (seat.new.me ≡ seat.old.me) × Known seat.old.me.0 }
{
    let _count = shared.load::<Tell>(seat, COUNT);
}

/// A table over the body, and the seat that has all parts.
pub(crate) fn open<B: TurnBody + Drop>(
    alloc: Global,
    body: B,
    length: u64,
    seats: u32,
) -> Result<
    (
        Table<Option<B>, View<B::Entry, B>, Opening<B>, Law<B>, Global>,
        Seat<Option<B>, View<B::Entry, B>>,
    ),
    AllocError,
>
    requires seats { 0 < seats }
    requires opening { StandsForOne B.stands body length }
    ensures table { IfOk result (λ r.
        (r.0.shared.key.body.value ≡ body) × (r.0.shared.key.seats ≡ seats)
        × (r.0.shared.table_id.words ≡ 3) × (r.0.shared.table_id.slots ≡ 1)
        × (r.1.table_id ≡ r.0.shared.table_id)) }
    ensures seat { (l : List B.Entry) → B.stands body l → IfOk result (λ r.
        r.1.me ≡ (begun_with (first_view body seats) l, [])) }
{
    let opening = Opening {
        body: Snapshot::of(&body),
        seats: u64::from(seats),
    };
    let mut slots = Vec::with_capacity(alloc, 1)?;
    slots.push_reserved(Some(body));
    let Ok((table, mut seat)) = Table::new(alloc, &[length, 0, 0], slots, &opening) else {
        return Err(AllocError);
    };
    let _count = table.shared.load::<Begin<B>>(&mut seat, COUNT);
    Ok((table, seat))
}
