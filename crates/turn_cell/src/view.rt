//! What a seat knows. No value of these types is made, but of `Opening`: they are what proofs read.
use std::collections::LinkedList;
use std::snapshot::Snapshot;

/// An entry of a history, beside the number of the seat that made it. Those of the opening list have the number 0.
pub struct Entry<E> {
    pub maker: u64,
    pub what: E,
}

/// What is kept of a seat that was joined into another: its number, its own entries, and what it had seen.
pub struct JoinedSeat<E> {
    pub number: u64,
    pub own: LinkedList<E>,
    pub seen: LinkedList<Entry<E>>,
}

/// Where a seat is in its turn.
pub enum Stage {
    /// Between two turns.
    Idle,
    /// It has this ticket.
    Waiting(u64),
    /// It has the turn, with this ticket.
    Holding(u64),
    /// It is the first seat of a new cell, and hasn't read the opening list.
    Fresh,
}

/// What a seat knows.
pub struct View<E, B> {
    pub number: u64,
    /// How many seats there are, where this is the newest of them, else 0.
    pub made: u64,
    /// The seats that it stands for: itself, those that were joined into it, and in the newest those that are still to be made.
    pub parts: u64,
    pub stage: Stage,
    /// The body with which the cell was made.
    pub opened: Option<B>,
    pub opening: LinkedList<E>,
    /// The history that it has seen.
    pub seen: LinkedList<Entry<E>>,
    /// The history while it has the turn. After a join, what it had seen before.
    pub held: LinkedList<Entry<E>>,
    /// Its own entries.
    pub own: LinkedList<E>,
    /// The seats that were joined into it.
    pub joined: LinkedList<JoinedSeat<E>>,
    /// The lengths of the history after its turns.
    pub turns: LinkedList<u64>,
}

/// The body with which a cell is made, as proofs see it, and how many seats it has.
#[derive(Drop)]
pub struct Opening<B> {
    pub body: Snapshot<B>,
    pub seats: u64,
}
