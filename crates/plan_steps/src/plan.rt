//! Plans.

use pg_base::{Cell, Value};
use plan_constraints::Part;
use rel_model::{By, Row};
use sqlite_items::Items;

/// A value in a statement: one that is known when it is planned, or what stands at a path into the variables.
#[derive(Drop)]
pub enum Slot {
    Const(Cell),
    Var(Items<Part>),
}

/// A cell that a row must have at a column.
#[derive(Drop)]
pub struct SlotEqual {
    pub column: u32,
    pub slot: Slot,
}

/// What part of an ordered list is asked for. The slots of `before` and `after` hold the texts of cursors.
#[derive(Drop)]
pub struct SlotWindow {
    pub first: Option<Slot>,
    pub last: Option<Slot>,
    pub offset: Option<Slot>,
    pub before: Option<Slot>,
    pub after: Option<Slot>,
}

/// A statement as it is planned. Its key is in the slots, or is what the row of the step `parent` has at the columns.
#[cycle(fetch_step)]
#[derive(Drop)]
pub struct FetchStep {
    pub table: u32,
    /// The columns that the key is compared with.
    pub by: Items<u32>,
    /// The step whose row has the key.
    pub parent: Option<u32>,
    /// The columns of that row.
    pub parent_columns: Items<u32>,
    pub condition: Items<SlotEqual>,
    /// The key, where there is no parent.
    pub key: Items<Slot>,
    pub order: Items<By>,
    pub window: SlotWindow,
    /// Whether the rows are asked for, and not their numbers alone.
    pub rows: bool,
    /// The fetches that are read from its rows.
    pub children: Items<FetchStep>,
}

/// A step of a plan. It names earlier steps by their places.
#[derive(Drop)]
pub enum Step {
    Const(Value),
    /// What stands at the path into the variables.
    Var(Items<Part>),
    /// The row that a mutation gave.
    Given,
    Fetch(FetchStep),
    /// The row of a fetch at which the layer stands.
    Item(u32),
    /// The cell of a row at a column.
    Column(u32, u32),
    /// How many rows the list of a fetch has.
    Count(u32),
    /// A part of the page of a fetch: 0 hasNextPage, 1 hasPreviousPage, 2 startCursor, 3 endCursor.
    Page(u32, u8),
    /// The cursor of an Item.
    CursorOf(u32),
}

/// Steps that have a value once, or once for each row of the fetch over which the layer stands.
#[derive(Drop)]
pub struct Layer {
    pub over: Option<u32>,
    pub steps: Items<u32>,
}

/// The step whose value a place shows, and the layer from which it sees it.
#[derive(Clone, Copy, Drop)]
pub struct OutPlace {
    pub place: u32,
    pub layer: u32,
    pub step: u32,
}

/// How a tree of places is answered.
#[derive(Drop)]
pub struct Plan {
    pub steps: Items<Step>,
    pub layers: Items<Layer>,
    pub out: Items<OutPlace>,
}

/// What of a tree is executed: a query, or the payload of the mutation field at a place, whose commit gave the row.
#[derive(Drop)]
pub enum Root {
    Query,
    Field(u32, Row),
}
