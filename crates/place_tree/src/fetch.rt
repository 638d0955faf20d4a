//! What a field asks of the tables.

use pg_base::{Cell, Text};
use rel_model::{By, Equal, Window};
use sqlite_items::Items;

/// Where the cells of a key come from.
#[derive(Drop)]
pub enum KeyCells {
    /// They are given.
    Given(Items<Cell>),
    /// They are those of the row above, at these columns.
    OfParent(Items<u32>),
}

/// Whether the rows are a list, of which a part can be asked for, or one row at most.
#[derive(Clone, Copy)]
pub enum Shape {
    List,
    Row,
}

/// What a field asks of the tables, whatever the row above it is.
#[derive(Drop)]
pub struct Fetch {
    pub table: u32,
    /// The columns of the key.
    pub by: Items<u32>,
    pub key: KeyCells,
    pub shape: Shape,
    pub condition: Items<Equal>,
    /// The names of the order, as its cursors have them.
    pub names: Items<Text>,
    pub order: Items<By>,
    pub window: Window,
}
