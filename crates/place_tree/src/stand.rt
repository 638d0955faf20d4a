//! Where places of a tree stand while it is executed.

use pg_base::Text;
use rel_model::{By, Row};
use sqlite_items::Items;

/// What a connection found: how many rows its ordered list has, the part of it that is asked for, and what its cursors
/// are made of.
#[derive(Drop)]
pub struct Listed {
    pub table: u32,
    /// The names of the order.
    pub names: Items<Text>,
    pub order: Items<By>,
    pub total: u64,
    /// From which place of the list on.
    pub from: u64,
    /// Up to which place.
    pub to: u64,
    /// The rows there.
    pub rows: Items<Row>,
}

/// An edge of a connection: its row, and what its cursor is made of.
#[derive(Drop)]
pub struct Edge {
    pub table: u32,
    pub names: Items<Text>,
    pub order: Items<By>,
    pub row: Row,
}

/// What a place stands at.
#[derive(Drop)]
pub enum Stand {
    /// The root of a query.
    Root,
    AtRow(Row),
    /// A connection, or its page.
    AtList(Listed),
    AtEdge(Edge),
    /// What the commit of a mutation field gave.
    AtPayload(Row),
}
