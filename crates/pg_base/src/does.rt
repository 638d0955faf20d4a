//! What fields do.

/// What a field does. The first number is the place of a table in the catalog; a second is that of a column, link or
/// key in the table.
#[derive(Clone, Copy, PartialEq, Eq)]
pub enum Does {
    /// The cell of a row.
    Column(u32, u32),
    /// The row that a row refers to by the link.
    Forward(u32, u32),
    /// The rows, or the one row, that refer to a row by the link. The table is the one that has the link.
    Backward(u32, u32),
    /// The rows of a table.
    All(u32),
    /// The row with the given cells of the key.
    ByKey(u32, u32),
    Create(u32),
    Update(u32, u32),
    Delete(u32, u32),
    /// The rows of a connection.
    Nodes,
    Edges,
    PageInfo,
    /// How many rows a connection has, its page aside.
    Total,
    /// The row of an edge.
    Node,
    /// The cursor of an edge.
    Cursor,
    HasNext,
    HasPrevious,
    /// The first cursor of a page.
    Start,
    /// The last cursor of a page.
    End,
    /// The client's own mark of a mutation.
    ClientId,
    /// The row that a mutation made, changed or deleted.
    Payload,
}
