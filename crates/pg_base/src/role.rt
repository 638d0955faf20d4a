//! What a type of the schema is for.

/// A type of the schema, by what it is for. The first number is the place of an enum or of a table in the catalog, a
/// second that of a key in its table. No two types of a schema are for the same.
#[derive(Clone, Copy, PartialEq, Eq, Hash)]
pub enum Role {
    BigInt,
    Cursor,
    PageInfo,
    Enum(u32),
    /// The rows of a table.
    Row(u32),
    Connection(u32),
    Edge(u32),
    /// What the rows of a table can be ordered by.
    Order(u32),
    /// What the rows of a table can be filtered by.
    Condition(u32),
    /// The cells of a new row.
    Input(u32),
    /// The cells of a row that change.
    Patch(u32),
    Query,
    Mutation,
    CreateInput(u32),
    CreatePayload(u32),
    UpdateInput(u32, u32),
    UpdatePayload(u32),
    DeleteInput(u32, u32),
    DeletePayload(u32),
}
