//! What the statements of a script add to a catalog.

use pg_base::{Kind, Pos, Tags, Text};
use sqlite_items::Items;

/// One thing that a statement adds to the catalog, with the place at which its fault is reported.
#[derive(Debug, Drop)]
pub enum Part {
    Enum(EnumPart),
    Table(TablePart),
    Key(KeyPart),
    Link(LinkPart),
    Comment(CommentPart),
}

/// An enum type, with its labels in order.
#[derive(Debug, Drop)]
pub struct EnumPart {
    pub pos: Pos,
    pub name: Text,
    pub cases: Items<Text>,
}

/// A table with its columns. Its keys and links are parts of their own.
#[derive(Debug, Drop)]
pub struct TablePart {
    pub pos: Pos,
    pub name: Text,
    pub columns: Items<ColumnPart>,
}

/// A column, whose kind names an enum by its place among those so far.
#[derive(Debug, Drop)]
pub struct ColumnPart {
    pub name: Text,
    pub kind: Kind,
    pub not_null: bool,
    /// The literal after the last DEFAULT.
    pub default: Option<Literal>,
    pub identity: bool,
}

/// A literal after DEFAULT.
#[derive(Debug, Drop)]
pub enum Literal {
    Null,
    /// A number that fits 64 bits.
    Int(i64),
    /// A number that doesn't, which no column holds.
    LongInt,
    Bool(bool),
    Text(Text),
}

/// A primary or unique key of a table that stands.
#[derive(Debug, Drop)]
pub struct KeyPart {
    pub pos: Pos,
    pub table: Text,
    /// The name after CONSTRAINT; without one the key has its default name.
    pub name: Option<Text>,
    pub columns: Items<Text>,
    pub primary: bool,
}

/// A reference from a table that stands to a key of one that stands.
#[derive(Debug, Drop)]
pub struct LinkPart {
    pub pos: Pos,
    pub table: Text,
    /// The name after CONSTRAINT; without one the link has its default name.
    pub name: Option<Text>,
    pub columns: Items<Text>,
    pub target: Text,
    /// The columns after the target; without them those of its primary key are meant.
    pub target_columns: Option<Items<Text>>,
}

/// The tags of a comment; those of no comment where its text is NULL.
#[derive(Debug, Drop)]
pub struct CommentPart {
    pub pos: Pos,
    pub on: Commented,
    pub tags: Tags,
}

/// What a comment speaks of, by names.
#[derive(Debug, Drop)]
pub enum Commented {
    Enum(Text),
    Table(Text),
    /// A column of a table.
    Column(Text, Text),
    /// A key or link of a table.
    Constraint(Text, Text),
}
