//! The statements of a script as they are written.

use crate::script::Literal;
use pg_base::{Kind, Pos, Text};
use sqlite_items::Items;

/// A name, and where it begins.
#[derive(Drop)]
pub struct Name {
    pub text: Text,
    pub pos: Pos,
}

/// A statement. The rows of an INSERT stand beside it.
#[derive(Drop)]
pub enum Statement {
    /// BEGIN, COMMIT, START, SET, CREATE INDEX, CREATE EXTENSION, or no token: nothing is kept.
    Nothing,
    Enum(EnumStatement),
    Table(TableStatement),
    Rule(RuleStatement),
    Comment(CommentStatement),
    Insert(InsertStatement),
}

/// CREATE TYPE.
#[derive(Drop)]
pub struct EnumStatement {
    pub name: Name,
    pub labels: Items<Text>,
}

/// CREATE TABLE.
#[derive(Drop)]
pub struct TableStatement {
    pub name: Name,
    /// IF NOT EXISTS stands there.
    pub unless_there: bool,
    pub elements: Items<Element>,
}

/// ALTER TABLE with the rule that it adds.
#[derive(Drop)]
pub struct RuleStatement {
    pub table: Name,
    pub rule: Rule,
}

/// COMMENT ON, with the text, or NULL.
#[derive(Drop)]
pub struct CommentStatement {
    pub target: Target,
    pub text: Option<Text>,
}

/// INSERT INTO up to its rows.
#[derive(Drop)]
pub struct InsertStatement {
    pub table: Name,
    pub columns: Option<Items<Text>>,
}

/// What stands between the parentheses of a CREATE TABLE.
#[derive(Drop)]
pub enum Element {
    Column(Column),
    Rule(Rule),
}

/// A column with its rules in order.
#[derive(Drop)]
pub struct Column {
    pub name: Name,
    pub kind: ColumnType,
    pub rules: Items<ColumnRule>,
}

/// A column's type. An enum is named by its place among those so far.
#[derive(Clone, Copy, Debug)]
pub struct ColumnType {
    pub kind: Kind,
    /// The type is a serial one: the column is NOT NULL and has identity.
    pub serial: bool,
}

/// A rule of a column, with the name after CONSTRAINT and where it begins.
#[derive(Drop)]
pub struct ColumnRule {
    pub pos: Pos,
    pub name: Option<Text>,
    pub what: ColumnRuleKind,
}

/// What a rule of a column says.
#[derive(Drop)]
pub enum ColumnRuleKind {
    NotNull,
    Null,
    Primary,
    Unique,
    Default(Literal),
    Refers(Reference),
    Identity,
}

/// A rule of a table, with the name after CONSTRAINT and where it begins.
#[derive(Drop)]
pub struct Rule {
    pub pos: Pos,
    pub name: Option<Text>,
    pub what: RuleKind,
}

/// What a rule of a table says.
#[derive(Drop)]
pub enum RuleKind {
    Primary(Items<Text>),
    Unique(Items<Text>),
    Foreign(Items<Text>, Reference),
}

/// REFERENCES with its target.
#[derive(Drop)]
pub struct Reference {
    pub table: Text,
    pub columns: Option<Items<Text>>,
}

/// What a comment speaks of.
#[derive(Drop)]
pub enum Target {
    Table(Name),
    /// A table and its column.
    Column(Name, Text),
    /// A constraint and its table.
    Constraint(Name, Text),
    Enum(Name),
}

/// A row of an INSERT: its values, where its `(` stands, and the number of the INSERT among those of the script.
#[derive(Drop)]
pub struct Row {
    pub pos: Pos,
    pub insert: usize,
    pub cells: Items<Literal>,
}
