//! The places of a request.

use gql_input::ArgValue;
use pg_base::{Pos, Text};
use sqlite_items::Items;

/// A written argument, by its place among those of its field.
#[derive(Drop)]
pub struct PlaceArg {
    pub arg: u32,
    pub value: ArgValue,
}

/// A place of the response: a response key below a place, with the field that stands there.
#[derive(Drop)]
pub struct Place {
    pub parent: Option<u32>,
    pub key: Text,
    /// The type that has the field, by its place in the schema.
    pub ty: u32,
    /// The field's place in that type; the last number of 32 bits is `__typename`.
    pub field: u32,
    /// In the order of the schema.
    pub args: Items<PlaceArg>,
    pub pos: Pos,
}

/// The places that a request asks for, in preorder.
#[derive(Drop)]
pub struct Tree {
    pub places: Items<Place>,
    /// The variables that collection asked in an `if`, in the order of asking.
    pub asked: Items<Text>,
}
