//! What a plan may ask of the variables of a request.

use crate::Part;
use pg_base::{Text, Value};
use sqlite_items::Items;

/// A fact of what stands at a path into the variables. All but `Exists` hold only where something stands there.
#[derive(Drop)]
pub enum Constraint {
    /// This value stands there.
    Value(Items<Part>, Value),
    /// Something stands there, or nothing does.
    Exists(Items<Part>, bool),
    /// Something stands there, and it is null, or isn't.
    Null(Items<Part>, bool),
    /// An object stands there, with exactly these fields, in this order.
    Keys(Items<Part>, Items<Text>),
}
