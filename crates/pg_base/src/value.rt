//! Input values (GraphQL October 2021, section 2.9): what a variable holds, and what an argument is with its variables.

ghost use Rattle.std.specs.Prelude.{◌≡◌, ◌↔◌, IsTrue, IfOk};
ghost use Rattle.pg_base.specs.SameValue.{same_value};

use crate::{Memory, Text, comparing, copying};
use sqlite_items::Items;
use std::alloc::Global;

#[cycle(value)]
#[derive(Drop)]
pub enum Value {
    Null,
    Int(i64),
    Bool(bool),
    Text(Text),
    /// A case of an enum, by its name.
    Case(Text),
    List(Items<Value>),
    /// The fields that are present, in the order of the schema.
    Object(Items<Member>),
}

/// A field of an object.
#[cycle(value)]
#[derive(Drop)]
pub struct Member {
    pub name: Text,
    pub value: Value,
}

impl Value {
    pub fn copy(&self, alloc: Global) -> Result<Value, Memory>
        ensures { IfOk result (λ copy. copy ≡ self.now) }
    {
        copying::copy_value(alloc, self)
    }

    /// Whether both are the same value: lists and objects item by item, in their order.
    pub fn is_same(&self, other: &Value) -> bool
        ensures test { result ≡ same_value self.now other.now }
        ensures same { IsTrue result ↔ (self.now ≡ other.now) }
    {
        comparing::is_same_value(self, other)
    }
}
