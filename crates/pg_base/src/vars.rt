//! The variables of a request (GraphQL October 2021, section 6.1.2).

ghost use Rattle.std.specs.Prelude.{◌≡◌, ◌≢◌, ◌↔◌, All, IsNone, option_map};
ghost use Rattle.pg_base.specs.Vars.{variable};

use crate::{Text, Value};
use sqlite_items::Items;

/// A variable that has a value, by its name.
#[derive(Drop)]
pub struct Variable {
    pub name: Text,
    pub value: Value,
}

/// The variables that have a value, in the order of their definitions.
#[derive(Drop)]
pub struct Vars {
    pub entries: Items<Variable>,
}

impl Vars {
    /// The value of the first entry with the name; None exactly where no entry has it.
    pub fn get(&self, name: &Text) -> Option<&Value>
        ensures value { option_map (λ v. v.now) result ≡ variable self.now name.now }
        ensures none { IsNone result ↔ All (λ e. e.name ≢ name.now) self.now.entries }
    {
        for entry in self.entries.as_slice() {
            if entry.name == *name {
                return Some(&entry.value);
            }
        }
        None
    }
}
