//! Names and places, each once.

ghost use Rattle.std.specs.Prelude.{◌≡◌, IfOk, OnOk, []};
ghost use Rattle.gql_nodes.specs.Names.{is_among, with_name};

use indexmap::IndexSet;
use pg_base::{Memory, Text};
use std::alloc::Global;
use std::marker::Model;

/// Names, each once, in the order in which they came.
#[derive(Drop)]
pub(crate) struct NameSet {
    names: IndexSet<Text>,
}

impl Model for NameSet {
    ghost use Rattle.std.specs.Prelude.{ℕ, List};

    ghost Value = { List (List ℕ) };

    ghost view = { λ names. names.names.keys };
}

impl NameSet {
    pub(crate) fn new(alloc: Global) -> NameSet
        ensures { result ≡ [] }
    {
        NameSet {
            names: IndexSet::new(alloc),
        }
    }

    pub(crate) fn has(&self, name: &Text) -> bool
        ensures { result ≡ is_among name.now self.now }
    {
        self.names.contains(name)
    }

    /// Puts a name to these, unless it is one of them.
    pub(crate) fn put(&mut self, alloc: Global, name: &Text) -> Result<(), Memory>
        ensures { OnOk result (self.new ≡ with_name self.old name.now) }
    {
        if self.names.contains(name) {
            return Ok(());
        }
        self.names.insert(name.copy(alloc)?)?;
        Ok(())
    }
}
