//! Names that stand before something among its siblings.

ghost use Rattle.std.specs.Prelude.{◌≡◌, IfOk, OnOk, []};
ghost use Rattle.gql_nodes.specs.Names as spec;

use gql_reader::Definition;
use indexmap::IndexSet;
use pg_base::{Memory, Text};
use std::alloc::Global;
use std::marker::Model;

/// Names, each once, in the order in which they came.
#[derive(Drop)]
pub(crate) struct Names {
    names: IndexSet<Text>,
}

impl Model for Names {
    ghost use Rattle.std.specs.Prelude.{ℕ, List};

    ghost Value = { List (List ℕ) };

    ghost view = { λ names. names.names.keys };
}

impl Names {
    pub(crate) fn new(alloc: Global) -> Names
        ensures { result ≡ [] }
    {
        Names {
            names: IndexSet::new(alloc),
        }
    }

    /// Puts a name to these, and tells whether it is one of them already.
    pub(crate) fn meet(&mut self, alloc: Global, name: &Text) -> Result<bool, Memory>
        ensures repeated { IfOk result (λ repeated. repeated ≡ spec.is_among name.now self.old) }
        ensures names { OnOk result (self.new ≡ spec.with_name self.old name.now) }
    {
        if self.names.contains(name) {
            return Ok(true);
        }
        self.names.insert(name.copy(alloc)?)?;
        Ok(false)
    }
}

/// Puts the name of a definition to those of its sort, and tells whether it is one of them already.
pub(crate) fn meet_definition(
    alloc: Global,
    operations: &mut Names,
    fragments: &mut Names,
    definition: &Definition,
) -> Result<bool, Memory>
    ensures repeated { IfOk result (λ repeated.
        repeated ≡ spec.is_repeated operations.old fragments.old definition.now) }
    ensures operations { OnOk result
        (operations.new ≡ spec.with_taken operations.old (spec.operation_name definition.now)) }
    ensures fragments { OnOk result
        (fragments.new ≡ spec.with_taken fragments.old (spec.fragment_name definition.now)) }
{
    match definition {
        Definition::Operation(operation) => match &operation.name {
            Some(name) => {
                let repeated = operations.meet(alloc, name)?;
                Ok(repeated)
            }
            None => Ok(false),
        },
        Definition::Fragment(fragment) => {
            let repeated = fragments.meet(alloc, &fragment.name)?;
            Ok(repeated)
        }
        Definition::Foreign(_) => Ok(false),
    }
}
