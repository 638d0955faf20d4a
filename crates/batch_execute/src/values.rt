//! The values of a plan.

ghost use Rattle.std.specs.Prelude.{◌≡◌};

use crate::fetched::Fetched;
use crate::role::Role;
use sqlite_items::Items;
use std::marker::Model;

/// What the statements of a plan found, step by step; what each place shows of its step; and how many rows the places
/// show.
#[derive(Drop)]
pub struct Values {
    fetched: Items<Fetched>,
    roles: Items<Role>,
    visited: u64,
}

impl Model for Values {
    ghost use Rattle.std.specs.Coded.{codes};
    ghost use Rattle.stmt_tree.specs.contracts.found.Found as found_type;
    ghost use Rattle.batch_execute.specs.Values.{ValuesParts};

    ghost Value = { ValuesParts };

    ghost coded = { Prim.hlevel (codes, found_type.the_row.coded) };

    ghost view = { λ v. record { fetched = v.fetched; roles = v.roles; visited = v.visited } };
}

impl Values {
    pub(crate) fn of(fetched: Items<Fetched>, roles: Items<Role>, visited: u64) -> Values
        ensures { result ≡ record { fetched = fetched; roles = roles; visited = visited } }
    {
        Values {
            fetched,
            roles,
            visited,
        }
    }

    /// What was found for each step.
    pub fn fetched(&self) -> &[Fetched]
        ensures { result.now ≡ self.now.fetched }
    {
        self.fetched.as_slice()
    }

    /// What each place shows of what its step found.
    pub fn roles(&self) -> &[Role]
        ensures { result.now ≡ self.now.roles }
    {
        self.roles.as_slice()
    }

    /// The number of rows that are visited.
    pub fn visited(&self) -> u64
        ensures { result ≡ self.now.visited }
    {
        self.visited
    }
}
