//! Entries: drafts that are finished.

ghost use Rattle.std.specs.Prelude.{◌≡◌};
ghost use Rattle.std.specs.Arc.{arc_value};
ghost use Rattle.plan_steps.specs.Sound.{IsSound};
ghost use Rattle.plan_steps.specs.View.{planned, IsSoundFor};

use crate::draft::Draft;
use crate::plan::Plan;
use pg_base::Base;
use place_tree::Tree;
use plan_constraints::Constraint;
use sqlite_items::Items;
use std::marker::Model;
use std::sync::Arc;

/// A draft that is finished: a sound plan, which may be run again for each request with the same tree whose variables
/// meet the constraints. None can be copied.
#[derive(Drop)]
pub struct Entry {
    base: Arc<Base>,
    plan: Plan,
    tree: Tree,
    constraints: Items<Constraint>,
}

impl Model for Entry {
    ghost use Rattle.std.specs.Arc.{arc_value};
    ghost use Rattle.std.specs.Coded.{codes};
    ghost use Rattle.pg_base.specs.contracts.value.Value as value;
    ghost use Rattle.gql_input.specs.contracts.argument.ArgValue as argument;
    ghost use Rattle.plan_steps.specs.contracts.plan.FetchStep as fetch;
    ghost use Rattle.plan_steps.specs.Sound.{IsSound};
    ghost use Rattle.plan_steps.specs.View.{Planned, planned};

    ghost Value = { Planned };

    ghost coded = { Prim.hlevel
        (codes, value.the_row.coded, argument.the_row.coded, fetch.the_row.coded) };

    ghost view = { λ e. planned (arc_value e.base) e.plan e.tree e.constraints };

    ghost invariant = { λ e. IsSound (arc_value e.base) e.plan e.tree e.constraints };
}

impl Entry {
    pub fn of(draft: Draft) -> Entry
        ensures { result ≡ draft }
    {
        draft.into_entry()
    }

    pub(crate) fn of_parts(
        base: Arc<Base>,
        plan: Plan,
        tree: Tree,
        constraints: Items<Constraint>,
    ) -> Entry
        requires { IsSound (arc_value base) plan tree constraints }
        ensures { result ≡ planned (arc_value base) plan tree constraints }
    {
        Entry {
            base,
            plan,
            tree,
            constraints,
        }
    }

    /// Tells what the type keeps, and does nothing.
    pub fn know(&self)
        ensures { IsSoundFor self.now }
    {
        let _ = &self.plan;
    }

    pub fn base(&self) -> &Base
        ensures { result.now ≡ self.now.base }
    {
        &self.base
    }

    pub fn plan(&self) -> &Plan
        ensures { result.now ≡ self.now.plan }
    {
        &self.plan
    }

    pub fn tree(&self) -> &Tree
        ensures { result.now ≡ self.now.tree }
    {
        &self.tree
    }

    pub fn constraints(&self) -> &[Constraint]
        ensures { result.now ≡ self.now.constraints }
    {
        self.constraints.as_slice()
    }
}
