//! Drafts: plans that are sound, while they are made.

ghost use Rattle.std.specs.Prelude.{◌≡◌, ◌+◌};
ghost use Rattle.std.specs.Arc.{arc_value};
ghost use Rattle.plan_steps.specs.Sound.{IsSound};
ghost use Rattle.plan_steps.specs.View.{planned, IsSoundFor};

use crate::entry::Entry;
use crate::plan::Plan;
use crate::steps::Steps;
use pg_base::Base;
use place_tree::Tree;
use plan_constraints::Constraint;
use sqlite_items::Items;
use std::marker::Model;
use std::sync::Arc;
use std::sync::ledger::Ledger;

/// A plan of a tree over a base, with constraints on the variables. It is sound: over all valid tables, for all
/// variables that fit the tree and meet the constraints, it shows what execution gives, and finds no more rows than
/// execution visits. There is no draft that isn't, and none can be copied.
#[derive(Drop)]
pub struct Draft {
    base: Arc<Base>,
    plan: Plan,
    tree: Tree,
    constraints: Items<Constraint>,
}

impl Model for Draft {
    ghost use Rattle.std.specs.Arc.{arc_value};
    ghost use Rattle.std.specs.Coded.{codes};
    ghost use Rattle.pg_base.specs.contracts.value.Value as value;
    ghost use Rattle.gql_input.specs.contracts.argument.ArgValue as argument;
    ghost use Rattle.plan_steps.specs.contracts.plan.FetchStep as fetch;
    ghost use Rattle.plan_steps.specs.Sound.{IsSound};
    ghost use Rattle.plan_steps.specs.View.{Planned, planned};

    ghost Value = { Planned };

    ghost coded = { Prim.hlevel
        (codes, value.the_row.coded, argument.the_row.coded, fetch.the_row.coded) };

    ghost view = { λ d. planned (arc_value d.base) d.plan d.tree d.constraints };

    ghost invariant = { λ d. IsSound (arc_value d.base) d.plan d.tree d.constraints };
}

impl Draft {
    /// Begins a draft, and counts it.
    pub fn begin<L: Ledger>(
        base: Arc<Base>,
        plan: Plan,
        tree: Tree,
        constraints: Items<Constraint>,
        plans: &mut Steps<L>,
    ) -> Draft
        requires { IsSound (arc_value base) plan tree constraints }
        ensures counted { plans.new ≡ plans.old + 1 }
        ensures draft { result ≡ planned (arc_value base) plan tree constraints }
    {
        plans.tick();
        Draft {
            base,
            plan,
            tree,
            constraints,
        }
    }

    /// The draft with another plan, which is as sound.
    pub fn renew(self, plan: Plan) -> Draft
        requires { IsSound self.base plan self.tree self.constraints }
        ensures { result ≡ record self { plan = plan } }
    {
        let Draft {
            base,
            plan: _,
            tree,
            constraints,
        } = self;
        Draft {
            base,
            plan,
            tree,
            constraints,
        }
    }

    /// Tells what the type keeps, and does nothing.
    pub fn know(&self)
        ensures { IsSoundFor self.now }
    {
        let _ = &self.plan;
    }

    pub fn base(&self) -> &Base
        ensures { result.now ≡ self.now.base }
    {
        &self.base
    }

    pub fn plan(&self) -> &Plan
        ensures { result.now ≡ self.now.plan }
    {
        &self.plan
    }

    pub fn tree(&self) -> &Tree
        ensures { result.now ≡ self.now.tree }
    {
        &self.tree
    }

    pub fn constraints(&self) -> &[Constraint]
        ensures { result.now ≡ self.now.constraints }
    {
        self.constraints.as_slice()
    }

    pub(crate) fn into_entry(self) -> Entry
        ensures { result ≡ self }
    {
        let Draft {
            base,
            plan,
            tree,
            constraints,
        } = self;
        Entry::of_parts(base, plan, tree, constraints)
    }
}
