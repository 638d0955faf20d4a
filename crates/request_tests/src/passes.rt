//! The same trees run by the plans that are drafted for them, and by the lean ones.

ghost use Rattle.std.specs.Prelude.{◌≡◌, ◌<◌, ◌^◌, IfOk, length};
ghost use Rattle.std.specs.Arc.{arc_value};
ghost use Rattle.plan_constraints.specs.Constraints.{Hold};
ghost use Rattle.plan_constraints.specs.Noted.{noted};
ghost use Rattle.plan_steps.specs.Fitting.{FitTree};
ghost use Rattle.plan_steps.specs.Sound.{IsRootOf};
ghost use Rattle.plan_steps.specs.declared.plan.Root.TheVariants as root;
ghost use Rattle.step_plan.specs.Planned.{IsPlannable};
ghost use Rattle.request_core.specs.Load.{IsUsable};
ghost use Rattle.request_core.specs.Spent.{MayRespond};

use crate::asking::loaded;
use crate::opening::opened;
use crate::stores::{Wanted, tree_for};
use batch_execute::ReadyEntry;
use batch_execute::laws::fetches_are_ready;
use gql_vectors::BLOG;
use pg_base::{Base, Memory, Vars};
use place_tree::Tree;
use plan_constraints::laws::noted_hold_at_home;
use plan_steps::{Entry, Steps};
use planned_response::{plan_of, respond_with};
use request_core::Loaded;
use std::alloc::Global;
use std::marker::Brand;
use std::sync::Arc;
use std::sync::ledger::{Blank, Ledger};
use std::test::Fail;
use step_plan::laws::{
    drafted_are_plain, drafted_are_well_formed, plannable_trees_stand_over_bases,
};
use step_plan::make_steps;
use stmt_run::MemRows;
use stmt_tree::Rows;

/// Documents, with the numbers of statements that they take by the plan that is drafted, and by the lean one.
const BOTH: &str = r##"
{ allUsers { nodes { name postsByAuthorId { nodes { title commentsByPostId { nodes { body } } } } } } } => 3 1
{ allUsers { nodes { name postsByAuthorId(first: 2) { nodes { title } totalCount } } } } => 2 2
{ a: allUsers { nodes { name } } b: allUsers { totalCount } } => 2 1
{ allPosts { nodes { title userByAuthorId { name } } edges { node { userByAuthorId { name } } } } } => 3 1
"##;

/// The plan that is drafted for a tree, with a fetch for each of its row fields, ready to be run.
fn drafted<L: Ledger>(
    alloc: Global,
    base: &Arc<Base>,
    tree: Tree,
    vars: &Vars,
    plans: &mut Steps<L>,
) -> Result<ReadyEntry, Memory>
    requires { IsPlannable (arc_value base.now) tree vars.now }
    ensures base { IfOk result (λ made. made.base ≡ arc_value base.now) }
    ensures tree { IfOk result (λ made. made.tree ≡ tree) }
    ensures constraints { IfOk result
        (λ made. made.constraints ≡ noted (arc_value base.now) vars.now tree) }
{
    base.know();
    base.catalog().know();
    plannable_trees_stand_over_bases();
    drafted_are_plain();
    drafted_are_well_formed();
    fetches_are_ready();
    let draft = make_steps(alloc, base, tree, vars, plans)?;
    Ok(ReadyEntry::of(Entry::of(draft)))
}

/// How many statements a plan takes for a query, and the text of the response by it.
fn run_by(
    alloc: Global,
    over: &Loaded,
    ready: &ReadyEntry,
    vars: &Vars,
) -> Result<(u64, String), Fail>
    requires usable { IsUsable (arc_value over.now.base) over.now.tables }
    requires base { ready.now.base ≡ arc_value over.now.base }
    requires few { length ready.now.tree.places < 2 ^ 32 }
    requires root { IsRootOf ready.now.base ready.now.tree root.Query }
    requires hold { Hold ready.now.constraints vars.now }
    requires fit { FitTree ready.now.base vars.now ready.now.tree }
{
    let at = opened(alloc, over)?;
    let mut rows = MemRows::new(alloc);
    let Ok(text) = respond_with(alloc, ready, vars, &at, &mut rows) else {
        return Err("no response".into());
    };
    let text = str::from_utf8(text.bytes()).map_err(|_| "no text")?;
    Ok((rows.sent(), String::from_str(alloc, text)?))
}

/// The same by the plan that is drafted for what a document asks for.
fn by_draft<L: Ledger>(
    alloc: Global,
    over: &Loaded,
    document: &str,
    plans: &mut Steps<L>,
) -> Result<(u64, String), Fail>
    requires { IsUsable (arc_value over.now.base) over.now.tables }
{
    let Wanted { tree, vars } = tree_for(alloc, over, document)?;
    noted_hold_at_home();
    let ready = drafted(alloc, &over.base, tree, &vars, plans)?;
    run_by(alloc, over, &ready, &vars)
}

/// The same by the lean plan.
fn by_lean<L: Ledger>(
    alloc: Global,
    over: &Loaded,
    document: &str,
    plans: &mut Steps<L>,
) -> Result<(u64, String), Fail>
    requires { IsUsable (arc_value over.now.base) over.now.tables }
{
    let Wanted { tree, vars } = tree_for(alloc, over, document)?;
    noted_hold_at_home();
    let Ok(ready) = plan_of(alloc, &over.base, tree, &vars, plans) else {
        return Err("no plan".into());
    };
    run_by(alloc, over, &ready, &vars)
}

/// Nothing where both plans give one text, by the numbers of statements that the row tells, else the row and what came.
fn differs<L: Ledger>(
    alloc: Global,
    over: &Loaded,
    row: &str,
    plans: &mut Steps<L>,
) -> Result<String, Fail>
    requires { IsUsable (arc_value over.now.base) over.now.tables }
{
    let (document, told) = row.split_once(" => ").ok_or("no arrow")?;
    let (many, first) = by_draft(alloc, over, document, plans)?;
    let (few, second) = by_lean(alloc, over, document, plans)?;
    let sent = format!(in alloc; "{many} {few}")?;
    if sent.as_str() == told && first.as_str() == second.as_str() {
        return Ok(String::new(alloc));
    }
    let (first, second) = (first.as_str(), second.as_str());
    let sent = sent.as_str();
    Ok(format!(in alloc; "\n{row}\n  came: {sent} {first} {second}")?)
}

/// The rows of a table for which both plans don't give one text by so many statements.
fn told_over<L: Ledger>(
    alloc: Global,
    over: &Loaded,
    table: &str,
    plans: &mut Steps<L>,
) -> Result<String, Fail>
    requires { IsUsable (arc_value over.now.base) over.now.tables }
{
    let mut told = String::new(alloc);
    for row in table.trim().lines() {
        let row = differs(alloc, over, row, plans)?;
        told.push_str(row.as_str())?;
    }
    Ok(told)
}

/// The same with a new count of plans.
fn differences<L: Ledger>(alloc: Global, over: &Loaded, blank: Blank) -> Result<String, Fail>
    requires usable { IsUsable (arc_value over.now.base) over.now.tables }
    requires name { blank.name ≡ L.name }
    requires parts { blank.parts ≡ L.parts }
    requires one { L.parts ≡ 1 }
{
    let mut plans = Steps::<L>::new(blank);
    told_over(alloc, over, BOTH, &mut plans)
}

#[test]
fn drafted_and_lean_plans_give_one_text(rt: HostRuntime) -> Result<(), Fail> {
    let alloc = rt.alloc();
    let over = loaded(alloc, BLOG)?;
    let told = differences::<Brand>(alloc, &over, Blank::new(1))?;
    assert_eq!(rt; told.as_str(), "");
    Ok(())
}
