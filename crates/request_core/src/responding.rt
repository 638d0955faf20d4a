//! The reply to a request on a house of one's own.

ghost use Rattle.std.specs.Prelude.{◌≡◌, ◌≤◌, ◌-◌, true, List};
ghost use Rattle.serde_json.specs.View.{view};
ghost use Rattle.pg_base.specs.Catalog.{CatalogParts};
ghost use Rattle.gql_input.specs.Body.{is_variables};
ghost use Rattle.stmt_run.specs.Store.{SnapshotParts, HoldsFor};
ghost use Rattle.plan_cache.specs.Shelf.{Shows};
ghost use Rattle.kept_responses.specs.Counts.{counts};
ghost use Rattle.kept_responses.specs.Kept.{KeptParts};
ghost use Rattle.kept_responses.specs.Served.{asked_of};
ghost use Rattle.request_core.specs.Asked.{asked_parts, wanted_with};
ghost use Rattle.request_core.specs.House.{KeepsHouse};
ghost use Rattle.request_core.specs.Prepared.{IsPreparedFor, MayBeServed, MayServe};
ghost use Rattle.request_core.specs.Reply.{RepliesOn, ServedOn};

use crate::asked::Asked;
use crate::house::OwnHouse;
use crate::preparing::{Prepared, prepare_asked};
use crate::replies::{memory_reply, refusal_reply, response_reply};
use http_sessions::Reply;
use kept_responses::Wanted;
use pg_base::Vars;
use place_tree::Tree;
use plan_steps::Steps;
use std::alloc::{AllocError, Global};
use std::sync::ledger::Ledger;
use stmt_run::Snapshot;
use stmt_tree::Rows;

/// What a plan is looked for with.
pub(crate) fn wanted_of<'a>(asked: &'a Asked, vars: &'a Vars) -> Wanted<'a>
    ensures { asked_of result ≡ wanted_with (asked_parts asked.now) vars.now }
{
    Wanted {
        text: asked.query.bytes(),
        operation: asked.operation.as_ref(),
        vars,
    }
}

/// How many more statements a store was sent.
fn rise_of<R: Rows>(rows: &R, before: u64) -> u64
    ensures { result ≡ R.sent rows.now - before }
{
    rows.sent().saturating_sub(before)
}

/// The reply to what asks for a tree.
fn respond_accepted<R: Rows<At = Snapshot>, L: Ledger>(
    alloc: Global,
    house: &mut OwnHouse,
    asked: &Asked,
    tree: Tree,
    vars: &Vars,
    rows: &mut R,
    plans: &mut Steps<L>,
) -> Reply
    requires may { MayBeServed house.old.base (asked_parts asked.now) tree vars.now }
    requires served { R.serves rows.old house.old.opened house.old.base.catalog }
    ensures serves { (a : SnapshotParts) (c : CatalogParts)
        → R.serves rows.old a c → R.serves rows.new a c }
    ensures serves_no_more { (a : SnapshotParts) (c : CatalogParts)
        → R.serves rows.new a c → R.serves rows.old a c }
    ensures told { (a : SnapshotParts) → R.tables_of rows.new a ≡ R.tables_of rows.old a }
    ensures faults { R.faults rows.old ≤ R.faults rows.new }
    ensures keeps { KeepsHouse house.old house.new }
    ensures served { (history : List KeptParts) → Shows house.old.shelf history
        → ServedOn house.old house.new (R.tables_of rows.old house.old.opened)
        (wanted_with (asked_parts asked.now) vars.now) tree 0 history
        (counts (R.sent rows.old) (R.got rows.old) (R.faults rows.old) plans.old)
        (counts (R.sent rows.new) (R.got rows.new) (R.faults rows.new) plans.new) result }
{
    let wanted = wanted_of(asked, vars);
    let before = rows.sent();
    let response = house.respond(alloc, &wanted, tree, rows, plans);
    let statements = rise_of(rows, before);
    response_reply(alloc, response, statements)
}

/// The reply to what a request comes to.
fn respond_prepared<R: Rows<At = Snapshot>, L: Ledger>(
    alloc: Global,
    house: &mut OwnHouse,
    asked: &Asked,
    prepared: Prepared,
    rows: &mut R,
    plans: &mut Steps<L>,
) -> Reply
    requires prepared { IsPreparedFor house.old.base (asked_parts asked.now) prepared }
    requires may { MayServe house.old.base (asked_parts asked.now) prepared }
    requires served { R.serves rows.old house.old.opened house.old.base.catalog }
    ensures serves { (a : SnapshotParts) (c : CatalogParts)
        → R.serves rows.old a c → R.serves rows.new a c }
    ensures serves_no_more { (a : SnapshotParts) (c : CatalogParts)
        → R.serves rows.new a c → R.serves rows.old a c }
    ensures told { (a : SnapshotParts) → R.tables_of rows.new a ≡ R.tables_of rows.old a }
    ensures faults { R.faults rows.old ≤ R.faults rows.new }
    ensures keeps { KeepsHouse house.old house.new }
    ensures reply { (history : List KeptParts) → Shows house.old.shelf history
        → RepliesOn house.old house.new (R.tables_of rows.old house.old.opened)
        (asked_parts asked.now) 0 history
        (counts (R.sent rows.old) (R.got rows.old) (R.faults rows.old) plans.old)
        (counts (R.sent rows.new) (R.got rows.new) (R.faults rows.new) plans.new) result }
{
    match prepared {
        Prepared::Refused(text) => refusal_reply(text),
        Prepared::Accepted(tree, vars) => {
            respond_accepted(alloc, house, asked, tree, &vars, rows, plans)
        }
    }
}

/// The reply to a request: its first refusal, in the order of its document's bytes, the rules, the operation, the
/// variables' values and the places of its tree, with the status 200; or else the response by the oldest plan that is kept
/// and serves it, or by one that is made, and kept before it is run. Where the answer is too large, that has the status
/// 200, a fault of the store 500, and out of memory 503. Of the house nothing but the plans that are kept changes.
pub fn respond_own<R: Rows<At = Snapshot>, L: Ledger>(
    alloc: Global,
    house: &mut OwnHouse,
    asked: &Asked,
    rows: &mut R,
    plans: &mut Steps<L>,
) -> Reply
    requires variables { is_variables (view asked.now.variables) ≡ true }
    requires served { (at : SnapshotParts) → HoldsFor house.old.base.catalog at
        → R.serves rows.old at house.old.base.catalog }
    ensures serves { (a : SnapshotParts) (c : CatalogParts)
        → R.serves rows.old a c → R.serves rows.new a c }
    ensures serves_no_more { (a : SnapshotParts) (c : CatalogParts)
        → R.serves rows.new a c → R.serves rows.old a c }
    ensures told { (a : SnapshotParts) → R.tables_of rows.new a ≡ R.tables_of rows.old a }
    ensures faults { R.faults rows.old ≤ R.faults rows.new }
    ensures keeps { KeepsHouse house.old house.new }

    // Whatever was ever entered, of which the house keeps the last: the request is refused, and
    // takes nothing; or a plan is found, or made and entered, and the reply tells its response.
    ensures reply { (history : List KeptParts) → Shows house.old.shelf history
        → RepliesOn house.old house.new (R.tables_of rows.old house.old.opened)
        (asked_parts asked.now) 0 history
        (counts (R.sent rows.old) (R.got rows.old) (R.faults rows.old) plans.old)
        (counts (R.sent rows.new) (R.got rows.new) (R.faults rows.new) plans.new) result }
{
    house.know();
    match prepare_asked(alloc, house.base(), asked) {
        Ok(prepared) => respond_prepared(alloc, house, asked, prepared, rows, plans),
        Err(AllocError) => memory_reply(),
    }
}
