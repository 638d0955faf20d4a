//! The answer to a request: its first refusal, or the response to its query over what a store has.

ghost use Rattle.std.specs.Prelude.{◌≡◌, ◌+◌, ◌≤◌, None, IfOk};
ghost use Rattle.std.specs.Arc.{arc_value};
ghost use Rattle.pg_base.specs.Catalog.{CatalogParts};
ghost use Rattle.pg_base.specs.Limits.{most_places};
ghost use Rattle.pg_base.specs.SchemaFaults.{build_fault};
ghost use Rattle.rel_model.specs.declared.tables.Tables.{Tables};
ghost use Rattle.planned_response.specs.Responses.{AreTold};
ghost use Rattle.request_core.specs.Request.{request_of};
ghost use Rattle.request_core.specs.Spent as spent;

use crate::execution::tree_answer;
use crate::preparing::{Prepared, prepare};
use crate::request::Request;
use pg_base::{Base, Blob, Memory};
use plan_steps::Steps;
use std::alloc::Global;
use std::sync::Arc;
use std::sync::ledger::Ledger;
use stmt_tree::Rows;

/// The response to a request: its first refusal, in the order of its variables' bytes, its document's bytes, the rules,
/// the operation, the variables' values and the places of its tree, or else the text of its execution over what a store
/// has at a moment, or that this is too large, or that the store failed.
///
/// # Errors
/// Out of memory.
pub fn answer_request<R: Rows, L: Ledger>(
    alloc: Global,
    base: &Arc<Base>,
    request: Request<'_>,
    at: &R::At,
    rows: &mut R,
    plans: &mut Steps<L>,
) -> Result<Blob, Memory>
    requires faultless { build_fault (arc_value base.now).catalog ≡ None }
    requires served { R.serves rows.old at.now (arc_value base.now).catalog }
    ensures serves { (a : R.At) (c : CatalogParts)
        → R.serves rows.old a c → R.serves rows.new a c }
    ensures serves_no_more { (a : R.At) (c : CatalogParts)
        → R.serves rows.new a c → R.serves rows.old a c }
    ensures told { (a : R.At) → R.tables_of rows.new a ≡ R.tables_of rows.old a }

    // A refusal sends and plans nothing. A query makes one plan, and sends no more statements than
    // it needs; over told tables its answer is the text of execution, or that this
    // is too large, or that the store failed, and no more rows are got than are visited.
    ensures answer { IfOk result (spent.AnswersOver (arc_value base.now)
        (R.tables_of rows.old at.now)
        (spent.counts (R.sent rows.old) (R.got rows.old) (R.faults rows.old) plans.old)
        (spent.counts (R.sent rows.new) (R.got rows.new) (R.faults rows.new) plans.new)
        (request_of request.entry)) }

    // Also where memory runs out:
    ensures rises { R.sent rows.old ≤ R.sent rows.new }
    ensures sent { R.sent rows.new ≤ R.sent rows.old + most_places }
    ensures got { (tables : Tables)
        → AreTold (arc_value base.now).catalog (R.tables_of rows.old at.now) tables
        → spent.GetsAtMost (R.got rows.old) (R.got rows.new) }
    ensures faults { R.faults rows.old ≤ R.faults rows.new }
    ensures planned { spent.PlansAtMostOne plans.old plans.new }
{
    let prepared = prepare(alloc, base, request)?;
    match prepared {
        Prepared::Refused(text) => Ok(text),
        Prepared::Accepted(tree, vars) => tree_answer(alloc, base, tree, &vars, at, rows, plans),
    }
}
