//! A kept plan, run.

ghost use Rattle.std.specs.Prelude.{◌≡◌, ℕ};
ghost use Rattle.pg_base.specs.Catalog.{CatalogParts};
ghost use Rattle.plan_constraints.specs.Constraints.{Hold};
ghost use Rattle.plan_steps.specs.Fitting.{FitTree};
ghost use Rattle.plan_steps.specs.View.{IsSoundFor};
ghost use Rattle.kept_responses.specs.Counts.{counts};
ghost use Rattle.kept_responses.specs.Kept.{Fits};
ghost use Rattle.kept_responses.specs.Served.{IsRun};

use crate::kept_plan::KeptPlan;
use pg_base::{Blob, Vars};
use planned_response::{RespondFault, respond_with};
use std::alloc::Global;
use stmt_tree::Rows;

/// The response by a kept plan, for variables that meet its constraints.
///
/// # Errors
/// As those of `respond_with`.
pub(crate) fn run_kept<R: Rows>(
    alloc: Global,
    kept: &KeptPlan,
    vars: &Vars,
    at: &R::At,
    rows: &mut R,
) -> Result<Blob, RespondFault>
    requires hold { Hold kept.now.planned.constraints vars.now }
    requires fit { FitTree kept.now.planned.base vars.now kept.now.planned.tree }
    requires served { R.serves rows.old at.now kept.now.planned.base.catalog }
    ensures serves { (a : R.At) (c : CatalogParts)
        → R.serves rows.old a c → R.serves rows.new a c }
    ensures serves_no_more { (a : R.At) (c : CatalogParts)
        → R.serves rows.new a c → R.serves rows.old a c }
    ensures told { (a : R.At) → R.tables_of rows.new a ≡ R.tables_of rows.old a }
    ensures fits { Fits kept.now }
    ensures sound { IsSoundFor kept.now.planned }
    ensures run { (before after : ℕ) → IsRun kept.now.planned (R.tables_of rows.old at.now) vars.now
        (counts (R.sent rows.old) (R.got rows.old) (R.faults rows.old) before)
        (counts (R.sent rows.new) (R.got rows.new) (R.faults rows.new) after) result }
{
    kept.know();
    let ready = kept.ready();
    ready.entry().know();
    respond_with(alloc, ready, vars, at, rows)
}
