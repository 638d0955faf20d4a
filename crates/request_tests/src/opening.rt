//! Requests over a store at the moment of a script's opening rows.

ghost use Rattle.std.specs.Prelude.{◌≡◌, IfOk};
ghost use Rattle.std.specs.Arc.{arc_value};
ghost use Rattle.request_core.specs.Load.{IsUsable};
ghost use Rattle.stmt_run.specs.Store.{HoldsFor};

use pg_base::{Blob, Memory};
use plan_steps::Steps;
use request_core::{Loaded, Request, answer_request};
use row_tables::TableSet;
use row_tables::laws::valid_tables_have_form;
use std::alloc::Global;
use std::sync::Arc;
use std::sync::ledger::{Blank, Ledger};
use stmt_run::Snapshot;
use stmt_tree::Rows;

/// The tables of a script at the moment of the number 0.
pub(crate) fn opened(alloc: Global, over: &Loaded) -> Result<Snapshot, Memory>
    requires { IsUsable (arc_value over.now.base) over.now.tables }
    ensures { IfOk result (HoldsFor (arc_value over.now.base).catalog) }
{
    valid_tables_have_form(&over.tables);
    let set = TableSet::of(alloc, over.base.catalog(), &over.tables)?;
    let set = Arc::new(alloc, set)?;
    Ok(Snapshot::of(0, set))
}

/// The response to a request over a store.
pub(crate) fn answer_over<R: Rows, L: Ledger>(
    alloc: Global,
    over: &Loaded,
    request: Request<'_>,
    at: &R::At,
    rows: &mut R,
    blank: Blank,
) -> Result<Blob, Memory>
    requires usable { IsUsable (arc_value over.now.base) over.now.tables }
    requires served { R.serves rows.old at.now (arc_value over.now.base).catalog }
    requires name { blank.name ≡ L.name }
    requires parts { blank.parts ≡ L.parts }
    requires one { L.parts ≡ 1 }
{
    let mut plans = Steps::<L>::new(blank);
    answer_request(alloc, &over.base, request, at, rows, &mut plans)
}
