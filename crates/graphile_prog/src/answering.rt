//! A request, answered over what a script gives.

ghost use Rattle.std.specs.Prelude.{◌≡◌, [], IfOk};
ghost use Rattle.std.specs.Arc.{arc_value};
ghost use Rattle.request_core.specs.Answer.{IsAnswer};
ghost use Rattle.request_core.specs.Explained.{IsExplained};
ghost use Rattle.request_core.specs.Load.{IsUsable};
ghost use Rattle.request_core.specs.Request.{request_of};

use pg_base::{Blob, Memory};
use plan_steps::Steps;
use request_core::{Explanation, Loaded, OwnHouse, Request, answer_own, explain_own};
use row_tables::TableSet;
use row_tables::laws::valid_tables_have_form;
use std::alloc::Global;
use std::marker::Brand;
use std::sync::Arc;
use std::sync::ledger::{Blank, Ledger};
use stmt_run::MemRows;

/// How many changes the journal of a run has at most.
const MOST_CHANGES: u64 = 1_000_000;

/// A house over the tables of a script, which keeps no plans yet.
fn opened(alloc: Global, loaded: &Loaded) -> Result<OwnHouse, Memory>
    requires { IsUsable (arc_value loaded.now.base) loaded.now.tables }
    ensures base { IfOk result (λ house. house.base ≡ arc_value loaded.now.base) }
    ensures tables { IfOk result (λ house. house.opened.set.tables ≡ loaded.now.tables) }
    ensures empty { IfOk result (λ house. house.shelf.entries ≡ []) }
{
    valid_tables_have_form(&loaded.tables);
    let set = TableSet::of(alloc, loaded.base.catalog(), &loaded.tables)?;
    let base = Arc::try_clone(&loaded.base)?;
    let house = OwnHouse::make(alloc, base, set, MOST_CHANGES)?;
    Ok(house)
}

/// The response to a request, with a ledger for the count of plans.
fn answer_counted<L: Ledger>(
    alloc: Global,
    loaded: &Loaded,
    request: Request<'_>,
    blank: Blank,
) -> Result<Blob, Memory>
    requires usable { IsUsable (arc_value loaded.now.base) loaded.now.tables }
    requires name { blank.name ≡ L.name }
    requires parts { blank.parts ≡ L.parts }
    requires one { L.parts ≡ 1 }
    ensures { IfOk result (IsAnswer (arc_value loaded.now.base) loaded.now.tables
        (request_of request.entry)) }
{
    let mut house = opened(alloc, loaded)?;
    let mut rows = MemRows::new(alloc);
    let mut plans = Steps::<L>::new(blank);
    answer_own(alloc, &mut house, request, &mut rows, &mut plans)
}

/// The response to a request over the tables of a script.
pub fn answer_loaded(alloc: Global, loaded: &Loaded, request: Request<'_>) -> Result<Blob, Memory>
    requires { IsUsable (arc_value loaded.now.base) loaded.now.tables }
    ensures { IfOk result (IsAnswer (arc_value loaded.now.base) loaded.now.tables
        (request_of request.entry)) }
{
    answer_counted::<Brand>(alloc, loaded, request, Blank::new(1))
}

/// What is explained of a request, with a ledger for the count of plans.
fn explain_counted<L: Ledger>(
    alloc: Global,
    loaded: &Loaded,
    request: Request<'_>,
    blank: Blank,
) -> Result<Explanation, Memory>
    requires usable { IsUsable (arc_value loaded.now.base) loaded.now.tables }
    requires name { blank.name ≡ L.name }
    requires parts { blank.parts ≡ L.parts }
    requires one { L.parts ≡ 1 }
    ensures { IfOk result (IsExplained (arc_value loaded.now.base) (request_of request.entry)) }
{
    let house = opened(alloc, loaded)?;
    let mut plans = Steps::<L>::new(blank);
    explain_own(alloc, &house, request, &mut plans)
}

/// What is explained of a request over what a script gives: its first refusal, or the plan that serves it.
pub fn explain_loaded(
    alloc: Global,
    loaded: &Loaded,
    request: Request<'_>,
) -> Result<Explanation, Memory>
    requires { IsUsable (arc_value loaded.now.base) loaded.now.tables }
    ensures { IfOk result (IsExplained (arc_value loaded.now.base) (request_of request.entry)) }
{
    explain_counted::<Brand>(alloc, loaded, request, Blank::new(1))
}
