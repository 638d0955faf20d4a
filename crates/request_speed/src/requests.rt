//! Documents asked on one house, round after round.

ghost use Rattle.std.specs.Prelude.{◌≡◌, true, IfOk};
ghost use Rattle.std.specs.Arc.{arc_value};
ghost use Rattle.serde_json.specs.View.{view};
ghost use Rattle.gql_input.specs.Body.{is_variables};
ghost use Rattle.request_core.specs.Load.{IsUsable};

use crate::documents::{Shape, documents_of};
use gql_vectors::BLOG;
use pg_base::Memory;
use plan_steps::Steps;
use request_core::{Asked, Loaded, OwnHouse, Request, asked_of, load, respond_own};
use row_tables::TableSet;
use row_tables::laws::valid_tables_have_form;
use std::alloc::{AllocError, Global};
use std::marker::Brand;
use std::sync::Arc;
use std::sync::ledger::{Blank, Ledger};
use stmt_run::MemRows;

/// How many changes the journal of the house has at most.
const MOST_CHANGES: u64 = 1_000_000;

/// A house over the tables of a script.
fn house_over(alloc: Global, over: &Loaded) -> Result<OwnHouse, Memory>
    requires { IsUsable (arc_value over.now.base) over.now.tables }
{
    valid_tables_have_form(&over.tables);
    let set = TableSet::of(alloc, over.base.catalog(), &over.tables)?;
    let base = Arc::try_clone(&over.base)?;
    OwnHouse::make(alloc, base, set, MOST_CHANGES)
}

/// What a document asks without variables.
fn asked_by(alloc: Global, document: &str) -> Result<Asked, Memory>
    ensures { IfOk result (λ asked. is_variables (view asked.variables) ≡ true) }
{
    let request = Request {
        document: document.as_bytes(),
        operation: None,
        variables: None,
    };
    match asked_of(alloc, request) {
        Ok(asked) => Ok(asked),
        Err(_) => Err(AllocError),
    }
}

/// Whether a plan is made for a document.
fn is_planned<L: Ledger>(
    alloc: Global,
    house: &mut OwnHouse,
    document: &str,
    rows: &mut MemRows,
    plans: &mut Steps<L>,
) -> Result<bool, Memory> {
    let asked = asked_by(alloc, document)?;
    let reply = respond_own(alloc, house, &asked, rows, plans);
    Ok(reply.planned)
}

/// For how many of the documents, asked one after the other, a plan is made.
fn planned_in_round<L: Ledger>(
    alloc: Global,
    house: &mut OwnHouse,
    documents: &[String],
    rows: &mut MemRows,
    plans: &mut Steps<L>,
) -> Result<u64, Memory> {
    let mut count = 0u64;
    for document in documents {
        if is_planned(alloc, house, document.as_str(), rows, plans)? {
            count = count.saturating_add(1);
        }
    }
    Ok(count)
}

/// The same over so many rounds, on a new house.
fn planned_over<L: Ledger>(
    alloc: Global,
    over: &Loaded,
    documents: &[String],
    rounds: u32,
    blank: Blank,
) -> Result<u64, Memory>
    requires usable { IsUsable (arc_value over.now.base) over.now.tables }
    requires name { blank.name ≡ L.name }
    requires parts { blank.parts ≡ L.parts }
    requires one { L.parts ≡ 1 }
{
    let mut house = house_over(alloc, over)?;
    let mut rows = MemRows::new(alloc);
    let mut plans = Steps::<L>::new(blank);
    let mut count = 0u64;
    for _ in 0..rounds {
        let more = planned_in_round(alloc, &mut house, documents, &mut rows, &mut plans)?;
        count = count.saturating_add(more);
    }
    Ok(count)
}

/// For how many requests a plan is made, where so many documents of a shape are asked so often, over a few rows.
pub fn answered(alloc: Global, shape: Shape, documents: u32, rounds: u32) -> Result<u64, Memory> {
    let documents = documents_of(alloc, shape, documents)?;
    let Ok(over) = load(alloc, BLOG.as_bytes()) else {
        return Err(AllocError);
    };
    planned_over::<Brand>(alloc, &over, documents.as_slice(), rounds, Blank::new(1))
}
