//! Requests of files, on a house.

ghost use Rattle.std.specs.Prelude.{◌≡◌, Err, [], List, IfOk, true};
ghost use Rattle.serde_json.specs.Data.{Data};
ghost use Rattle.serde_json.specs.View.{view};
ghost use Rattle.gql_input.specs.Body.{is_variables};
ghost use Rattle.gql_input.specs.declared.body.BodyError.TheVariants.{NoVariables};
ghost use Rattle.rel_model.specs.declared.tables.Tables.{Tables};
ghost use Rattle.stmt_run.specs.Store.{SnapshotParts, HoldsFor};
ghost use Rattle.planned_response.specs.Responses.{AreTold};
ghost use Rattle.request_core.specs.Answer.{IsAnswer};
ghost use Rattle.http_sessions.specs.declared.reply.ReplyBytes.TheVariants.{Made};
ghost use Rattle.request_core.specs.Asked.{asked_parts, IsAskedBy, IsAnswerTo};
ghost use Rattle.request_core.specs.Explained.{IsExplained, Refuses};
ghost use Rattle.request_core.specs.Refusals as refusal;
ghost use Rattle.request_core.specs.Request.{request_of, AreGiven};

use crate::asked::Asked;
use crate::explaining::{Explanation, explained};
use crate::house::OwnHouse;
use crate::preparing::{name_of, read_given};
use crate::refusals::bad_body;
use crate::request::Request;
use crate::responding::respond_own;
use gql_input::BodyError;
use http_sessions::{Reply, ReplyBytes};
use pg_base::{Blob, Memory};
use plan_steps::Steps;
use serde_json::Value as Json;
use std::alloc::{AllocError, Global};
use std::sync::ledger::Ledger;
use stmt_run::Snapshot;
use stmt_tree::Rows;

/// What a request asks, with these values of its variables.
fn asked_with(alloc: Global, request: Request<'_>, variables: Json) -> Result<Asked, Memory>
    ensures text { IfOk result (λ a. a.query ≡ (request_of request.entry).document) }
    ensures operation { IfOk result (λ a. a.operation ≡ (request_of request.entry).operation) }
    ensures variables { IfOk result (λ a. view a.variables ≡ view variables) }
{
    let text = Vec::from_slice(alloc, request.document)?;
    let operation = name_of(alloc, request.operation)?;
    Ok(Asked {
        query: Blob::of(text),
        operation,
        variables,
    })
}

/// What a request asks, where its variables' bytes spell some.
pub fn asked_of(alloc: Global, request: Request<'_>) -> Result<Asked, BodyError>
    ensures asked { IfOk result (λ a. IsAskedBy (request_of request.entry) (asked_parts a)) }
    ensures shape { IfOk result (λ a. is_variables (view a.variables) ≡ true) }
    ensures refused { result ≡ Err NoVariables
        → (d : Data) → ¬ (AreGiven (request_of request.entry).variables d) }
{
    match read_given(alloc, request.variables) {
        Ok(variables) => match asked_with(alloc, request, variables) {
            Ok(asked) => Ok(asked),
            Err(AllocError) => Err(BodyError::Memory),
        },
        Err(BodyError::NoVariables) => Err(BodyError::NoVariables),
        Err(BodyError::Memory) => Err(BodyError::Memory),
    }
}

/// The text of a reply, where there was memory for it.
fn reply_text(reply: Reply) -> Result<Blob, Memory>
    ensures { IfOk result (λ text. reply.bytes ≡ Made text) }
{
    match reply.bytes {
        ReplyBytes::Made(text) => Ok(text),
        ReplyBytes::NoMemory => Err(AllocError),
    }
}

/// The text of the reply to what is asked.
fn answer_asked<R: Rows<At = Snapshot>, L: Ledger>(
    alloc: Global,
    house: &mut OwnHouse,
    asked: &Asked,
    rows: &mut R,
    plans: &mut Steps<L>,
) -> Result<Blob, Memory>
    requires variables { is_variables (view asked.now.variables) ≡ true }
    requires served { (at : SnapshotParts) → HoldsFor house.old.base.catalog at
        → R.serves rows.old at house.old.base.catalog }
    ensures { (tables : Tables)
        → AreTold house.old.base.catalog (R.tables_of rows.old house.old.opened) tables
        → R.faults rows.new ≡ 0 → IfOk result (IsAnswerTo house.old.base tables
        (asked_parts asked.now)) }
{
    house.know();
    let reply = respond_own(alloc, house, asked, rows, plans);
    reply_text(reply)
}

/// The text of the reply to a request of files: it is refused where its variables' bytes spell none, and else asked of the
/// house. Over a store that never fails it is the answer to the request over the house's tables.
///
/// # Errors
/// Out of memory.
pub fn answer_own<R: Rows<At = Snapshot>, L: Ledger>(
    alloc: Global,
    house: &mut OwnHouse,
    request: Request<'_>,
    rows: &mut R,
    plans: &mut Steps<L>,
) -> Result<Blob, Memory>
    requires served { (at : SnapshotParts) → HoldsFor house.old.base.catalog at
        → R.serves rows.old at house.old.base.catalog }
    ensures { (tables : Tables)
        → AreTold house.old.base.catalog (R.tables_of rows.old house.old.opened) tables
        → R.faults rows.new ≡ 0
        → IfOk result (IsAnswer house.old.base tables (request_of request.entry)) }
{
    match asked_of(alloc, request) {
        Ok(asked) => answer_asked(alloc, house, &asked, rows, plans),
        Err(BodyError::NoVariables) => bad_body(alloc),
        Err(BodyError::Memory) => Err(AllocError),
    }
}

/// The refusal of bytes that spell no variables.
fn bad_explanation(alloc: Global) -> Result<Explanation, Memory>
    ensures { IfOk result (λ x. Refuses x refusal.bad_body) }
{
    let text = bad_body(alloc)?;
    Ok(Explanation::Refused(text))
}

/// What serves a request of files, explained, on a house that keeps no plan yet: it is refused where its variables' bytes
/// spell none, and else the plan is made that would serve it.
///
/// # Errors
/// Out of memory.
pub fn explain_own<L: Ledger>(
    alloc: Global,
    house: &OwnHouse,
    request: Request<'_>,
    plans: &mut Steps<L>,
) -> Result<Explanation, Memory>
    requires { house.now.shelf.entries ≡ [] }
    ensures { IfOk result (IsExplained house.now.base (request_of request.entry)) }
{
    house.know();
    match asked_of(alloc, request) {
        Ok(asked) => explained(alloc, house, &asked, plans),
        Err(BodyError::NoVariables) => bad_explanation(alloc),
        Err(BodyError::Memory) => Err(AllocError),
    }
}
