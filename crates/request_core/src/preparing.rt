//! What a request comes to before a store is asked: its first refusal, or the tree of its query.

ghost use Rattle.std.specs.Prelude.{◌≡◌, None, Some, Err, IfOk, option_map};
ghost use Rattle.serde_json.specs.Data.{Data};
ghost use Rattle.serde_json.specs.View.{view};
ghost use Rattle.gql_input.specs.declared.body.BodyError.TheVariants.{NoVariables};
ghost use Rattle.gql_input.specs.Chosen.{chosen};
ghost use Rattle.gql_input.specs.Coerced.{coerced};
ghost use Rattle.pg_base.specs.SchemaFaults.{build_fault};
ghost use Rattle.request_core.specs.Asked.{asked_parts};
ghost use Rattle.request_core.specs.Prepared as spec;
ghost use Rattle.request_core.specs.Request as order;

use crate::asked::Asked;
use crate::refusals::{
    bad_body, no_mutation, no_operation, read_refusal, rule_refusal, too_many, variable_refusal,
};
use crate::request::Request;
use fitting_trees::laws::{query_trees_have_no_mutations, valid_trees_are_plannable};
use gql_collect::{CollectFault, collect};
use gql_input::{BodyError, VarError, chosen_operation, coerce_vars, read_variables};
use gql_nodes::RuleError;
use gql_reader::{
    Definition, Document, OperationDefinition, OperationKind, ReadFault, read_document,
};
use gql_rules::check_document;
use pg_base::{Base, Blob, Memory, Text, Vars};
use place_tree::Tree;
use serde_json::Value as Json;
use std::alloc::{AllocError, Global};

/// What a request comes to before a store is asked.
#[derive(Drop)]
pub enum Prepared {
    /// It is refused, with this response.
    Refused(Blob),
    /// It asks for this tree, with these variables.
    Accepted(Tree, Vars),
}

/// The tree of the operation at a place of the document.
fn with_tree(
    alloc: Global,
    base: &Base,
    document: &Document,
    place: usize,
    vars: Vars,
) -> Result<Prepared, Memory>
    ensures { IfOk result (λ prepared. spec.Prepares base.now prepared document.now place vars) }
{
    match collect(alloc, base.schema(), document, place, &vars) {
        Ok(tree) => Ok(Prepared::Accepted(tree, vars)),
        Err(CollectFault::TooMany) => Ok(Prepared::Refused(too_many(alloc)?)),
        Err(CollectFault::Memory) => Err(AllocError),
    }
}

/// From the variables on.
fn with_variables(
    alloc: Global,
    base: &Base,
    document: &Document,
    place: usize,
    operation: &OperationDefinition,
    given: &Json,
) -> Result<Prepared, Memory>
    ensures { IfOk result (λ prepared. order.AfterVariables (spec.IsRefused prepared)
        (spec.Prepares base.now prepared document.now place)
        (coerced base.now.schema operation.now (view given.now))) }
{
    match coerce_vars(alloc, base.schema(), operation, given) {
        Ok(vars) => with_tree(alloc, base, document, place, vars),
        Err(VarError::Fault(fault)) => Ok(Prepared::Refused(variable_refusal(alloc, &fault)?)),
        Err(VarError::Memory) => Err(AllocError),
    }
}

/// From the kind of the operation on.
fn with_kind(
    alloc: Global,
    base: &Base,
    document: &Document,
    place: usize,
    operation: &OperationDefinition,
    given: &Json,
) -> Result<Prepared, Memory>
    ensures { IfOk result (λ prepared. order.WithKind (spec.IsRefused prepared)
        (spec.Prepares base.now prepared document.now place)
        (coerced base.now.schema operation.now (view given.now))
        operation.now.kind) }
{
    match operation.kind {
        OperationKind::Query => with_variables(alloc, base, document, place, operation, given),
        OperationKind::Mutation => Ok(Prepared::Refused(no_mutation(alloc)?)),
        OperationKind::Subscription => {
            with_variables(alloc, base, document, place, operation, given)
        }
    }
}

/// From the operation on, which is to stand at the place.
fn with_operation(
    alloc: Global,
    base: &Base,
    document: &Document,
    place: usize,
    given: &Json,
) -> Result<Prepared, Memory>
    ensures { IfOk result (λ prepared. order.AfterChoice base.now.schema (view given.now)
        document.now (spec.IsRefused prepared)
        (spec.Prepares base.now prepared document.now)
        (Some place)) }
{
    match document.definitions.get(place) {
        Some(Definition::Operation(operation)) => {
            with_kind(alloc, base, document, place, operation, given)
        }
        Some(Definition::Fragment(_)) => Ok(Prepared::Refused(no_operation(alloc)?)),
        Some(Definition::Foreign(_)) => Ok(Prepared::Refused(no_operation(alloc)?)),
        None => Ok(Prepared::Refused(no_operation(alloc)?)),
    }
}

/// From the choice of the operation on.
fn with_choice(
    alloc: Global,
    base: &Base,
    document: &Document,
    place: Option<usize>,
    given: &Json,
) -> Result<Prepared, Memory>
    ensures { IfOk result (λ prepared. order.AfterChoice base.now.schema (view given.now)
        document.now (spec.IsRefused prepared)
        (spec.Prepares base.now prepared document.now) place) }
{
    match place {
        Some(place) => with_operation(alloc, base, document, place, given),
        None => Ok(Prepared::Refused(no_operation(alloc)?)),
    }
}

/// The name of an operation, as a text.
pub(crate) fn name_of(alloc: Global, operation: Option<&str>) -> Result<Option<Text>, Memory>
    ensures { IfOk result (λ name. name ≡ option_map (λ n. n.now) operation.entry) }
{
    match operation {
        Some(name) => {
            let name = Text::of(alloc, name)?;
            Ok(Some(name))
        }
        None => Ok(None),
    }
}

/// From a valid document on.
fn with_valid(
    alloc: Global,
    base: &Base,
    operation: Option<&Text>,
    document: &Document,
    given: &Json,
) -> Result<Prepared, Memory>
    ensures { IfOk result (λ prepared. order.AfterChoice base.now.schema (view given.now)
        document.now (spec.IsRefused prepared)
        (spec.Prepares base.now prepared document.now)
        (chosen document.now (option_map (λ n. n.now) operation.entry))) }
{
    let place = chosen_operation(document, operation);
    with_choice(alloc, base, document, place, given)
}

/// From the rules on.
fn with_document(
    alloc: Global,
    base: &Base,
    operation: Option<&Text>,
    document: &Document,
    given: &Json,
) -> Result<Prepared, Memory>
    ensures { IfOk result (λ prepared. order.AfterReading base.now.schema
        (option_map (λ n. n.now) operation.entry) (view given.now) (spec.IsRefused prepared)
        (spec.Prepares base.now prepared document.now)
        document.now) }
{
    match check_document(alloc, base.schema(), document) {
        Ok(()) => with_valid(alloc, base, operation, document, given),
        Err(RuleError::Fault(fault)) => Ok(Prepared::Refused(rule_refusal(alloc, fault)?)),
        Err(RuleError::Memory) => Err(AllocError),
    }
}

/// From the document's bytes on.
fn with_given(
    alloc: Global,
    base: &Base,
    text: &[u8],
    operation: Option<&Text>,
    given: &Json,
) -> Result<Prepared, Memory>
    ensures { IfOk result (λ prepared. order.AfterBody base.now.schema
        (order.asked text.now (option_map (λ n. n.now) operation.entry) None)
        (spec.IsRefused prepared) (spec.Prepares base.now prepared) (view given.now)) }
{
    match read_document(alloc, text) {
        Ok(document) => with_document(alloc, base, operation, &document, given),
        Err(ReadFault::At { which, pos }) => Ok(Prepared::Refused(read_refusal(
            alloc, which, pos,
        )?)),
        Err(ReadFault::Memory) => Err(AllocError),
    }
}

/// The same, where the name of the operation is still to be copied.
fn with_name(
    alloc: Global,
    base: &Base,
    text: &[u8],
    operation: Option<&str>,
    given: &Json,
) -> Result<Prepared, Memory>
    ensures { IfOk result (λ prepared. order.AfterBody base.now.schema
        (order.asked text.now (option_map (λ n. n.now) operation.entry) None)
        (spec.IsRefused prepared) (spec.Prepares base.now prepared) (view given.now)) }
{
    let name = name_of(alloc, operation)?;
    with_given(alloc, base, text, name.as_ref(), given)
}

/// What is given for the variables, where the bytes are some.
pub(crate) fn read_given(alloc: Global, variables: Option<&[u8]>) -> Result<Json, BodyError>
    ensures found { IfOk result (λ given.
        order.AreGiven (option_map (λ b. b.now) variables.entry) (view given)) }
    ensures refused { result ≡ Err NoVariables
        → (d : Data) → ¬ (order.AreGiven (option_map (λ b. b.now) variables.entry) d) }
{
    match variables {
        Some(bytes) => read_variables(alloc, bytes),
        None => Ok(Json::Null),
    }
}

/// What the request comes to: its first refusal, in the order of its variables' bytes, its document's bytes, the rules, the
/// operation, the variables' values and the places of its tree, or else this tree.
fn with_request(alloc: Global, base: &Base, request: Request<'_>) -> Result<Prepared, Memory>
    ensures { IfOk result (spec.IsPrepared base.now (order.request_of request.entry)) }
{
    match read_given(alloc, request.variables) {
        Ok(given) => with_name(alloc, base, request.document, request.operation, &given),
        Err(BodyError::NoVariables) => Ok(Prepared::Refused(bad_body(alloc)?)),
        Err(BodyError::Memory) => Err(AllocError),
    }
}

/// What a request comes to, over a base whose schema has no fault: its first refusal, or its tree, which can then be planned,
/// and is a query's.
///
/// # Errors
/// Out of memory.
pub fn prepare(alloc: Global, base: &Base, request: Request<'_>) -> Result<Prepared, Memory>
    requires faultless { build_fault base.now.catalog ≡ None }
    ensures prepared { IfOk result (spec.IsPrepared base.now (order.request_of request.entry)) }
    ensures may { IfOk result (spec.MayFollow base.now) }
{
    base.know();
    base.catalog().know();
    valid_trees_are_plannable();
    query_trees_have_no_mutations();
    with_request(alloc, base, request)
}

/// What is asked of a house comes to this, from the document's bytes on.
fn with_asked(alloc: Global, base: &Base, asked: &Asked) -> Result<Prepared, Memory>
    ensures { IfOk result (spec.IsPreparedFor base.now (asked_parts asked.now)) }
{
    with_given(
        alloc,
        base,
        asked.query.bytes(),
        asked.operation.as_ref(),
        &asked.variables,
    )
}

/// The same, where the schema has no fault: a tree that is accepted can then be planned, is a query's, and is the one for
/// which a plan is looked for.
pub(crate) fn prepare_asked(alloc: Global, base: &Base, asked: &Asked) -> Result<Prepared, Memory>
    requires faultless { build_fault base.now.catalog ≡ None }
    ensures prepared { IfOk result (spec.IsPreparedFor base.now (asked_parts asked.now)) }
    ensures may { IfOk result (spec.MayServe base.now (asked_parts asked.now)) }
{
    base.know();
    base.catalog().know();
    valid_trees_are_plannable();
    query_trees_have_no_mutations();
    with_asked(alloc, base, asked)
}
