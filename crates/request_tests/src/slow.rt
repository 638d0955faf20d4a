//! The response to a query by plain recursion over lists of rows, beside which the one by statements is laid.

use gql_collect::collect;
use gql_input::{chosen_operation, coerce_vars, read_variables};
use gql_reader::{Definition, Document, OperationDefinition, read_document};
use list_execution::execute;
use pg_base::limits::MOST_PLACES;
use pg_base::{Base, Text, Vars};
use rel_model::Tables;
use request_core::Request;
use response_text::response_of;
use std::alloc::Global;
use std::test::Fail;

/// The variables of an operation.
fn vars_of(
    alloc: Global,
    base: &Base,
    operation: &OperationDefinition,
    variables: Option<&[u8]>,
) -> Result<Vars, Fail> {
    let Ok(given) = read_variables(alloc, variables.unwrap_or("null".as_bytes())) else {
        return Err("no variables".into());
    };
    match coerce_vars(alloc, base.schema(), operation, &given) {
        Ok(vars) => Ok(vars),
        Err(_) => Err("a variable has no value".into()),
    }
}

/// The place of the operation that a request means.
fn place_of(alloc: Global, document: &Document, name: Option<&str>) -> Result<usize, Fail> {
    let place = match name {
        Some(name) => {
            let name = Text::of(alloc, name)?;
            chosen_operation(document, Some(&name))
        }
        None => chosen_operation(document, None),
    };
    Ok(place.ok_or("no operation")?)
}

/// The response to a query that isn't refused before it is executed.
pub(crate) fn by_lists(
    alloc: Global,
    base: &Base,
    tables: &Tables,
    request: Request<'_>,
) -> Result<String, Fail> {
    let Ok(document) = read_document(alloc, request.document) else {
        return Err("no document".into());
    };
    let place = place_of(alloc, &document, request.operation)?;
    let Some(Definition::Operation(operation)) = document.definitions.get(place) else {
        return Err("no operation".into());
    };
    let vars = vars_of(alloc, base, operation, request.variables)?;
    let Ok(tree) = collect(alloc, base.schema(), &document, place, &vars) else {
        return Err("no tree".into());
    };
    if MOST_PLACES < tree.places.len() {
        return Err("too many places".into());
    }
    let Ok(events) = execute(alloc, base, tables, &vars, &tree) else {
        return Err("no data".into());
    };
    let Ok(text) = response_of(alloc, events.as_slice()) else {
        return Err("no response".into());
    };
    let text = str::from_utf8(text.bytes()).map_err(|_| "no text")?;
    Ok(String::from_str(alloc, text)?)
}
