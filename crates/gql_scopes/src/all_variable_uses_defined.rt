//! All variable uses defined (5.8.3).

ghost use Rattle.std.specs.Prelude.{◌≡◌, ◌&&◌, is_none, option_map};
ghost use Rattle.gql_nodes.specs.Uses as uses;
ghost use Rattle.gql_scopes.specs.Conditions.{if_some};
ghost use Rattle.gql_scopes.specs.Tables.{row, has, found_variable};
ghost use Rattle.gql_scopes.specs.Tests as tests;
ghost use Rattle.gql_nodes.specs.Listed.{view};

use crate::tables::Tables;
use crate::uses::variable_name;
use gql_nodes::Node;
use gql_reader::{Definition, Document, OperationDefinition, Value};
use pg_base::Text;

fn lacks(
    tables: &Tables,
    place: usize,
    within: usize,
    operation: &OperationDefinition,
    name: &Text,
) -> bool
    ensures { result ≡ (has (row tables.now.reached place) within
        && is_none (found_variable tables.now place operation.now name.now)) }
{
    tables.reaches(place, within) && tables.variable(place, operation, name).is_none()
}

/// Whether the definition is an operation that reaches the place and doesn't define the variable.
fn is_undefined_in(
    tables: &Tables,
    place: usize,
    within: usize,
    definition: &Definition,
    name: &Text,
) -> bool
    ensures { result ≡ if_some (λ o. has (row tables.now.reached place) within
        && is_none (found_variable tables.now place o name.now))
        (uses.as_operation definition.now) }
{
    match definition {
        Definition::Operation(operation) => lacks(tables, place, within, operation, name),
        Definition::Fragment(_) => false,
        Definition::Foreign(_) => false,
    }
}

fn is_undefined(document: &Document, tables: &Tables, within: usize, name: &Text) -> bool
    ensures { result ≡ tests.is_undefined document.now tables.now within name.now }
{
    for (place, definition) in document.definitions.as_slice().iter().enumerate() {
        if is_undefined_in(tables, place, within, definition, name) {
            return true;
        }
    }
    false
}

fn is_undefined_use(document: &Document, tables: &Tables, within: usize, value: &Value) -> bool
    ensures { result ≡ if_some (tests.is_undefined document.now tables.now within)
        (uses.variable_name value.now.kind) }
{
    match variable_name(value) {
        None => false,
        Some(name) => is_undefined(document, tables, within, name),
    }
}

/// Whether the node breaks the rule.
pub(crate) fn breaks(document: &Document, tables: &Tables, within: usize, node: &Node<'_>) -> bool
    ensures { result ≡ tests.uses_undefined document.now tables.now within (view node.now) }
{
    match node {
        Node::Definition { .. } => false,
        Node::Variable { .. } => false,
        Node::Field { .. } => false,
        Node::Spread { .. } => false,
        Node::Inline { .. } => false,
        Node::Directive { .. } => false,
        Node::Argument { .. } => false,
        Node::Value { value, .. } => is_undefined_use(document, tables, within, value),
        Node::ObjectField { .. } => false,
    }
}
