//! All variable usages are allowed (5.8.5).

ghost use Rattle.std.specs.Prelude.{◌≡◌, ◌&&◌, option_map};
ghost use Rattle.gql_nodes.specs.Uses as uses;
ghost use Rattle.gql_types.specs.Positions.{ty_at, ty_if};
ghost use Rattle.gql_scopes.specs.Conditions.{if_some};
ghost use Rattle.gql_scopes.specs.Tables.{row, has, found_variable};
ghost use Rattle.gql_scopes.specs.Tests as tests;
ghost use Rattle.gql_nodes.specs.Listed.{view};
ghost use Rattle.gql_scopes.specs.AllVariableUsagesAreAllowed as spec;

use crate::compatible::is_refused;
use crate::tables::Tables;
use crate::uses::variable_name;
use gql_nodes::Node;
use gql_reader::{Definition, Document, Value, VariableDefinition};
use gql_types::Position;
use pg_base::{Schema, Text};

fn refuses(schema: &Schema, position: Position<'_>, variable: Option<&VariableDefinition>) -> bool
    ensures { result ≡ if_some (spec.is_refused schema.now (ty_at position.entry))
        (option_map (λ v. v.now) variable.entry) }
{
    match variable {
        None => false,
        Some(found) => is_refused(schema, position, found),
    }
}

/// Whether the definition is an operation that reaches the place and has the variable with a type that isn't allowed.
fn is_misused_in(
    schema: &Schema,
    tables: &Tables,
    at: (usize, usize),
    definition: &Definition,
    position: Position<'_>,
    name: &Text,
) -> bool
    ensures { result ≡ if_some (λ o. has (row tables.now.reached at.0) at.1
        && if_some (spec.is_refused schema.now (ty_at position.entry))
        (found_variable tables.now at.0 o name.now)) (uses.as_operation definition.now) }
{
    match definition {
        Definition::Operation(operation) => {
            tables.reaches(at.0, at.1)
                && refuses(schema, position, tables.variable(at.0, operation, name))
        }
        Definition::Fragment(_) => false,
        Definition::Foreign(_) => false,
    }
}

fn is_misused(
    schema: &Schema,
    document: &Document,
    tables: &Tables,
    within: usize,
    position: Position<'_>,
    name: &Text,
) -> bool
    ensures { result ≡ tests.is_misused schema.now document.now tables.now within
        (ty_at position.entry) name.now }
{
    for (place, definition) in document.definitions.as_slice().iter().enumerate() {
        if is_misused_in(schema, tables, (place, within), definition, position, name) {
            return true;
        }
    }
    false
}

fn is_misused_use(
    schema: &Schema,
    document: &Document,
    tables: &Tables,
    within: usize,
    position: Position<'_>,
    value: &Value,
) -> bool
    ensures { result ≡ if_some
        (tests.is_misused schema.now document.now tables.now within (ty_at position.entry))
        (uses.variable_name value.now.kind) }
{
    match variable_name(value) {
        None => false,
        Some(name) => is_misused(schema, document, tables, within, position, name),
    }
}

fn is_misused_at(
    schema: &Schema,
    document: &Document,
    tables: &Tables,
    within: usize,
    ty: Option<Position<'_>>,
    value: &Value,
) -> bool
    ensures { result ≡ if_some (λ position.
        if_some (tests.is_misused schema.now document.now tables.now within position)
        (uses.variable_name value.now.kind)) (ty_if ty.entry) }
{
    match ty {
        None => false,
        Some(position) => is_misused_use(schema, document, tables, within, position, value),
    }
}

/// Whether the node breaks the rule.
pub(crate) fn breaks(
    schema: &Schema,
    document: &Document,
    tables: &Tables,
    within: usize,
    node: &Node<'_>,
) -> bool
    ensures { result ≡ tests.misuses schema.now document.now tables.now within (view node.now) }
{
    match node {
        Node::Definition { .. } => false,
        Node::Variable { .. } => false,
        Node::Field { .. } => false,
        Node::Spread { .. } => false,
        Node::Inline { .. } => false,
        Node::Directive { .. } => false,
        Node::Argument { .. } => false,
        Node::Value { ty, value } => is_misused_at(schema, document, tables, within, *ty, value),
        Node::ObjectField { .. } => false,
    }
}
