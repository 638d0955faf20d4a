//! Values of correct type (5.6.1).

ghost use Rattle.std.specs.Prelude.{◌≡◌, not};
ghost use Rattle.gql_types.specs.Positions.{ty_if};
ghost use Rattle.gql_input.specs.Literals.{fits as can_stand};
ghost use Rattle.gql_scopes.specs.Conditions.{if_some};
ghost use Rattle.gql_nodes.specs.Listed.{view};
ghost use Rattle.gql_scopes.specs.ValuesOfCorrectType as spec;

use gql_input::fits;
use gql_nodes::Node;
use gql_reader::Value;
use gql_types::Position;
use pg_base::Schema;

fn is_misplaced(schema: &Schema, ty: Option<Position<'_>>, value: &Value) -> bool
    ensures { result
        ≡ if_some (λ t. not (can_stand schema.now value.now.kind t)) (ty_if ty.entry) }
{
    match ty {
        None => false,
        Some(at) => !fits(schema, value, at),
    }
}

/// Whether the node breaks the rule.
pub(crate) fn breaks(schema: &Schema, node: &Node<'_>) -> bool
    ensures { result ≡ spec.breaks schema.now (view node.now) }
{
    match node {
        Node::Definition { .. } => false,
        Node::Variable { .. } => false,
        Node::Field { .. } => false,
        Node::Spread { .. } => false,
        Node::Inline { .. } => false,
        Node::Directive { .. } => false,
        Node::Argument { .. } => false,
        Node::Value { ty, value } => is_misplaced(schema, *ty, value),
        Node::ObjectField { .. } => false,
    }
}
