//! Input object field names (5.6.2).

ghost use Rattle.std.specs.Prelude.{◌≡◌, is_none, option_map};
ghost use Rattle.gql_types.specs.Types.{arg_named as found};
ghost use Rattle.gql_scopes.specs.Conditions.{if_some};
ghost use Rattle.gql_nodes.specs.Listed.{view};
ghost use Rattle.gql_scopes.specs.InputObjectFieldNames as spec;

use gql_nodes::Node;
use gql_types::arg_named;
use pg_base::{ArgDef, Text};

fn is_unknown(defs: Option<&[ArgDef]>, name: &Text) -> bool
    ensures { result
        ≡ if_some (λ d. is_none (found d name.now)) (option_map (λ d. d.now) defs.entry) }
{
    match defs {
        None => false,
        Some(all) => arg_named(all, name).is_none(),
    }
}

/// Whether the node breaks the rule.
pub(crate) fn breaks(node: &Node<'_>) -> bool
    ensures { result ≡ spec.breaks (view node.now) }
{
    match node {
        Node::Definition { .. } => false,
        Node::Variable { .. } => false,
        Node::Field { .. } => false,
        Node::Spread { .. } => false,
        Node::Inline { .. } => false,
        Node::Directive { .. } => false,
        Node::Argument { .. } => false,
        Node::Value { .. } => false,
        Node::ObjectField { defs, field, .. } => is_unknown(*defs, &field.name),
    }
}
