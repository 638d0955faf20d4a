//! Argument names (5.4.1).

ghost use Rattle.std.specs.Prelude.{◌≡◌, option_map};
ghost use Rattle.gql_nodes.specs.Listed.{view};
ghost use Rattle.gql_validate.specs.ArgumentNames as spec;

use gql_nodes::Node;
use gql_types::arg_named;
use pg_base::{ArgDef, Text};

fn is_unknown(defs: Option<&[ArgDef]>, name: &Text) -> bool
    ensures { result ≡ spec.is_unknown (option_map (λ x. x.now) defs.entry) name.now }
{
    match defs {
        None => false,
        Some(all) => arg_named(all, name).is_none(),
    }
}

/// Whether the node breaks the rule.
pub(crate) fn breaks(node: &Node<'_>) -> bool
    ensures { result ≡ spec.breaks (view node.now) }
{
    match node {
        Node::Definition { .. } => false,
        Node::Variable { .. } => false,
        Node::Field { .. } => false,
        Node::Spread { .. } => false,
        Node::Inline { .. } => false,
        Node::Directive { .. } => false,
        Node::Argument { defs, argument, .. } => is_unknown(*defs, &argument.name),
        Node::Value { .. } => false,
        Node::ObjectField { .. } => false,
    }
}
