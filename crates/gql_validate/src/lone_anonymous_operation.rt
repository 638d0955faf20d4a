//! Lone anonymous operation (5.2.2.1).

ghost use Rattle.std.specs.Prelude.{◌≡◌, false};
ghost use Rattle.gql_nodes.specs.Listed.{view};
ghost use Rattle.gql_validate.specs.LoneAnonymousOperation as spec;

use gql_nodes::Node;
use gql_reader::{Definition, Document};

fn is_anonymous(definition: &Definition) -> bool
    ensures { result ≡ spec.is_anonymous definition.now }
{
    match definition {
        Definition::Operation(operation) => operation.name.is_none(),
        Definition::Fragment(_) => false,
        Definition::Foreign(_) => false,
    }
}

fn is_operation(definition: &Definition) -> bool
    ensures { result ≡ spec.is_operation definition.now }
{
    match definition {
        Definition::Operation(_) => true,
        Definition::Fragment(_) => false,
        Definition::Foreign(_) => false,
    }
}

fn are_several(definitions: &[Definition]) -> bool
    ensures { result ≡ spec.has_more false definitions.now }
{
    let mut one = false;
    for definition in definitions {
        if !is_operation(definition) {
            continue;
        }
        if one {
            return true;
        }
        one = true;
    }
    false
}

/// Whether there is more than one operation.
fn has_several(document: &Document) -> bool
    ensures { result ≡ spec.has_several document.now }
{
    are_several(document.definitions.as_slice())
}

/// Whether the node breaks the rule.
pub(crate) fn breaks(document: &Document, node: &Node<'_>) -> bool
    ensures { result ≡ spec.breaks document.now (view node.now) }
{
    match node {
        Node::Definition { definition, .. } => is_anonymous(definition) && has_several(document),
        Node::Variable { .. } => false,
        Node::Field { .. } => false,
        Node::Spread { .. } => false,
        Node::Inline { .. } => false,
        Node::Directive { .. } => false,
        Node::Argument { .. } => false,
        Node::Value { .. } => false,
        Node::ObjectField { .. } => false,
    }
}
