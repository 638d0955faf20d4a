//! What spreads and values name.

ghost use Rattle.std.specs.Prelude.{◌≡◌, option_map, option_and_then};
ghost use Rattle.gql_nodes.specs.Listed.{view};
ghost use Rattle.gql_nodes.specs.Uses as spec;

use gql_nodes::Node;
use gql_reader::{Definition, Document, FragmentDefinition, Value, ValueKind};
use pg_base::Text;

/// The name of the fragment that a spread spreads.
pub(crate) fn spread_name<'a>(node: &Node<'a>) -> Option<&'a Text>
    ensures { option_map (λ name. name.now) result ≡ spec.spread_name (view node.now) }
{
    match node {
        Node::Definition { .. } => None,
        Node::Variable { .. } => None,
        Node::Field { .. } => None,
        Node::Spread { spread, .. } => Some(&spread.name),
        Node::Inline { .. } => None,
        Node::Directive { .. } => None,
        Node::Argument { .. } => None,
        Node::Value { .. } => None,
        Node::ObjectField { .. } => None,
    }
}

/// The name of the variable that a value is.
pub(crate) fn variable_name(value: &Value) -> Option<&Text>
    ensures { option_map (λ name. name.now) result ≡ spec.variable_name value.now.kind }
{
    match &value.kind {
        ValueKind::Variable(name) => Some(name),
        ValueKind::Int(_) => None,
        ValueKind::Float(_) => None,
        ValueKind::String(_) => None,
        ValueKind::Boolean(_) => None,
        ValueKind::Null => None,
        ValueKind::Enum(_) => None,
        ValueKind::List(_) => None,
        ValueKind::Object(_) => None,
    }
}

/// The name of the variable that a node uses.
pub(crate) fn used_name<'a>(node: &Node<'a>) -> Option<&'a Text>
    ensures { option_map (λ name. name.now) result ≡ spec.used_name (view node.now) }
{
    match node {
        Node::Definition { .. } => None,
        Node::Variable { .. } => None,
        Node::Field { .. } => None,
        Node::Spread { .. } => None,
        Node::Inline { .. } => None,
        Node::Directive { .. } => None,
        Node::Argument { .. } => None,
        Node::Value { value, .. } => variable_name(value),
        Node::ObjectField { .. } => None,
    }
}

fn as_fragment(definition: Option<&Definition>) -> Option<&FragmentDefinition>
    ensures { option_map (λ f. f.now) result
        ≡ option_and_then spec.as_fragment (option_map (λ d. d.now) definition.entry) }
{
    match definition {
        None => None,
        Some(Definition::Operation(_)) => None,
        Some(Definition::Fragment(fragment)) => Some(fragment),
        Some(Definition::Foreign(_)) => None,
    }
}

/// The fragment at the place.
pub(crate) fn fragment_at(document: &Document, place: usize) -> Option<&FragmentDefinition>
    ensures { option_map (λ f. f.now) result ≡ spec.fragment_at document.now place }
{
    as_fragment(document.definitions.get(place))
}
