//! Required arguments (5.4.2.1).

ghost use Rattle.std.specs.Prelude.{◌≡◌, option_map};
ghost use Rattle.gql_nodes.specs.Listed.{view};
ghost use Rattle.std.specs.List.{list_any};
ghost use Rattle.gql_nodes.specs.Listed.{known_at};
ghost use Rattle.gql_nodes.specs.Fields.{args_of};
ghost use Rattle.gql_validate.specs.RequiredArguments as spec;

use gql_nodes::{Known, Node};
use gql_reader::{Argument, ValueKind};
use pg_base::{ArgDef, Text};

fn is_null(kind: &ValueKind) -> bool
    ensures { result ≡ spec.is_null kind.now }
{
    match kind {
        ValueKind::Variable(_) => false,
        ValueKind::Int(_) => false,
        ValueKind::Float(_) => false,
        ValueKind::String(_) => false,
        ValueKind::Boolean(_) => false,
        ValueKind::Null => true,
        ValueKind::Enum(_) => false,
        ValueKind::List(_) => false,
        ValueKind::Object(_) => false,
    }
}

fn gives(name: &Text, argument: &Argument) -> bool
    ensures { result ≡ spec.gives name.now argument.now }
{
    if argument.name == *name {
        !is_null(&argument.value.kind)
    } else {
        false
    }
}

fn is_given(arguments: &[Argument], name: &Text) -> bool
    ensures { result ≡ list_any (spec.gives name.now) arguments.now }
{
    arguments.iter().any(|argument| gives(name, argument))
}

fn is_lacking(arguments: &[Argument], def: &ArgDef) -> bool
    ensures { result ≡ spec.is_lacking arguments.now def.now }
{
    if def.ty.not_null {
        !is_given(arguments, &def.name)
    } else {
        false
    }
}

fn lacks_any(arguments: &[Argument], defs: &[ArgDef]) -> bool
    ensures { result ≡ list_any (spec.is_lacking arguments.now) defs.now }
{
    defs.iter().any(|def| is_lacking(arguments, def))
}

fn lacks(arguments: &[Argument], defs: Option<&[ArgDef]>) -> bool
    ensures { result ≡ spec.lacks arguments.now (option_map (λ x. x.now) defs.entry) }
{
    match defs {
        None => false,
        Some(all) => lacks_any(arguments, all),
    }
}

fn lacks_known(arguments: &[Argument], known: Option<Known<'_>>) -> bool
    ensures { result ≡ spec.lacks arguments.now (args_of (option_map known_at known.entry)) }
{
    match known {
        None => false,
        Some(field) => lacks_any(arguments, field.args),
    }
}

/// Whether the node breaks the rule.
pub(crate) fn breaks(node: &Node<'_>) -> bool
    ensures { result ≡ spec.breaks (view node.now) }
{
    match node {
        Node::Definition { .. } => false,
        Node::Variable { .. } => false,
        Node::Field { known, field, .. } => lacks_known(field.arguments.as_slice(), *known),
        Node::Spread { .. } => false,
        Node::Inline { .. } => false,
        Node::Directive {
            defs,
            directive,
            ..
        } => lacks(directive.arguments.as_slice(), *defs),
        Node::Argument { .. } => false,
        Node::Value { .. } => false,
        Node::ObjectField { .. } => false,
    }
}
