//! The nodes of a document.

ghost use Rattle.std.specs.Prelude.{◌≡◌};
ghost use Rattle.gql_nodes.specs.Nodes.{pos_of, definition_pos};
ghost use Rattle.gql_nodes.specs.Listed.{view};

use crate::fields::Known;
use gql_reader::{
    Argument, Definition, Directive, Field, FragmentSpread, InlineFragment, ObjectField, Value,
    VariableDefinition,
};
use gql_types::Position;
use pg_base::{ArgDef, Pos};

/// Where a directive stands.
#[derive(Clone, Copy, Debug, PartialEq, Eq)]
pub enum Location {
    Field,
    FragmentSpread,
    InlineFragment,
    /// On an operation, a fragment or a variable.
    Other,
}

/// A node with what rules ask of its surroundings. `repeated` tells whether a sibling before it has its name. `owner` is
/// the place in the list of the node in whose selection set a selection stands. A parent type, what the parent type has
/// by the name, the arguments or input fields that may stand there, and an expected type are `None` where they aren't
/// known.
#[derive(Clone, Copy)]
pub enum Node<'a> {
    Definition {
        repeated: bool,
        definition: &'a Definition,
    },
    Variable {
        repeated: bool,
        variable: &'a VariableDefinition,
    },
    Field {
        owner: usize,
        parent: Option<u32>,
        known: Option<Known<'a>>,
        field: &'a Field,
    },
    Spread {
        owner: usize,
        parent: Option<u32>,
        spread: &'a FragmentSpread,
    },
    Inline {
        owner: usize,
        parent: Option<u32>,
        inline: &'a InlineFragment,
    },
    Directive {
        repeated: bool,
        location: Location,
        defs: Option<&'a [ArgDef]>,
        directive: &'a Directive,
    },
    Argument {
        repeated: bool,
        defs: Option<&'a [ArgDef]>,
        argument: &'a Argument,
    },
    Value {
        ty: Option<Position<'a>>,
        value: &'a Value,
    },
    ObjectField {
        repeated: bool,
        defs: Option<&'a [ArgDef]>,
        field: &'a ObjectField,
    },
}

/// A node, and the place in the document of the definition in which it stands.
#[derive(Clone, Copy)]
pub struct At<'a> {
    pub within: usize,
    pub node: Node<'a>,
}

fn position_of_definition(definition: &Definition) -> Pos
    ensures { result ≡ definition_pos definition.now }
{
    match definition {
        Definition::Operation(operation) => operation.pos,
        Definition::Fragment(fragment) => fragment.pos,
        Definition::Foreign(pos) => *pos,
    }
}

/// Where a node stands.
pub fn position_of(node: &Node<'_>) -> Pos
    ensures { result ≡ pos_of (view node.now) }
{
    match node {
        Node::Definition { definition, .. } => position_of_definition(definition),
        Node::Variable { variable, .. } => variable.pos,
        Node::Field { field, .. } => field.pos,
        Node::Spread { spread, .. } => spread.pos,
        Node::Inline { inline, .. } => inline.pos,
        Node::Directive { directive, .. } => directive.pos,
        Node::Argument { argument, .. } => argument.pos,
        Node::Value { value, .. } => value.pos,
        Node::ObjectField { field, .. } => field.pos,
    }
}
