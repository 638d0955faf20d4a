//! Two fields, by their places in the list of nodes: whether they meet, and whether they differ.

ghost use Rattle.std.specs.Prelude.{◌≡◌, option_map, IfOk};
ghost use Rattle.gql_nodes.specs.Listed.{view, views};
ghost use Rattle.gql_validate.specs.FieldSelectionMerging as spec;
ghost use Rattle.gql_validate.specs.Merged.{field_view};

use crate::same_values::are_same_arguments;
use gql_nodes::{At, Node};
use gql_reader::Field;
use pg_base::{Memory, Text};
use std::alloc::Global;

/// A field on its parent type.
#[derive(Clone, Copy)]
pub(crate) struct FieldOn<'a> {
    pub parent: u32,
    pub field: &'a Field,
}

fn on_parent(parent: Option<u32>, field: &Field) -> Option<FieldOn<'_>>
    ensures { option_map field_view result ≡ spec.with_parent parent field.now }
{
    match parent {
        None => None,
        Some(parent) => Some(FieldOn { parent, field }),
    }
}

/// The field that a node is, if it stands on a known parent type.
pub(crate) fn field_on<'a>(node: &Node<'a>) -> Option<FieldOn<'a>>
    ensures { option_map field_view result ≡ spec.field_on (view node.now) }
{
    match node {
        Node::Definition { .. } => None,
        Node::Variable { .. } => None,
        Node::Field { parent, field, .. } => on_parent(*parent, field),
        Node::Spread { .. } => None,
        Node::Inline { .. } => None,
        Node::Directive { .. } => None,
        Node::Argument { .. } => None,
        Node::Value { .. } => None,
        Node::ObjectField { .. } => None,
    }
}

pub(crate) fn field_at<'a>(nodes: &[At<'a>], place: usize) -> Option<FieldOn<'a>>
    ensures { option_map field_view result ≡ spec.field_at (views nodes.now) place }
{
    match nodes.get(place) {
        None => None,
        Some(at) => field_on(&at.node),
    }
}

pub(crate) fn response_key(field: &Field) -> &Text
    ensures { result.now ≡ spec.response_key field.now }
{
    match &field.alias {
        None => &field.name,
        Some(alias) => alias,
    }
}

fn share_key(f: &FieldOn<'_>, g: &FieldOn<'_>) -> bool
    ensures { result ≡ spec.share_key (field_view f.now) (field_view g.now) }
{
    if f.parent == g.parent {
        *response_key(f.field) == *response_key(g.field)
    } else {
        false
    }
}

/// Whether the names and the arguments are the same.
pub(crate) fn are_alike(alloc: Global, f: &Field, g: &Field) -> Result<bool, Memory>
    ensures { IfOk result (λ alike. alike ≡ spec.are_alike f.now g.now) }
{
    if f.name == g.name {
        let same = are_same_arguments(alloc, f.arguments.as_slice(), g.arguments.as_slice())?;
        Ok(same)
    } else {
        Ok(false)
    }
}

fn are_unlike(alloc: Global, f: &FieldOn<'_>, g: &FieldOn<'_>) -> Result<bool, Memory>
    ensures { IfOk result (λ unlike. unlike
        ≡ spec.are_unlike (field_view f.now) (field_view g.now)) }
{
    let alike = are_alike(alloc, f.field, g.field)?;
    Ok(!alike)
}

fn both_share(f: Option<FieldOn<'_>>, g: Option<FieldOn<'_>>) -> bool
    ensures { result ≡ spec.both spec.share_key
        (option_map field_view f.entry) (option_map field_view g.entry) }
{
    match &f {
        None => false,
        Some(first) => match &g {
            None => false,
            Some(second) => share_key(first, second),
        },
    }
}

fn both_unlike(
    alloc: Global,
    f: Option<FieldOn<'_>>,
    g: Option<FieldOn<'_>>,
) -> Result<bool, Memory>
    ensures { IfOk result (λ unlike. unlike ≡ spec.both spec.are_unlike
        (option_map field_view f.entry) (option_map field_view g.entry)) }
{
    match &f {
        None => Ok(false),
        Some(first) => match &g {
            None => Ok(false),
            Some(second) => {
                let unlike = are_unlike(alloc, first, second)?;
                Ok(unlike)
            }
        },
    }
}

/// Whether the two fields have one response key on one parent type, and the second stands later.
pub(crate) fn meet(nodes: &[At<'_>], f: usize, g: usize) -> bool
    ensures { result ≡ spec.meet (views nodes.now) f g }
{
    if f < g {
        both_share(field_at(nodes, f), field_at(nodes, g))
    } else {
        false
    }
}

/// Whether the two fields have other names or other arguments.
pub(crate) fn differ(alloc: Global, nodes: &[At<'_>], f: usize, g: usize) -> Result<bool, Memory>
    ensures { IfOk result (λ unlike. unlike ≡ spec.differ (views nodes.now) f g) }
{
    let unlike = both_unlike(alloc, field_at(nodes, f), field_at(nodes, g))?;
    Ok(unlike)
}
