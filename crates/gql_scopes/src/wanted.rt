//! The definitions of which it is asked what they reach.

ghost use Rattle.std.specs.Prelude.{◌≡◌, ◌<◌, ◌||◌, ◌==◌, ℕ, true, if◌then◌else◌, length, IfOk, is_some, option_map, option_and_then};
ghost use Rattle.pg_base.specs.Lists.{Each};
ghost use Rattle.gql_nodes.specs.Listed.{view, views};
ghost use Rattle.gql_nodes.specs.Uses.{as_operation};
ghost use Rattle.gql_scopes.specs.Tables as spec;

use gql_nodes::{At, Node};
use gql_reader::{Definition, Document};
use pg_base::Memory;
use std::alloc::Global;

fn is_operation(definition: Option<&Definition>) -> bool
    ensures { result
        ≡ is_some (option_and_then as_operation (option_map (λ d. d.now) definition.entry)) }
{
    match definition {
        None => false,
        Some(Definition::Operation(_)) => true,
        Some(Definition::Fragment(_)) => false,
        Some(Definition::Foreign(_)) => false,
    }
}

/// Whether it is asked what the definition reaches, even where no variable stands in it.
fn is_asked(document: &Document, ordered: bool, place: usize) -> bool
    ensures { result ≡ spec.is_asked document.now ordered place }
{
    !ordered || is_operation(document.definitions.get(place))
}

/// These definitions marked.
fn mark_asked(
    alloc: Global,
    document: &Document,
    ordered: bool,
    count: usize,
) -> Result<Vec<bool>, Memory>
    ensures len { IfOk result (λ marks. length marks.items ≡ count) }
    ensures marks { IfOk result (λ marks. (place : ℕ) → place < count
        → spec.is_marked marks.items place ≡ spec.is_asked document.now ordered place) }
{
    let mut marks = Vec::new(alloc);
    for place in 0..count {
        marks.push(is_asked(document, ordered, place))?;
    }
    Ok(marks)
}

fn is_variable(node: &Node<'_>) -> bool
    ensures { result ≡ spec.is_variable (view node.now) }
{
    match node {
        Node::Definition { .. } => false,
        Node::Variable { .. } => true,
        Node::Field { .. } => false,
        Node::Spread { .. } => false,
        Node::Inline { .. } => false,
        Node::Directive { .. } => false,
        Node::Argument { .. } => false,
        Node::Value { .. } => false,
        Node::ObjectField { .. } => false,
    }
}

fn mark(marks: &mut Vec<bool>, place: usize)
    requires { place < length marks.old.items }
    ensures len { length marks.new.items ≡ length marks.old.items }
    ensures mark { (other : ℕ) → spec.is_marked marks.new.items other
        ≡ (if place == other then true else spec.is_marked marks.old.items other) }
{
    marks[place] = true;
}

/// Marks of the definitions of which it is asked what they reach.
pub(crate) fn gather_wanted(
    alloc: Global,
    document: &Document,
    nodes: &[At<'_>],
    ordered: bool,
    count: usize,
) -> Result<Vec<bool>, Memory>
    requires { Each (λ x. x.within < count) (views nodes.now) }
    ensures len { IfOk result (λ marks. length marks.items ≡ count) }
    ensures marks { IfOk result (λ marks. (place : ℕ) → place < count
        → spec.is_marked marks.items place
        ≡ spec.is_wanted document.now (views nodes.now) ordered place) }
{
    let mut marks = mark_asked(alloc, document, ordered, count)?;
    for at in nodes {
        if !is_variable(&at.node) {
            continue;
        }
        mark(&mut marks, at.within);
    }
    Ok(marks)
}
