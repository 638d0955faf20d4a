//! A quick look at field merging (5.3.2): sets that may be entered together are joined once, perhaps more of them than
//! the rule asks, and each field is compared with the first one of its response key only.

ghost use Rattle.std.specs.Prelude.{◌≡◌, ℕ, List, true, None, option_map, IfOk};
ghost use Rattle.gql_nodes.specs.Listed.{view, views};
ghost use Rattle.gql_nodes.specs.Names.{place_in};
ghost use Rattle.gql_validate.specs.FieldSelectionMerging.{fragment_node};
ghost use Rattle.gql_validate.specs.JoinedSets as spec;
ghost use Rattle.gql_validate.specs.Merged.{field_view, IsLeastBreak};

use crate::paired_fields::{FieldOn, are_alike, field_at, field_on};
use crate::slots::{Slots, slot_of};
use crate::tables::fragment_nodes;
use gql_nodes::{At, Node, Places};
use pg_base::Memory;
use std::alloc::Global;

/// How often sets are joined anew, since joined sets may join further ones that stand before them.
const MOST_TURNS: usize = 8;

fn head_at(heads: &[usize], place: usize) -> usize
    ensures { result ≡ spec.head_at heads.now place }
{
    match heads.get(place) {
        None => place,
        Some(head) => *head,
    }
}

// ---- whether all that has to be joined is

fn is_alike(alloc: Global, first: Option<FieldOn<'_>>, field: &FieldOn<'_>) -> Result<bool, Memory>
    ensures { IfOk result (λ alike. alike
        ≡ spec.alike_to (option_map field_view first.entry) (field_view field.now)) }
{
    match &first {
        None => Ok(false),
        Some(first) => {
            let alike = are_alike(alloc, first.field, field.field)?;
            Ok(alike)
        }
    }
}

fn joins_first(
    alloc: Global,
    nodes: &[At<'_>],
    heads: &[usize],
    place: usize,
    field: &FieldOn<'_>,
    first: Option<usize>,
) -> Result<bool, Memory>
    ensures { IfOk result (λ joined. joined
        ≡ spec.joins_first (views nodes.now) heads.now place (field_view field.now) first) }
{
    match first {
        None => Ok(false),
        Some(first) => {
            if head_at(heads, first) == head_at(heads, place) {
                let alike = is_alike(alloc, field_at(nodes, first), field)?;
                Ok(alike)
            } else {
                Ok(false)
            }
        }
    }
}

fn field_joins(
    alloc: Global,
    nodes: &[At<'_>],
    heads: &[usize],
    slots: &Slots,
    place: usize,
    owner: usize,
    field: Option<FieldOn<'_>>,
) -> Result<bool, Memory>
    ensures { IfOk result (λ joined. joined
        ≡ spec.field_joins (views nodes.now) heads.now slots.now place owner
        (option_map field_view field.entry)) }
{
    match &field {
        None => Ok(true),
        Some(field) => {
            let first = slots.find(slot_of(head_at(heads, owner), field));
            let joined = joins_first(alloc, nodes, heads, place, field, first)?;
            Ok(joined)
        }
    }
}

fn target_joins(heads: &[usize], owner: usize, target: Option<usize>) -> bool
    ensures { result ≡ spec.target_joins heads.now owner target }
{
    match target {
        None => true,
        Some(target) => head_at(heads, target) == head_at(heads, owner),
    }
}

fn joins(
    alloc: Global,
    fragments: &Places,
    nodes: &[At<'_>],
    heads: &[usize],
    slots: &Slots,
    place: usize,
    node: &Node<'_>,
) -> Result<bool, Memory>
    requires { (name : List ℕ) → place_in fragments.now name
        ≡ fragment_node (views nodes.now) name }
    ensures { IfOk result (λ joined. joined
        ≡ spec.joins (views nodes.now) heads.now slots.now place (view node.now)) }
{
    match node {
        Node::Definition { .. } => Ok(true),
        Node::Variable { .. } => Ok(true),
        Node::Field { owner, .. } => {
            let joined = field_joins(alloc, nodes, heads, slots, place, *owner, field_on(node))?;
            Ok(joined)
        }
        Node::Spread { owner, spread, .. } => {
            Ok(target_joins(heads, *owner, fragments.find(&spread.name)))
        }
        Node::Inline { owner, .. } => Ok(head_at(heads, place) == head_at(heads, *owner)),
        Node::Directive { .. } => Ok(true),
        Node::Argument { .. } => Ok(true),
        Node::Value { .. } => Ok(true),
        Node::ObjectField { .. } => Ok(true),
    }
}

fn all_join(
    alloc: Global,
    fragments: &Places,
    nodes: &[At<'_>],
    heads: &[usize],
    slots: &Slots,
) -> Result<bool, Memory>
    requires { (name : List ℕ) → place_in fragments.now name
        ≡ fragment_node (views nodes.now) name }
    ensures { IfOk result (λ joined. joined
        ≡ spec.all_join (views nodes.now) heads.now slots.now 0 (views nodes.now)) }
{
    for (place, at) in nodes.iter().enumerate() {
        let joined = joins(alloc, fragments, nodes, heads, slots, place, &at.node)?;
        if !joined {
            return Ok(false);
        }
    }
    Ok(true)
}

/// Whether the sets are joined so that no two fields are seen to differ.
fn are_settled(
    alloc: Global,
    fragments: &Places,
    nodes: &[At<'_>],
    heads: &[usize],
    slots: &Slots,
) -> Result<bool, Memory>
    requires { (name : List ℕ) → place_in fragments.now name
        ≡ fragment_node (views nodes.now) name }
    ensures { IfOk result (λ settled. settled ≡ true → IsLeastBreak (views nodes.now) None) }
{
    let joined = all_join(alloc, fragments, nodes, heads, slots)?;
    Ok(joined)
}

// ---- joining

/// The head of the sets that a set is joined with by now.
fn root_of(heads: &[usize], place: usize) -> usize {
    let mut at = place;
    for _ in 0..heads.len() {
        let head = head_at(heads, at);
        if head == at {
            return at;
        }
        at = head;
    }
    at
}

/// Joins the sets of two heads, unless they are one.
fn join(heads: &mut Vec<usize>, first: usize, second: usize) -> bool {
    let a = root_of(heads.as_slice(), first);
    let b = root_of(heads.as_slice(), second);
    if a == b {
        return false;
    }
    if let Some(head) = heads.get_mut(a.max(b)) {
        *head = a.min(b);
    }
    true
}

/// Joins a field with the first one of its slot.
fn join_field(
    heads: &mut Vec<usize>,
    slots: &mut Slots,
    place: usize,
    owner: usize,
    field: Option<FieldOn<'_>>,
) -> Result<bool, Memory> {
    let Some(field) = &field else {
        return Ok(false);
    };
    let slot = slot_of(root_of(heads.as_slice(), owner), field);
    match slots.find(slot) {
        None => {
            slots.put(slot, place)?;
            Ok(false)
        }
        Some(first) => Ok(join(heads, first, place)),
    }
}

fn join_target(heads: &mut Vec<usize>, owner: usize, target: Option<usize>) -> bool {
    match target {
        None => false,
        Some(target) => join(heads, owner, target),
    }
}

/// Joins the set of a node with those that it has to be joined with, and tells whether it wasn't yet.
fn join_node(
    fragments: &Places,
    heads: &mut Vec<usize>,
    slots: &mut Slots,
    place: usize,
    node: &Node<'_>,
) -> Result<bool, Memory> {
    match node {
        Node::Definition { .. } => Ok(false),
        Node::Variable { .. } => Ok(false),
        Node::Field { owner, .. } => join_field(heads, slots, place, *owner, field_on(node)),
        Node::Spread { owner, spread, .. } => {
            Ok(join_target(heads, *owner, fragments.find(&spread.name)))
        }
        Node::Inline { owner, .. } => Ok(join(heads, *owner, place)),
        Node::Directive { .. } => Ok(false),
        Node::Argument { .. } => Ok(false),
        Node::Value { .. } => Ok(false),
        Node::ObjectField { .. } => Ok(false),
    }
}

/// Joins all sets once, in their order.
fn join_all(
    fragments: &Places,
    nodes: &[At<'_>],
    heads: &mut Vec<usize>,
    slots: &mut Slots,
) -> Result<bool, Memory> {
    let mut changed = false;
    for (place, at) in nodes.iter().enumerate() {
        if join_node(fragments, heads, slots, place, &at.node)? {
            changed = true;
        }
    }
    Ok(changed)
}

/// Gives each set the head of those that it is joined with.
fn settle(heads: &mut Vec<usize>) {
    for place in 0..heads.len() {
        let root = root_of(heads.as_slice(), place);
        if let Some(head) = heads.get_mut(place) {
            *head = root;
        }
    }
}

fn own_heads(alloc: Global, nodes: &[At<'_>]) -> Result<Vec<usize>, Memory> {
    let mut heads = Vec::new(alloc);
    for (place, _) in nodes.iter().enumerate() {
        heads.push(place)?;
    }
    Ok(heads)
}

/// Whether all fields are seen to merge at a first look; a second one is due where they aren't.
pub(crate) fn all_merge(alloc: Global, nodes: &[At<'_>]) -> Result<bool, Memory>
    ensures { IfOk result (λ all. all ≡ true → IsLeastBreak (views nodes.now) None) }
{
    let fragments = fragment_nodes(alloc, nodes)?;
    let mut heads = own_heads(alloc, nodes)?;
    for _ in 0..MOST_TURNS {
        let mut slots = Slots::new(alloc);
        let changed = join_all(&fragments, nodes, &mut heads, &mut slots)?;
        settle(&mut heads);
        let settled = are_settled(alloc, &fragments, nodes, heads.as_slice(), &slots)?;
        if settled {
            return Ok(true);
        }
        if !changed {
            return Ok(false);
        }
    }
    Ok(false)
}
