//! What stands in each selection set: its fields, and the sets of the fragments that stand there.

ghost use Rattle.std.specs.Prelude.{◌≡◌, ℕ, List, OnOk, IfOk, option_map};
ghost use Rattle.gql_nodes.specs.Listed.{view, views};
ghost use Rattle.gql_nodes.specs.Names.{place_in, fragment_name as name_of_fragment};
ghost use Rattle.gql_validate.specs.FieldSelectionMerging.{fragment_node};
ghost use Rattle.gql_validate.specs.Merged as spec;

use gql_nodes::{At, Node, Places};
use gql_reader::Definition;
use pg_base::{Memory, Text};
use sqlite_items::Items;
use std::alloc::Global;

/// For each place in the list of nodes the places of the fields of its selection set, and those of the sets of the
/// fragments that stand in it.
#[derive(Drop)]
pub(crate) struct Tables {
    pub fields: Items<Items<usize>>,
    pub sets: Items<Items<usize>>,
}

/// The list at a place, and none past the end.
pub(crate) fn list_at(lists: &[Items<usize>], place: usize) -> &[usize]
    ensures { result.now ≡ spec.list_at lists.now place }
{
    match lists.get(place) {
        None => &[],
        Some(list) => list.as_slice(),
    }
}

/// One member more at the end of the list at a place; past the end of the lists there is none.
fn put_member(lists: &mut Vec<Items<usize>>, place: usize, member: usize) -> Result<(), Memory>
    ensures { OnOk result (lists.new.items ≡ spec.with_member lists.old.items place member) }
{
    match lists.get_mut(place) {
        None => Ok(()),
        Some(list) => {
            list.push(member)?;
            Ok(())
        }
    }
}

fn empty_lists(alloc: Global, nodes: &[At<'_>]) -> Result<Vec<Items<usize>>, Memory>
    ensures { IfOk result (λ made. made.items ≡ spec.empty_lists nodes.now) }
{
    let mut lists = Vec::new(alloc);
    for _ in nodes {
        lists.push(Items::new(alloc))?;
    }
    Ok(lists)
}

/// The name of a fragment, where the node is one.
fn fragment_of<'a>(node: &Node<'a>) -> Option<&'a Text>
    ensures { option_map (λ name. name.now) result ≡ spec.fragment_of (view node.now) }
{
    match node {
        Node::Definition { definition, .. } => fragment_name(definition),
        Node::Variable { .. } => None,
        Node::Field { .. } => None,
        Node::Spread { .. } => None,
        Node::Inline { .. } => None,
        Node::Directive { .. } => None,
        Node::Argument { .. } => None,
        Node::Value { .. } => None,
        Node::ObjectField { .. } => None,
    }
}

fn fragment_name(definition: &Definition) -> Option<&Text>
    ensures { option_map (λ name. name.now) result ≡ name_of_fragment definition.now }
{
    match definition {
        Definition::Operation(_) => None,
        Definition::Fragment(fragment) => Some(&fragment.name),
        Definition::Foreign(_) => None,
    }
}

/// The places of the nodes that are fragments, by name.
pub(crate) fn fragment_nodes(alloc: Global, nodes: &[At<'_>]) -> Result<Places, Memory>
    ensures { IfOk result (λ places. (name : List ℕ) → place_in places name
        ≡ fragment_node (views nodes.now) name) }
{
    let mut places = Places::new(alloc);
    for (place, at) in nodes.iter().enumerate() {
        let Some(name) = fragment_of(&at.node) else {
            continue;
        };
        places.put_first(alloc, name, place)?;
    }
    Ok(places)
}

/// Puts a node to the list of the set in which it stands, if it is a field.
fn put_field(lists: &mut Vec<Items<usize>>, place: usize, node: &Node<'_>) -> Result<(), Memory>
    ensures { OnOk result (lists.new.items
        ≡ spec.put_owned lists.old.items (spec.owned_field (view node.now)) place) }
{
    match node {
        Node::Definition { .. } => Ok(()),
        Node::Variable { .. } => Ok(()),
        Node::Field { owner, .. } => {
            put_member(lists, *owner, place)?;
            Ok(())
        }
        Node::Spread { .. } => Ok(()),
        Node::Inline { .. } => Ok(()),
        Node::Directive { .. } => Ok(()),
        Node::Argument { .. } => Ok(()),
        Node::Value { .. } => Ok(()),
        Node::ObjectField { .. } => Ok(()),
    }
}

fn put_target(
    lists: &mut Vec<Items<usize>>,
    owner: usize,
    target: Option<usize>,
) -> Result<(), Memory>
    ensures { OnOk result (lists.new.items ≡ spec.put_target lists.old.items owner target) }
{
    match target {
        None => Ok(()),
        Some(place) => {
            put_member(lists, owner, place)?;
            Ok(())
        }
    }
}

/// Puts the set of a fragment to the list of the set in which the fragment stands, if the node is a spread or an inline
/// fragment.
fn put_set(
    fragments: &Places,
    nodes: &[At<'_>],
    lists: &mut Vec<Items<usize>>,
    place: usize,
    node: &Node<'_>,
) -> Result<(), Memory>
    requires { (name : List ℕ) → place_in fragments.now name
        ≡ fragment_node (views nodes.now) name }
    ensures { OnOk result (lists.new.items
        ≡ spec.put_set (views nodes.now) lists.old.items place (view node.now)) }
{
    let _ = nodes;
    match node {
        Node::Definition { .. } => Ok(()),
        Node::Variable { .. } => Ok(()),
        Node::Field { .. } => Ok(()),
        Node::Spread { owner, spread, .. } => {
            put_target(lists, *owner, fragments.find(&spread.name))?;
            Ok(())
        }
        Node::Inline { owner, .. } => {
            put_member(lists, *owner, place)?;
            Ok(())
        }
        Node::Directive { .. } => Ok(()),
        Node::Argument { .. } => Ok(()),
        Node::Value { .. } => Ok(()),
        Node::ObjectField { .. } => Ok(()),
    }
}

fn list_fields(alloc: Global, nodes: &[At<'_>]) -> Result<Items<Items<usize>>, Memory>
    ensures { IfOk result (λ made. made
        ≡ spec.put_fields (spec.empty_lists nodes.now) 0 (views nodes.now)) }
{
    let mut lists = empty_lists(alloc, nodes)?;
    for (place, at) in nodes.iter().enumerate() {
        put_field(&mut lists, place, &at.node)?;
    }
    Ok(Items::from_vec(lists))
}

fn list_sets(
    alloc: Global,
    fragments: &Places,
    nodes: &[At<'_>],
) -> Result<Items<Items<usize>>, Memory>
    requires { (name : List ℕ) → place_in fragments.now name
        ≡ fragment_node (views nodes.now) name }
    ensures { IfOk result (λ made.
        made ≡ spec.put_sets (views nodes.now) (spec.empty_lists nodes.now) 0 (views nodes.now)) }
{
    let mut lists = empty_lists(alloc, nodes)?;
    for (place, at) in nodes.iter().enumerate() {
        put_set(fragments, nodes, &mut lists, place, &at.node)?;
    }
    Ok(Items::from_vec(lists))
}

/// What stands in each selection set.
pub(crate) fn tables_of(alloc: Global, nodes: &[At<'_>]) -> Result<Tables, Memory>
    ensures { IfOk result (λ made. spec.AreTables (views nodes.now) made) }
{
    let fragments = fragment_nodes(alloc, nodes)?;
    let fields = list_fields(alloc, nodes)?;
    let sets = list_sets(alloc, &fragments, nodes)?;
    Ok(Tables { fields, sets })
}
