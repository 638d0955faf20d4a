//! Field selection merging (5.3.2).

ghost use Rattle.std.specs.Prelude.{◌≡◌, ◌<◌, None, length, option_map, slice_get, IfOk};
ghost use Rattle.gql_nodes.specs.Listed.{views};
ghost use Rattle.gql_nodes.specs.Nodes.{pos_of};
ghost use Rattle.gql_nodes.specs.Rules.{IsFound};
ghost use Rattle.gql_validate.specs.FieldSelectionMerging.{Breaks};
ghost use Rattle.gql_validate.specs.Merged as spec;

use crate::joined_sets::all_merge;
use crate::paired_fields::{differ, meet};
use crate::pairs::Pair;
use crate::set_graph::{SetGraph, set_closure};
use crate::set_pairs::put_below_pair;
use crate::spoiled::{any_stands, put_clashes, spread};
use crate::tables::{list_at, tables_of};
use gql_nodes::{At, position_of};
use indexmap::IndexSet;
use pg_base::{Memory, Pos};
use std::alloc::Global;

/// Whether two fields that meet can't merge.
fn is_bad(
    alloc: Global,
    graph: &SetGraph<'_>,
    spoiled: &IndexSet<Pair>,
    p: Pair,
) -> Result<bool, Memory>
    ensures { IfOk result (λ bad. bad
        ≡ spec.is_bad (views graph.now.nodes.now) graph.now.tables spoiled.now.keys p) }
{
    let differ = differ(alloc, graph.nodes, p.first, p.second)?;
    if differ {
        return Ok(true);
    }
    let mut due = Vec::new(alloc);
    put_below_pair(&graph.tables, p, &mut due)?;
    let bad = any_stands(spoiled, due.as_slice());
    Ok(bad)
}

fn smaller(least: Option<usize>, place: usize) -> Option<usize>
    ensures { result ≡ spec.smaller least place }
{
    match least {
        None => Some(place),
        Some(other) => Some(other.min(place)),
    }
}

fn least_when(
    alloc: Global,
    graph: &SetGraph<'_>,
    spoiled: &IndexSet<Pair>,
    f: usize,
    g: usize,
    least: Option<usize>,
) -> Result<Option<usize>, Memory>
    ensures { IfOk result (λ made. made
        ≡ spec.least_when (views graph.now.nodes.now) graph.now.tables spoiled.now.keys f g least) }
{
    if !meet(graph.nodes, f, g) {
        return Ok(least);
    }
    let p = Pair {
        first: f,
        second: g,
    };
    let bad = is_bad(alloc, graph, spoiled, p)?;
    if !bad {
        return Ok(least);
    }
    Ok(smaller(least, g))
}

fn least_in_order(
    alloc: Global,
    graph: &SetGraph<'_>,
    spoiled: &IndexSet<Pair>,
    f: usize,
    g: usize,
    least: Option<usize>,
) -> Result<Option<usize>, Memory>
    ensures { IfOk result (λ made. made
        ≡ spec.least_in_order (views graph.now.nodes.now) graph.now.tables
        spoiled.now.keys f g least) }
{
    let forth = least_when(alloc, graph, spoiled, f, g, least)?;
    let made = least_when(alloc, graph, spoiled, g, f, forth)?;
    Ok(made)
}

fn least_with(
    alloc: Global,
    graph: &SetGraph<'_>,
    spoiled: &IndexSet<Pair>,
    f: usize,
    gs: &[usize],
    least: Option<usize>,
) -> Result<Option<usize>, Memory>
    ensures { IfOk result (λ made. made
        ≡ spec.least_with (views graph.now.nodes.now) graph.now.tables
        spoiled.now.keys f gs.now least) }
{
    let mut now = least;
    for g in gs {
        now = least_in_order(alloc, graph, spoiled, f, *g, now)?;
    }
    Ok(now)
}

fn least_of(
    alloc: Global,
    graph: &SetGraph<'_>,
    spoiled: &IndexSet<Pair>,
    fs: &[usize],
    gs: &[usize],
    least: Option<usize>,
) -> Result<Option<usize>, Memory>
    ensures { IfOk result (λ made. made
        ≡ spec.least_of (views graph.now.nodes.now) graph.now.tables
        spoiled.now.keys fs.now gs.now least) }
{
    let mut now = least;
    for f in fs {
        now = least_with(alloc, graph, spoiled, *f, gs, now)?;
    }
    Ok(now)
}

fn least_of_sets(
    alloc: Global,
    graph: &SetGraph<'_>,
    spoiled: &IndexSet<Pair>,
    p: Pair,
    least: Option<usize>,
) -> Result<Option<usize>, Memory>
    ensures { IfOk result (λ made. made
        ≡ spec.least_of_sets (views graph.now.nodes.now) graph.now.tables
        spoiled.now.keys p least) }
{
    let fields = graph.tables.fields.as_slice();
    let firsts = list_at(fields, p.first);
    let seconds = list_at(fields, p.second);
    let made = least_of(alloc, graph, spoiled, firsts, seconds, least)?;
    Ok(made)
}

fn least_in(
    alloc: Global,
    graph: &SetGraph<'_>,
    spoiled: &IndexSet<Pair>,
    found: &[Pair],
) -> Result<Option<usize>, Memory>
    ensures { IfOk result (λ made. made
        ≡ spec.least_in (views graph.now.nodes.now) graph.now.tables
        spoiled.now.keys found.now None) }
{
    let mut now = None;
    for p in found {
        now = least_of_sets(alloc, graph, spoiled, *p, now)?;
    }
    Ok(now)
}

/// The least place of a field that can't merge with an earlier one, where sets clash.
fn least_below(
    alloc: Global,
    graph: &SetGraph<'_>,
    found: &[Pair],
    mut spoiled: IndexSet<Pair>,
) -> Result<Option<usize>, Memory>
    requires tables { spec.AreTables (views graph.now.nodes.now) graph.now.tables }
    requires some { 0 < length spoiled.keys }
    ensures { IfOk result (λ made. spec.IsLeastFrom (views graph.now.nodes.now)
        graph.now.tables found.now
        spoiled.keys made) }
{
    spread(alloc, graph, found, &mut spoiled)?;
    let made = least_in(alloc, graph, &spoiled, found)?;
    Ok(made)
}

/// The least place of a field that can't merge with an earlier one, by all pairs of sets.
fn least_by_pairs(alloc: Global, nodes: &[At<'_>]) -> Result<Option<usize>, Memory>
    ensures { IfOk result (λ made. spec.IsLeastBreak (views nodes.now) made) }
{
    let tables = tables_of(alloc, nodes)?;
    let graph = SetGraph { nodes, tables };
    let found = set_closure(alloc, &graph)?;
    let mut clashing = IndexSet::new(alloc);
    put_clashes(alloc, &graph, found.as_slice(), &mut clashing)?;
    if clashing.len() == 0 {
        return Ok(None);
    }
    let made = least_below(alloc, &graph, found.as_slice(), clashing)?;
    Ok(made)
}

/// The least place of a field that can't merge with an earlier one. Where a first look tells that there is none, pairs
/// of sets aren't gone through.
fn least_place(alloc: Global, nodes: &[At<'_>]) -> Result<Option<usize>, Memory>
    ensures { IfOk result (λ made. spec.IsLeastBreak (views nodes.now) made) }
{
    if all_merge(alloc, nodes)? {
        return Ok(None);
    }
    let least = least_by_pairs(alloc, nodes)?;
    Ok(least)
}

fn position_of_place(nodes: &[At<'_>], place: usize) -> Option<Pos>
    ensures { result ≡ option_map (λ x. pos_of x.node) (slice_get (views nodes.now) place) }
{
    match nodes.get(place) {
        None => None,
        Some(at) => Some(position_of(&at.node)),
    }
}

fn position_at(nodes: &[At<'_>], least: Option<usize>) -> Option<Pos>
    requires { spec.IsLeastBreak (views nodes.now) least }
    ensures { IsFound (λ i x. Breaks (views nodes.now) i) (views nodes.now) result }
{
    match least {
        None => None,
        Some(place) => position_of_place(nodes, place),
    }
}

/// Where the first field stands that can't merge with an earlier one.
pub(crate) fn first_unmergeable(alloc: Global, nodes: &[At<'_>]) -> Result<Option<Pos>, Memory>
    ensures { IfOk result (λ found. IsFound (λ i x. Breaks (views nodes.now) i)
        (views nodes.now) found) }
{
    let least = least_place(alloc, nodes)?;
    Ok(position_at(nodes, least))
}
