//! Pairs of sets in which, or below which, fields differ.

ghost use Rattle.std.specs.Prelude.{◌≡◌, ◌<◌, OnOk, length};
ghost use Rattle.std.specs.List.{list_any};
ghost use Rattle.gql_nodes.specs.Listed.{views};
ghost use Rattle.gql_validate.specs.Merged as spec;

use crate::pairs::Pair;
use crate::set_graph::SetGraph;
use crate::set_pairs::{clashes, put_steps};
use indexmap::IndexSet;
use pg_base::Memory;
use std::alloc::Global;

/// Whether one of the pairs is spoiled.
pub(crate) fn any_stands(spoiled: &IndexSet<Pair>, due: &[Pair]) -> bool
    ensures { result ≡ list_any (spec.stands spoiled.now.keys) due.now }
{
    for p in due {
        if spoiled.contains(p) {
            return true;
        }
    }
    false
}

fn put_pair(spoiled: &mut IndexSet<Pair>, p: Pair) -> Result<(), Memory>
    ensures { OnOk result (spoiled.new.keys ≡ spec.with_pair spoiled.old.keys p) }
{
    spoiled.insert_full(p)?;
    Ok(())
}

fn put_clash(
    alloc: Global,
    graph: &SetGraph<'_>,
    p: Pair,
    spoiled: &mut IndexSet<Pair>,
) -> Result<(), Memory>
    ensures { OnOk result (spoiled.new.keys
        ≡ spec.put_clash (views graph.now.nodes.now) graph.now.tables spoiled.old.keys p) }
{
    let clash = clashes(alloc, graph.nodes, &graph.tables, p)?;
    if !clash {
        return Ok(());
    }
    put_pair(spoiled, p)?;
    Ok(())
}

/// Puts the pairs whose sets clash.
pub(crate) fn put_clashes(
    alloc: Global,
    graph: &SetGraph<'_>,
    found: &[Pair],
    spoiled: &mut IndexSet<Pair>,
) -> Result<(), Memory>
    ensures { OnOk result (spoiled.new.keys
        ≡ spec.put_clashes (views graph.now.nodes.now) graph.now.tables
        spoiled.old.keys found.now) }
{
    for p in found {
        put_clash(alloc, graph, *p, spoiled)?;
    }
    Ok(())
}

/// Puts the pair, if a step leads from it to a spoiled one.
fn put_led(
    alloc: Global,
    graph: &SetGraph<'_>,
    p: Pair,
    spoiled: &mut IndexSet<Pair>,
) -> Result<(), Memory>
    ensures { OnOk result (spoiled.new.keys
        ≡ spec.put_led (views graph.now.nodes.now) graph.now.tables spoiled.old.keys p) }
{
    if spoiled.contains(&p) {
        return Ok(());
    }
    let mut due = Vec::new(alloc);
    put_steps(graph.nodes, &graph.tables, p, &mut due)?;
    if !any_stands(spoiled, due.as_slice()) {
        return Ok(());
    }
    put_pair(spoiled, p)?;
    Ok(())
}

fn put_each_led(
    alloc: Global,
    graph: &SetGraph<'_>,
    found: &[Pair],
    spoiled: &mut IndexSet<Pair>,
) -> Result<(), Memory>
    ensures { OnOk result (spoiled.new.keys
        ≡ spec.put_each_led (views graph.now.nodes.now) graph.now.tables
        spoiled.old.keys found.now) }
{
    for p in found {
        put_led(alloc, graph, *p, spoiled)?;
    }
    Ok(())
}

/// Puts each pair from which steps lead to a spoiled one.
pub(crate) fn spread(
    alloc: Global,
    graph: &SetGraph<'_>,
    found: &[Pair],
    spoiled: &mut IndexSet<Pair>,
) -> Result<(), Memory>
    requires tables { spec.AreTables (views graph.now.nodes.now) graph.now.tables }
    requires some { 0 < length spoiled.old.keys }
    ensures { OnOk result (spec.IsSpread (views graph.now.nodes.now) graph.now.tables found.now
        spoiled.old.keys spoiled.new.keys) }
{
    for _turn in 0..usize::MAX {
        let before = spoiled.len();
        put_each_led(alloc, graph, found, spoiled)?;
        if spoiled.len() == before {
            return Ok(());
        }
    }
    let _count = spoiled.len();
    Ok(())
}
