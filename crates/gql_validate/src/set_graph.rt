//! The pairs of plain selection sets that are entered together.

ghost use Rattle.std.specs.Prelude.{◌≡◌, ◌++◌, IfOk, OnOk};
ghost use Rattle.gql_nodes.specs.Listed.{views};
ghost use Rattle.gql_nodes.specs.Reached.{IsClosure};
ghost use Rattle.gql_validate.specs.SetPairs.{starts, steps};
ghost use Rattle.gql_validate.specs.Merged as spec;

use crate::pairs::Pair;
use crate::set_pairs::{is_deep, put_steps, put_when};
use crate::tables::Tables;
use gql_nodes::{At, Graph, reached};
use indexmap::IndexSet;
use pg_base::Memory;
use std::alloc::Global;

/// The graph of pairs.
#[derive(Drop)]
pub(crate) struct SetGraph<'a> {
    pub nodes: &'a [At<'a>],
    pub tables: Tables,
}

impl Graph for SetGraph<'_> {
    ghost use Rattle.gql_nodes.specs.Listed.{views};
    ghost use Rattle.gql_validate.specs.Merged.{listed_steps, same_tells};

    type Node = Pair;

    ghost steps = { λ graph p. listed_steps (views graph.nodes.now) graph.tables p };

    fn put_steps(&self, node: Pair, out: &mut Vec<Pair>) -> Result<(), Memory> {
        put_steps(self.nodes, &self.tables, node, out)?;
        Ok(())
    }

    ghost tells = { same_tells };
}

fn put_starts(nodes: &[At<'_>], tables: &Tables, out: &mut Vec<Pair>) -> Result<(), Memory>
    ensures { OnOk result (out.new.items
        ≡ out.old.items ++ spec.starts_by tables.now 0 (views nodes.now)) }
{
    for (place, _) in nodes.iter().enumerate() {
        put_when(is_deep(tables, place), place, place, out)?;
    }
    Ok(())
}

fn list_of(alloc: Global, found: &IndexSet<Pair>) -> Result<Vec<Pair>, Memory>
    ensures { IfOk result (λ list. list.items ≡ found.now.keys) }
{
    let mut list = Vec::new(alloc);
    for at in 0..found.len() {
        let Some(p) = found.get_index(at) else {
            return Ok(list);
        };
        list.push(*p)?;
    }
    Ok(list)
}

fn closure_of(alloc: Global, graph: &SetGraph<'_>) -> Result<IndexSet<Pair>, Memory>
    ensures { IfOk result (λ found. IsClosure (spec.starts_by graph.now.tables 0 (views
        graph.now.nodes.now))
        (λ p. spec.listed_steps (views graph.now.nodes.now) graph.now.tables p) found.keys) }
{
    let mut first = Vec::new(alloc);
    put_starts(graph.nodes, &graph.tables, &mut first)?;
    let found = reached(alloc, graph, first.as_slice())?;
    Ok(found)
}

/// The pairs that are reached from each set with itself.
pub(crate) fn set_closure(alloc: Global, graph: &SetGraph<'_>) -> Result<Vec<Pair>, Memory>
    requires { spec.AreTables (views graph.now.nodes.now) graph.now.tables }
    ensures { IfOk result (λ found. IsClosure (starts (views graph.now.nodes.now))
        (steps (views graph.now.nodes.now)) found.items) }
{
    let found = closure_of(alloc, graph)?;
    let list = list_of(alloc, &found)?;
    Ok(list)
}
