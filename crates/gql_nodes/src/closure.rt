//! What is reached in a graph, by a list of the nodes that were met.

ghost use Rattle.std.specs.Prelude.{◌≡◌, ◌++◌, List, IfOk, OnOk, true};
ghost use Rattle.indexmap.specs.IndexSet.{insert_all as with_all};
ghost use Rattle.gql_nodes.specs.Reached.{IsClosure};

use indexmap::IndexSet;
use pg_base::Memory;
use std::alloc::Global;
use std::hash::Hash;

/// Nodes, and the nodes to which steps lead.
pub trait Graph {
    type Node: Copy + Eq + Hash + Drop;

    ghost steps: { Self → Self.Node → List Self.Node };

    /// Appends the nodes to which steps lead from this one.
    fn put_steps(&self, node: Self::Node, out: &mut Vec<Self::Node>) -> Result<(), Memory>
        ensures { OnOk result (out.new.items ≡ out.old.items ++ steps self.now node) };

    /// Nodes that compare equal are one.
    ghost tells: { (m n : Self.Node) → Self.Node.eq m n ≡ true → m ≡ n };
}

fn insert_each<K: Copy + Eq + Hash + Drop>(
    found: &mut IndexSet<K>,
    nodes: &[K],
) -> Result<(), Memory>
    ensures { OnOk result (found.new.keys ≡ with_all K.eq found.old.keys nodes.now) }
{
    for node in nodes {
        found.insert_full(*node)?;
    }
    Ok(())
}

/// The nodes that are reached from some, in the order in which they are met. Each is looked at once.
pub fn reached<G: Graph>(
    alloc: Global,
    graph: &G,
    first: &[G::Node],
) -> Result<IndexSet<G::Node>, Memory>
    ensures { IfOk result (λ found. IsClosure first.now (G.steps graph.now) found.keys) }
{
    let mut found = IndexSet::new(alloc);
    insert_each(&mut found, first)?;
    for at in 0..usize::MAX {
        let Some(met) = found.get_index(at) else {
            return Ok(found);
        };
        let node = *met;
        let mut due = Vec::new(alloc);
        graph.put_steps(node, &mut due)?;
        insert_each(&mut found, due.as_slice())?;
    }
    let _count = found.len();
    Ok(found)
}
