//! The keys of a statement that is sent for the rows of another fetch.

ghost use Rattle.std.specs.Prelude.{◌≡◌, ◌++◌, ◌∷◌, [], IfOk, OnOk, map, option_map, drop, if◌then◌else◌};
ghost use Rattle.std.specs.Ordering.{is_lt};
ghost use Rattle.rel_model.specs.Ordered as ordered;
ghost use Rattle.plan_steps.specs.Values.{row_of};
ghost use Rattle.batch_execute.specs.Keys as spec;

use pg_base::Memory;
use rel_model::{By, cell_at, compare_both};
use sqlite_items::Items;
use std::alloc::Global;
use std::cmp::Ordering;
use stmt_tree::{Key, RowTree};

/// The ascending order by these columns.
pub(crate) fn ascending(alloc: Global, columns: &[u32]) -> Result<Vec<By>, Memory>
    ensures { IfOk result (λ order. order.items ≡ ordered.ascending columns.now) }
{
    let mut order = Vec::with_capacity(alloc, columns.len())?;
    for column in columns {
        order.push(By {
            column: *column,
            descending: false,
        })?;
    }
    Ok(order)
}

fn compare_trees(order: &[By], a: &RowTree, b: &RowTree) -> Ordering
    ensures { result ≡ ordered.cells_order order.now
        (spec.tree_cells order.now a.now) (spec.tree_cells order.now b.now) }
{
    compare_both(order, a.cells.as_slice(), b.cells.as_slice())
}

/// Puts rows in an order.
fn sort_trees(trees: &mut Vec<&RowTree>, order: &[By]) -> Result<(), Memory>
    ensures { OnOk result (trees.new.items ≡ ordered.sorted_by (λ a b. spec.stands_before order.now
        (spec.tree_cells order.now a.now) (spec.tree_cells order.now b.now)) trees.old.items) }
{
    trees.sort_by(|a, b| compare_trees(order, a, b))
}

/// The key of a row: its cells in an order.
fn key_at(alloc: Global, order: &[By], tree: &RowTree) -> Result<Key, Memory>
    ensures { IfOk result (λ key. key ≡ spec.key_of (spec.tree_cells order.now tree.now)) }
{
    let mut cells = Items::new(alloc);
    for by in order {
        cells.push(cell_at(alloc, tree.cells.as_slice(), by.column)?)?;
    }
    Ok(Key { cells })
}

/// Whether a row stands after the one before it, and not beside it.
fn is_new(order: &[By], last: Option<&RowTree>, tree: &RowTree) -> bool
    ensures { result ≡ spec.is_new order.now
        (option_map (λ t. spec.tree_cells order.now t.now) last.entry)
        (spec.tree_cells order.now tree.now) }
{
    match last {
        None => true,
        Some(last) => compare_trees(order, last, tree).is_lt(),
    }
}

/// Appends the key of a row that is new.
fn push_new(
    alloc: Global,
    order: &[By],
    last: Option<&RowTree>,
    tree: &RowTree,
    keys: &mut Items<Key>,
) -> Result<(), Memory>
    ensures { OnOk result (keys.new ≡ keys.old ++ (if spec.is_new order.now
        (option_map (λ t. spec.tree_cells order.now t.now) last.entry)
        (spec.tree_cells order.now tree.now)
        then spec.key_of (spec.tree_cells order.now tree.now) ∷ [] else [])) }
{
    if !is_new(order, last, tree) {
        return Ok(());
    }
    keys.push(key_at(alloc, order, tree)?)?;
    Ok(())
}

/// The keys of rows that stand in an order, each once.
fn first_keys(alloc: Global, order: &[By], trees: &[&RowTree]) -> Result<Items<Key>, Memory>
    ensures { IfOk result (λ keys. keys ≡ map spec.key_of (spec.firsts order.now None
        (map (λ t. spec.tree_cells order.now t.now) trees.now))) }
{
    let mut keys = Items::new(alloc);
    let mut last = None;
    for tree in trees {
        push_new(alloc, order, last, tree, &mut keys)?;
        last = Some(*tree);
    }
    Ok(keys)
}

/// The keys of rows, in this order.
fn keys_in(alloc: Global, order: &[By], trees: &mut Vec<&RowTree>) -> Result<Items<Key>, Memory>
    ensures { IfOk result (λ keys. keys ≡
        spec.keys_in order.now (map (λ t. t.now) trees.old.items)) }
{
    sort_trees(trees, order)?;
    let keys = first_keys(alloc, order, trees.as_slice())?;
    Ok(keys)
}

/// The keys that rows have at these columns, each once, in ascending order.
pub(crate) fn keys_for(
    alloc: Global,
    columns: &[u32],
    trees: &mut Vec<&RowTree>,
) -> Result<Items<Key>, Memory>
    ensures { IfOk result (λ keys. keys ≡
        spec.keys_for columns.now (map (λ t. t.now) trees.old.items)) }
{
    let order = ascending(alloc, columns)?;
    let keys = keys_in(alloc, order.as_slice(), trees)?;
    Ok(keys)
}
