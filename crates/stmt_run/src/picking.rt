//! The rows of a shared table that a key and a condition pick.

ghost use Rattle.std.specs.Prelude.{◌≡◌, ◌++◌, IfOk, OnOk, map, drop, length};
ghost use Rattle.rel_model.specs.Picked as spec;

use pg_base::{Cell, Memory};
use rel_model::{Equal, Row, passes};
use row_tables::{RowSlot, TableSet};
use std::alloc::Global;

fn pick_run<'a>(
    found: &mut Vec<&'a Row>,
    run: &'a [RowSlot],
    by: &[u32],
    key: &[Cell],
    condition: &[Equal],
) -> Result<(), Memory>
    ensures { OnOk result (map (λ r. r.now) found.new.items ≡ map (λ r. r.now) found.old.items
        ++ spec.picked_from by.now key.now condition.now run.now) }
{
    for slot in run {
        let row = slot.get().row();
        if passes(by, key, condition, row) {
            found.push(row)?;
        }
    }
    Ok(())
}

/// The rows of a table, in row order, that have the key and meet the condition.
pub(crate) fn pick_rows<'a>(
    alloc: Global,
    set: &'a TableSet,
    table: u32,
    by: &[u32],
    key: &[Cell],
    condition: &[Equal],
) -> Result<Vec<&'a Row>, Memory>
    ensures { IfOk result (λ found. map (λ r. r.now) found.items ≡
        spec.picked set.now.tables table by.now key.now condition.now) }
{
    let mut found = Vec::new(alloc);
    if table as usize >= set.tables() {
        return Ok(found);
    }
    let mut at = 0;
    'runs: while at < set.len(table) {
        let run = set.run(table, at);
        pick_run(&mut found, run, by, key, condition)?;
        at += run.len();
    }
    Ok(found)
}
