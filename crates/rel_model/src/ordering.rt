//! Rows in an order.

ghost use Rattle.std.specs.Prelude.{◌≡◌, IfOk, OnOk, map, drop};
ghost use Rattle.rel_model.specs.Picked as picked;
ghost use Rattle.rel_model.specs.Ordered as spec;

use crate::compare::compare_rows;
use crate::copying::cell_at;
use crate::picking::{rows_numbered, rows_of};
use crate::{By, Row, Tables};
use pg_base::{Mark, Memory};
use sqlite_items::Items;
use std::alloc::Global;

/// A row's place in an order.
pub fn mark_of(alloc: Global, order: &[By], row: &Row) -> Result<Mark, Memory>
    ensures { IfOk result (λ mark. mark ≡ spec.mark_of order.now row.now) }
{
    let mut values = Items::new(alloc);
    for by in order {
        values.push(cell_at(alloc, row.cells.as_slice(), by.column)?)?;
    }
    Ok(Mark {
        values,
        number: row.number,
    })
}

fn sort_borrowed(rows: &mut Vec<&Row>, order: &[By]) -> Result<(), Memory>
    ensures { OnOk result (rows.new.items ≡
        spec.sorted_by (λ a b. spec.precedes order.now a.now b.now) rows.old.items) }
{
    rows.sort_by(|a, b| compare_rows(order, a, b))
}

/// Puts rows in an order.
#[tactic(auto, using(crate::proofs::Numbered::borrowed_sorted))]
pub fn sort_rows(rows: &mut Vec<&Row>, order: &[By]) -> Result<(), Memory>
    ensures { OnOk result (map (λ r. r.now) rows.new.items ≡
        spec.ordered order.now (map (λ r. r.now) rows.old.items)) }
{
    sort_borrowed(rows, order)?;
    Ok(())
}

fn numbers_of(alloc: Global, rows: &[&Row]) -> Result<Items<u64>, Memory>
    ensures { IfOk result (λ numbers. numbers ≡ map (λ r. r.now.number) rows.now) }
{
    let mut numbers = Items::new(alloc);
    for row in rows {
        numbers.push(row.number)?;
    }
    Ok(numbers)
}

/// These numbers of rows of a table, in an order of the rows that ends with the number.
pub fn ordered(
    alloc: Global,
    tables: &Tables,
    table: u32,
    numbers: &[u64],
    order: &[By],
) -> Result<Items<u64>, Memory>
    requires { picked.AreRising (picked.rows_of tables.now table) }
    ensures { IfOk result (λ found. found ≡
        picked.numbers_of (spec.ordered order.now (picked.rows_at tables.now table numbers.now))) }
{
    let mut rows = rows_numbered(alloc, rows_of(tables, table), numbers)?;
    sort_rows(&mut rows, order)?;
    numbers_of(alloc, rows.as_slice())
}
