//! A store's answers as text.

use std::alloc::Global;
use std::test::Fail;
use stmt_tree::{Batch, Found, RowTree, RunFault};

/// How many rows there are, from which place on, up to which, and the numbers of the rows, each with what its children
/// found in brackets.
#[cycle(showing)]
fn show_found(out: &mut String, found: &Found) -> Result<(), Fail> {
    write!(out, "{}[{}..{}]", found.total, found.from, found.to)?;
    for row in found.rows.as_slice() {
        show_row(out, row)?;
    }
    Ok(())
}

#[cycle(showing)]
fn show_row(out: &mut String, row: &RowTree) -> Result<(), Fail> {
    write!(out, " {}", row.number)?;
    for found in row.children.as_slice() {
        out.push_str("(")?;
        show_found(out, found)?;
        out.push_str(")")?;
    }
    Ok(())
}

/// What was found for each key; `unfit` where the store wasn't asked.
pub(crate) fn shown(
    alloc: Global,
    answer: Option<Result<Batch, RunFault>>,
) -> Result<String, Fail> {
    let mut out = String::new(alloc);
    match answer {
        Some(Ok(batch)) => {
            for found in batch.found.as_slice() {
                show_found(&mut out, found)?;
                out.push_str(";")?;
            }
        }
        Some(Err(RunFault::TooMany)) => out.push_str("too many")?,
        Some(Err(RunFault::Store)) => out.push_str("store")?,
        Some(Err(RunFault::Memory)) => out.push_str("memory")?,
        None => out.push_str("unfit")?,
    }
    Ok(out)
}
