//! All lines of `explain`.

ghost use Rattle.std.specs.Prelude.{◌≡◌, ◌++◌, OnOk, IfOk};
ghost use Rattle.explain_text.specs.Explained as spec;

use crate::constraints::put_constraints;
use crate::fetches::put_fetches;
use crate::pieces::put_number_line;
use pg_base::{Blob, Catalog, Memory};
use plan_steps::{Entry, Plan};
use std::alloc::Global;

/// What `explain` shows of a request that needs so many statements, and of the entry that answers it.
///
/// `needs N`; a line for each constraint, `when exists PATH B`, `when null PATH B`, `when value PATH JSON` or
/// `when keys PATH A,B`; a line `fetch TABLE by COLUMNS nodes N` for each fetch that is a statement of its own, with
/// `-` in place of the columns where no row above has the key; `layers N` and `steps N`. Each line ends with LF.
///
/// # Errors
/// Out of memory.
pub fn explain(alloc: Global, needs: u64, entry: &Entry) -> Result<Blob, Memory>
    ensures { IfOk result (λ text. text
        ≡ spec.explained needs entry.now.base entry.now.constraints entry.now.plan) }
{
    let mut out = Vec::new(alloc);
    put_lines(alloc, &mut out, needs, entry)?;
    Ok(Blob::of(out))
}

fn put_lines(alloc: Global, out: &mut Vec<u8>, needs: u64, entry: &Entry) -> Result<(), Memory>
    ensures { OnOk result (out.new.items ≡ out.old.items
        ++ spec.explained needs entry.now.base entry.now.constraints entry.now.plan) }
{
    put_number_line(out, b"needs ", needs)?;
    put_constraints(out, entry.constraints())?;
    put_plan(alloc, out, entry.base().catalog(), entry.plan())?;
    Ok(())
}

fn put_plan(alloc: Global, out: &mut Vec<u8>, catalog: &Catalog, plan: &Plan) -> Result<(), Memory>
    ensures { OnOk result (out.new.items ≡ out.old.items
        ++ spec.plan_lines catalog.now plan.now) }
{
    put_fetches(alloc, out, catalog, plan.steps.as_slice())?;
    put_number_line(out, b"layers ", plan.layers.len() as u64)?;
    put_number_line(out, b"steps ", plan.steps.len() as u64)?;
    Ok(())
}
