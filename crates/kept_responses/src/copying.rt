//! Copies of what a plan is kept under.

ghost use Rattle.std.specs.Prelude.{◌≡◌, IfOk};

use pg_base::{Blob, Memory, Text};
use plan_constraints::{Constraint, Part};
use sqlite_items::Items;
use std::alloc::Global;

fn copy_path(alloc: Global, path: &[Part]) -> Result<Items<Part>, Memory>
    ensures { IfOk result (λ copy. copy ≡ path.now) }
{
    let mut copy = Items::new(alloc);
    for part in path {
        copy.push(part.copy(alloc)?)?;
    }
    Ok(copy)
}

fn copy_names(alloc: Global, names: &[Text]) -> Result<Items<Text>, Memory>
    ensures { IfOk result (λ copy. copy ≡ names.now) }
{
    let mut copy = Items::new(alloc);
    for name in names {
        copy.push(name.copy(alloc)?)?;
    }
    Ok(copy)
}

fn copy_constraint(alloc: Global, constraint: &Constraint) -> Result<Constraint, Memory>
    ensures { IfOk result (λ copy. copy ≡ constraint.now) }
{
    match constraint {
        Constraint::Value(path, value) => {
            let path = copy_path(alloc, path.as_slice())?;
            Ok(Constraint::Value(path, value.copy(alloc)?))
        }
        Constraint::Exists(path, present) => {
            let path = copy_path(alloc, path.as_slice())?;
            Ok(Constraint::Exists(path, *present))
        }
        Constraint::Null(path, null) => {
            let path = copy_path(alloc, path.as_slice())?;
            Ok(Constraint::Null(path, *null))
        }
        Constraint::Keys(path, names) => {
            let path = copy_path(alloc, path.as_slice())?;
            let names = copy_names(alloc, names.as_slice())?;
            Ok(Constraint::Keys(path, names))
        }
    }
}

/// A copy of constraints.
pub(crate) fn copy_constraints(
    alloc: Global,
    constraints: &[Constraint],
) -> Result<Items<Constraint>, Memory>
    ensures { IfOk result (λ copy. copy ≡ constraints.now) }
{
    let mut copy = Items::new(alloc);
    for constraint in constraints {
        copy.push(copy_constraint(alloc, constraint)?)?;
    }
    Ok(copy)
}

/// A copy of the bytes of a document.
pub(crate) fn copy_text(alloc: Global, text: &[u8]) -> Result<Blob, Memory>
    ensures { IfOk result (λ copy. copy ≡ text.now) }
{
    let bytes = Vec::from_slice(alloc, text)?;
    Ok(Blob::of(bytes))
}
