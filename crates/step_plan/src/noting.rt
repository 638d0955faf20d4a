//! What is noted for a tree of places.

ghost use Rattle.std.specs.Prelude.{◌≡◌, IfOk, OnOk, map, flat_map, drop};
ghost use Rattle.plan_constraints.specs.Noted as spec;
ghost use Rattle.plan_constraints.specs.Same.{with_constraints};
ghost use Rattle.step_plan.specs.Listed.{noted_as};
ghost use Rattle.step_plan.specs.declared.variables.How.TheVariants as how;

use crate::arguments::note_arguments;
use crate::lists::is_list;
use crate::variables::{How, note_variable};
use pg_base::{Base, Memory, Text, Vars};
use place_tree::{Place, Tree};
use plan_constraints::Constraint;
use sqlite_items::Items;
use std::alloc::Global;

/// Notes the variables that collection asked.
fn note_asked(
    alloc: Global,
    vars: &Vars,
    asked: &[Text],
    list: &mut Items<Constraint>,
) -> Result<(), Memory>
    ensures { OnOk result (list.new ≡
        with_constraints list.old (map (spec.whole_of vars.now) asked.now)) }
{
    for name in asked {
        note_variable(alloc, vars, How::Whole, name, list)?;
    }
    Ok(())
}

fn note_place(
    alloc: Global,
    base: &Base,
    vars: &Vars,
    place: &Place,
    list: &mut Items<Constraint>,
) -> Result<(), Memory>
    ensures { OnOk result (list.new ≡
        with_constraints list.old (spec.noted_at base.now vars.now place.now)) }
{
    if is_list(base, place) {
        return note_arguments(alloc, vars, place, list);
    }
    Ok(())
}

fn note_places(
    alloc: Global,
    base: &Base,
    vars: &Vars,
    places: &[Place],
    list: &mut Items<Constraint>,
) -> Result<(), Memory>
    ensures { OnOk result (list.new ≡
        with_constraints list.old (flat_map (spec.noted_at base.now vars.now) places.now)) }
{
    for place in places {
        note_place(alloc, base, vars, place, list)?;
    }
    Ok(())
}

fn note_all(
    alloc: Global,
    base: &Base,
    vars: &Vars,
    tree: &Tree,
    list: &mut Items<Constraint>,
) -> Result<(), Memory>
    ensures { OnOk result (list.new ≡
        with_constraints list.old (spec.noted_all base.now vars.now tree.now)) }
{
    note_asked(alloc, vars, tree.asked.as_slice(), list)?;
    note_places(alloc, base, vars, tree.places.as_slice(), list)
}

/// The constraints that are noted for a tree and the variables it is planned with: those that a plan of the tree may rest
/// on. Each stands once, where it comes first.
///
/// # Errors
/// Out of memory.
pub fn noted(
    alloc: Global,
    base: &Base,
    vars: &Vars,
    tree: &Tree,
) -> Result<Items<Constraint>, Memory>
    ensures { IfOk result (λ list. list ≡ spec.noted base.now vars.now tree.now) }
{
    let mut list = Items::new(alloc);
    note_all(alloc, base, vars, tree, &mut list)?;
    Ok(list)
}
