//! Lists of words that tell fetches and steps apart.

ghost use Rattle.std.specs.Prelude.{◌≡◌, ◌∷◌, ◌++◌, [], OnOk};
ghost use Rattle.dedupe_steps.specs.declared.words.Word.TheVariants as word;
ghost use Rattle.dedupe_steps.specs.Keys.{content};
ghost use Rattle.dedupe_steps.specs.Words as spec;

use crate::lookups::number_at;
use crate::words::{Word, put_letters, put_number, put_truth, put_value, put_whole};
use pg_base::{Cell, Memory};
use plan_constraints::Part;
use plan_steps::{FetchStep, Slot, SlotEqual, SlotWindow, Step};
use rel_model::By;
use std::alloc::Global;

pub(crate) fn put_cell(alloc: Global, out: &mut Vec<Word>, cell: &Cell) -> Result<(), Memory>
    ensures { OnOk result (out.new.items ≡ out.old.items ++ spec.cell_words cell.now) }
{
    match cell {
        Cell::Null => put_number(out, 0),
        Cell::Int(number) => {
            put_number(out, 1)?;
            put_whole(out, *number)
        }
        Cell::Bool(truth) => {
            put_number(out, 2)?;
            put_truth(out, *truth)
        }
        Cell::Text(text) => {
            put_number(out, 3)?;
            put_letters(alloc, out, text)
        }
        Cell::EnumCase(case) => {
            put_number(out, 4)?;
            put_number(out, *case)
        }
    }
}

fn put_part(alloc: Global, out: &mut Vec<Word>, part: &Part) -> Result<(), Memory>
    ensures { OnOk result (out.new.items ≡ out.old.items ++ spec.part_words part.now) }
{
    match part {
        Part::Name(name) => {
            put_number(out, 0)?;
            put_letters(alloc, out, name)
        }
        Part::Index(place) => {
            put_number(out, 1)?;
            put_number(out, *place)
        }
    }
}

fn put_path(alloc: Global, out: &mut Vec<Word>, path: &[Part]) -> Result<(), Memory>
    ensures { OnOk result (out.new.items ≡ out.old.items ++ spec.each spec.part_words path.now) }
{
    for part in path {
        put_number(out, 1)?;
        put_part(alloc, out, part)?;
    }
    put_number(out, 0)
}

fn put_slot(alloc: Global, out: &mut Vec<Word>, slot: &Slot) -> Result<(), Memory>
    ensures { OnOk result (out.new.items ≡ out.old.items ++ spec.slot_words slot.now) }
{
    match slot {
        Slot::Const(cell) => {
            put_number(out, 0)?;
            put_cell(alloc, out, cell)
        }
        Slot::Var(path) => {
            put_number(out, 1)?;
            put_path(alloc, out, path.as_slice())
        }
    }
}

fn put_slots(alloc: Global, out: &mut Vec<Word>, slots: &[Slot]) -> Result<(), Memory>
    ensures { OnOk result (out.new.items ≡ out.old.items ++ spec.each spec.slot_words slots.now) }
{
    for slot in slots {
        put_number(out, 1)?;
        put_slot(alloc, out, slot)?;
    }
    put_number(out, 0)
}

fn put_columns(out: &mut Vec<Word>, columns: &[u32]) -> Result<(), Memory>
    ensures { OnOk result (out.new.items ≡ out.old.items ++ spec.each spec.number columns.now) }
{
    for column in columns {
        put_number(out, 1)?;
        put_number(out, *column)?;
    }
    put_number(out, 0)
}

fn put_condition(alloc: Global, out: &mut Vec<Word>, condition: &[SlotEqual]) -> Result<(), Memory>
    ensures { OnOk result
        (out.new.items ≡ out.old.items ++ spec.each spec.equal_words condition.now) }
{
    for e in condition {
        put_number(out, 1)?;
        put_number(out, e.column)?;
        put_slot(alloc, out, &e.slot)?;
    }
    put_number(out, 0)
}

fn put_order(out: &mut Vec<Word>, order: &[By]) -> Result<(), Memory>
    ensures { OnOk result (out.new.items ≡ out.old.items ++ spec.each spec.by_words order.now) }
{
    for by in order {
        put_number(out, 1)?;
        put_number(out, by.column)?;
        put_truth(out, by.descending)?;
    }
    put_number(out, 0)
}

fn put_optional(alloc: Global, out: &mut Vec<Word>, slot: &Option<Slot>) -> Result<(), Memory>
    ensures { OnOk result
        (out.new.items ≡ out.old.items ++ spec.optional spec.slot_words slot.now) }
{
    match slot {
        None => put_number(out, 0),
        Some(slot) => {
            put_number(out, 1)?;
            put_slot(alloc, out, slot)
        }
    }
}

fn put_window(alloc: Global, out: &mut Vec<Word>, window: &SlotWindow) -> Result<(), Memory>
    ensures { OnOk result (out.new.items ≡ out.old.items ++ spec.window_words window.now) }
{
    put_optional(alloc, out, &window.first)?;
    put_optional(alloc, out, &window.last)?;
    put_optional(alloc, out, &window.offset)?;
    put_optional(alloc, out, &window.before)?;
    put_optional(alloc, out, &window.after)
}

fn put_fetch(alloc: Global, out: &mut Vec<Word>, fetch: &FetchStep) -> Result<(), Memory>
    ensures { OnOk result (out.new.items ≡ out.old.items ++ spec.fetch_words fetch.now) }
{
    put_number(out, fetch.table)?;
    put_columns(out, fetch.by.as_slice())?;
    put_columns(out, fetch.parent_columns.as_slice())?;
    put_condition(alloc, out, fetch.condition.as_slice())?;
    put_slots(alloc, out, fetch.key.as_slice())?;
    put_order(out, fetch.order.as_slice())?;
    put_window(alloc, out, &fetch.window)
}

/// Two numbers after that of the sort of a step.
fn put_step_of(out: &mut Vec<Word>, sort: u32, named: u32) -> Result<(), Memory>
    ensures { OnOk result
        (out.new.items ≡ out.old.items ++ word.Number sort ∷ word.Number named ∷ []) }
{
    put_number(out, sort)?;
    put_number(out, named)
}

/// What a step has beside its place, with the steps that it names under their new numbers.
pub(crate) fn put_step(
    alloc: Global,
    out: &mut Vec<Word>,
    to: &[u32],
    step: &Step,
) -> Result<(), Memory>
    ensures { OnOk result
        (out.new.items ≡ out.old.items ++ spec.step_words (content to.now step.now)) }
{
    match step {
        Step::Const(value) => {
            put_number(out, 0)?;
            put_value(alloc, out, value)
        }
        Step::Var(path) => {
            put_number(out, 1)?;
            put_path(alloc, out, path.as_slice())
        }
        Step::Given => put_number(out, 2),
        Step::Fetch(fetch) => {
            put_number(out, 3)?;
            put_fetch(alloc, out, fetch)
        }
        Step::Item(fetch) => put_step_of(out, 4, number_at(to, *fetch as usize)),
        Step::Column(row, column) => {
            put_step_of(out, 5, number_at(to, *row as usize))?;
            put_number(out, *column)
        }
        Step::Count(fetch) => put_step_of(out, 6, number_at(to, *fetch as usize)),
        Step::Page(fetch, part) => {
            put_step_of(out, 7, number_at(to, *fetch as usize))?;
            put_number(out, u32::from(*part))
        }
        Step::CursorOf(item) => put_step_of(out, 8, number_at(to, *item as usize)),
    }
}
