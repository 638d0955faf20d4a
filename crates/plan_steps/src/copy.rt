//! Copies of fetches.

ghost use Rattle.std.specs.Prelude.{◌≡◌, IfOk};

use crate::plan::{FetchStep, Slot, SlotEqual, SlotWindow};
use pg_base::Memory;
use plan_constraints::Part;
use sqlite_items::Items;
use std::alloc::Global;

fn copy_path(alloc: Global, path: &[Part]) -> Result<Items<Part>, Memory>
    ensures { IfOk result (λ copy. copy ≡ path.now) }
{
    let mut copy = Items::new(alloc);
    for part in path {
        copy.push(part.copy(alloc)?)?;
    }
    Ok(copy)
}

fn copy_slot(alloc: Global, slot: &Slot) -> Result<Slot, Memory>
    ensures { IfOk result (λ copy. copy ≡ slot.now) }
{
    match slot {
        Slot::Const(cell) => Ok(Slot::Const(cell.copy(alloc)?)),
        Slot::Var(path) => Ok(Slot::Var(copy_path(alloc, path.as_slice())?)),
    }
}

fn copy_optional(alloc: Global, slot: &Option<Slot>) -> Result<Option<Slot>, Memory>
    ensures { IfOk result (λ copy. copy ≡ slot.now) }
{
    match slot {
        None => Ok(None),
        Some(slot) => Ok(Some(copy_slot(alloc, slot)?)),
    }
}

fn copy_window(alloc: Global, window: &SlotWindow) -> Result<SlotWindow, Memory>
    ensures { IfOk result (λ copy. copy ≡ window.now) }
{
    let first = copy_optional(alloc, &window.first)?;
    let last = copy_optional(alloc, &window.last)?;
    let offset = copy_optional(alloc, &window.offset)?;
    let before = copy_optional(alloc, &window.before)?;
    let after = copy_optional(alloc, &window.after)?;
    Ok(SlotWindow {
        first,
        last,
        offset,
        before,
        after,
    })
}

fn copy_slots(alloc: Global, slots: &[Slot]) -> Result<Items<Slot>, Memory>
    ensures { IfOk result (λ copy. copy ≡ slots.now) }
{
    let mut copy = Items::new(alloc);
    for slot in slots {
        copy.push(copy_slot(alloc, slot)?)?;
    }
    Ok(copy)
}

fn copy_condition(alloc: Global, condition: &[SlotEqual]) -> Result<Items<SlotEqual>, Memory>
    ensures { IfOk result (λ copy. copy ≡ condition.now) }
{
    let mut copy = Items::new(alloc);
    for e in condition {
        let slot = copy_slot(alloc, &e.slot)?;
        copy.push(SlotEqual {
            column: e.column,
            slot,
        })?;
    }
    Ok(copy)
}

impl FetchStep {
    pub fn copy(&self, alloc: Global) -> Result<FetchStep, Memory>
        ensures { IfOk result (λ copy. copy ≡ self.now) }
    {
        let by = Items::from_slice(alloc, self.by.as_slice())?;
        let parent_columns = Items::from_slice(alloc, self.parent_columns.as_slice())?;
        let condition = copy_condition(alloc, self.condition.as_slice())?;
        let key = copy_slots(alloc, self.key.as_slice())?;
        let order = Items::from_slice(alloc, self.order.as_slice())?;
        let window = copy_window(alloc, &self.window)?;
        let mut children = Items::new(alloc);
        for child in self.children.as_slice() {
            children.push(child.copy(alloc)?)?;
        }
        Ok(FetchStep {
            table: self.table,
            by,
            parent: self.parent,
            parent_columns,
            condition,
            key,
            order,
            window,
            rows: self.rows,
            children,
        })
    }
}
