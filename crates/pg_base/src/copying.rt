//! Copies of values.

ghost use Rattle.std.specs.Prelude.{◌≡◌, IfOk};

use crate::{Member, Memory, Value};
use sqlite_items::Items;
use std::alloc::Global;

#[cycle(copy)]
pub(crate) fn copy_value(alloc: Global, value: &Value) -> Result<Value, Memory>
    ensures { IfOk result (λ copy. copy ≡ value.now) }
{
    match value {
        Value::Null => Ok(Value::Null),
        Value::Int(number) => Ok(Value::Int(*number)),
        Value::Bool(truth) => Ok(Value::Bool(*truth)),
        Value::Text(text) => Ok(Value::Text(text.copy(alloc)?)),
        Value::Case(case) => Ok(Value::Case(case.copy(alloc)?)),
        Value::List(items) => Ok(Value::List(copy_items(alloc, items.as_slice())?)),
        Value::Object(members) => Ok(Value::Object(copy_members(alloc, members.as_slice())?)),
    }
}

#[cycle(copy)]
fn copy_items(alloc: Global, items: &[Value]) -> Result<Items<Value>, Memory>
    ensures { IfOk result (λ copy. copy ≡ items.now) }
{
    let mut copy = Items::new(alloc);
    for item in items {
        copy.push(copy_value(alloc, item)?)?;
    }
    Ok(copy)
}

#[cycle(copy)]
fn copy_members(alloc: Global, members: &[Member]) -> Result<Items<Member>, Memory>
    ensures { IfOk result (λ copy. copy ≡ members.now) }
{
    let mut copy = Items::new(alloc);
    for member in members {
        copy.push(Member {
            name: member.name.copy(alloc)?,
            value: copy_value(alloc, &member.value)?,
        })?;
    }
    Ok(copy)
}
