//! Values of arguments, as a document writes them at their types.

ghost use Rattle.std.specs.Prelude.{◌≡◌, IfOk};
ghost use Rattle.pg_base.specs.Vars.{variable};
ghost use Rattle.gql_input.specs.Arguments as spec;
ghost use Rattle.gql_input.specs.Listed.{each_value, each_member};

use pg_base::{Member, Memory, Text, Value, Vars};
use sqlite_items::Items;
use std::alloc::Global;

/// A value of an argument, which may hold variables.
#[cycle(argument)]
#[derive(Drop)]
pub enum ArgValue {
    Variable(Text),
    Null,
    Int(i64),
    Bool(bool),
    Text(Text),
    /// A case of an enum, by its name.
    Case(Text),
    List(Items<ArgValue>),
    /// The fields that are written, in the order of the schema.
    Object(Items<ArgMember>),
}

/// A field of an object.
#[cycle(argument)]
#[derive(Drop)]
pub struct ArgMember {
    pub name: Text,
    pub value: ArgValue,
}

fn held(alloc: Global, vars: &Vars, name: &Text) -> Result<Option<Value>, Memory>
    ensures { IfOk result (λ v. v ≡ variable vars.now name.now) }
{
    match vars.get(name) {
        Some(value) => Ok(Some(value.copy(alloc)?)),
        None => Ok(None),
    }
}

/// The value with its variables; none for a variable that has no entry. A field whose variable has no entry isn't
/// given; in a list such a variable is null.
#[cycle(with)]
pub fn value_with(alloc: Global, vars: &Vars, value: &ArgValue) -> Result<Option<Value>, Memory>
    ensures { IfOk result (λ v. v ≡ spec.value_with vars.now value.now) }
{
    match value {
        ArgValue::Variable(name) => {
            let value = held(alloc, vars, name)?;
            Ok(value)
        }
        ArgValue::Null => Ok(Some(Value::Null)),
        ArgValue::Int(number) => Ok(Some(Value::Int(*number))),
        ArgValue::Bool(truth) => Ok(Some(Value::Bool(*truth))),
        ArgValue::Text(text) => Ok(Some(Value::Text(text.copy(alloc)?))),
        ArgValue::Case(name) => Ok(Some(Value::Case(name.copy(alloc)?))),
        ArgValue::List(items) => {
            Ok(Some(Value::List(values_with(alloc, vars, items.as_slice())?)))
        }
        ArgValue::Object(members) => {
            Ok(Some(Value::Object(members_with(alloc, vars, members.as_slice())?)))
        }
    }
}

#[cycle(with)]
fn values_with(alloc: Global, vars: &Vars, items: &[ArgValue]) -> Result<Items<Value>, Memory>
    ensures { IfOk result (λ vs. vs ≡ each_value vars.now items.now) }
{
    let mut values = Items::new(alloc);
    for item in items {
        let value = value_with(alloc, vars, item)?;
        values.push(value.unwrap_or(Value::Null))?;
    }
    Ok(values)
}

#[cycle(with)]
fn members_with(alloc: Global, vars: &Vars, members: &[ArgMember]) -> Result<Items<Member>, Memory>
    ensures { IfOk result (λ ms. ms ≡ each_member vars.now members.now) }
{
    let mut given = Items::new(alloc);
    for member in members {
        let Some(value) = value_with(alloc, vars, &member.value)? else {
            continue;
        };
        let name = member.name.copy(alloc)?;
        given.push(Member { name, value })?;
    }
    Ok(given)
}

/// The value, where no variable has an entry.
pub(crate) fn constant(alloc: Global, value: &ArgValue) -> Result<Value, Memory>
    ensures { IfOk result (λ v. v ≡ spec.constant value.now) }
{
    let vars = Vars {
        entries: Items::new(alloc),
    };
    let constant = value_with(alloc, &vars, value)?;
    Ok(constant.unwrap_or(Value::Null))
}
