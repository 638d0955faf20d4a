//! Lists of one: what isn't a list, where one is expected, at every level.

ghost use Rattle.std.specs.Prelude.{◌≡◌, IfOk};
ghost use Rattle.gql_types.specs.Positions.{ty_at};
ghost use Rattle.gql_input.specs.Coercions.{in_lists};
ghost use Rattle.gql_input.specs.Given.{one as one_value};
ghost use Rattle.gql_input.specs.Literals.{one as one_argument};

use crate::argument::ArgValue;
use gql_types::Position;
use pg_base::{Memory, Value};
use sqlite_items::Items;
use std::alloc::Global;

fn one_value_of(alloc: Global, value: Value) -> Result<Value, Memory>
    ensures { IfOk result (λ v. v ≡ one_value value) }
{
    let mut items = Items::new(alloc);
    items.push(value)?;
    Ok(Value::List(items))
}

fn one_argument_of(alloc: Global, value: ArgValue) -> Result<ArgValue, Memory>
    ensures { IfOk result (λ v. v ≡ one_argument value) }
{
    let mut items = Items::new(alloc);
    items.push(value)?;
    Ok(ArgValue::List(items))
}

#[tactic(auto, using(crate::proofs::Levels::no_level, crate::proofs::Levels::one_level))]
pub(crate) fn value_in_lists(alloc: Global, at: Position<'_>, value: Value) -> Result<Value, Memory>
    ensures { IfOk result (λ v. v ≡ in_lists one_value (ty_at at.entry) value) }
{
    match at.item() {
        None => Ok(value),
        Some(item) => {
            let inner = value_in_lists(alloc, item, value)?;
            let list = one_value_of(alloc, inner)?;
            Ok(list)
        }
    }
}

#[tactic(auto, using(crate::proofs::Levels::no_level, crate::proofs::Levels::one_level))]
pub(crate) fn argument_in_lists(
    alloc: Global,
    at: Position<'_>,
    value: ArgValue,
) -> Result<ArgValue, Memory>
    ensures { IfOk result (λ v. v ≡ in_lists one_argument (ty_at at.entry) value) }
{
    match at.item() {
        None => Ok(value),
        Some(item) => {
            let inner = argument_in_lists(alloc, item, value)?;
            let list = one_argument_of(alloc, inner)?;
            Ok(list)
        }
    }
}
