//! The variables of an operation.

ghost use Rattle.std.specs.Prelude.{◌≡◌, option_map};
ghost use Rattle.serde_json.specs.View.{view};
ghost use Rattle.gql_types.specs.Positions.{ty_at, ty_if};
ghost use Rattle.gql_input.specs.Coerced as spec;

use crate::argument::constant;
use crate::fault::{InputError, MISSING, VarError, VarFault};
use crate::given::coerce_given;
use crate::literal::coerce_literal;
use crate::texts::as_str;
use gql_reader::{OperationDefinition, Value as Literal, VariableDefinition};
use gql_types::{Position, written};
use pg_base::{Schema, Value, Variable, Vars};
use serde_json::Value as Json;
use sqlite_items::Items;
use std::alloc::Global;

fn by_default(
    alloc: Global,
    schema: &Schema,
    default: &Option<Literal>,
    at: Position<'_>,
) -> Result<Option<Value>, InputError>
    ensures { spec.Answers (spec.by_default schema.now (ty_at at.entry) default.now) result }
{
    match default {
        Some(literal) => {
            let argument = coerce_literal(alloc, schema, literal, at)?;
            let value = constant(alloc, &argument)?;
            Ok(Some(value))
        }
        None => {
            if at.is_not_null() {
                return Err(InputError::Fault(MISSING));
            }
            Ok(None)
        }
    }
}

fn entry_at(
    alloc: Global,
    schema: &Schema,
    default: &Option<Literal>,
    given: Option<&Json>,
    at: Position<'_>,
) -> Result<Option<Value>, InputError>
    ensures { spec.Answers (spec.entry_at schema.now default.now
        (option_map (λ d. view d.now) given.entry) (ty_at at.entry)) result }
{
    match given {
        Some(json) => {
            let value = coerce_given(alloc, schema, json, at)?;
            Ok(Some(value))
        }
        None => by_default(alloc, schema, default, at),
    }
}

/// The entry of a variable, or none.
fn entry_of(
    alloc: Global,
    schema: &Schema,
    variable: &VariableDefinition,
    given: &Json,
) -> Result<Option<Value>, InputError>
    ensures { spec.Answers (spec.entry_of schema.now variable.now (view given.now)) result }
{
    let value = given.get(as_str(&variable.name));
    match written(schema, &variable.ty) {
        Some(at) => entry_at(alloc, schema, &variable.default, value, at),
        None => Ok(None),
    }
}

/// The same with the variable's name, and its fault with the name and the position.
fn named_entry(
    alloc: Global,
    schema: &Schema,
    variable: &VariableDefinition,
    given: &Json,
) -> Result<Option<Variable>, VarError>
    ensures { spec.AnswersVars
        (spec.named variable.now (spec.entry_of schema.now variable.now (view given.now))) result }
{
    match entry_of(alloc, schema, variable, given) {
        Ok(None) => Ok(None),
        Ok(Some(value)) => {
            let name = variable.name.copy(alloc)?;
            Ok(Some(Variable { name, value }))
        }
        Err(InputError::Fault(which)) => {
            let name = variable.name.copy(alloc)?;
            Err(VarError::Fault(VarFault {
                which,
                name,
                pos: variable.pos,
            }))
        }
        Err(InputError::Memory) => Err(VarError::Memory),
    }
}

/// The variables of an operation with what is given, which is an object or null: for each variable in the order of
/// definition the value that is given, or its default, read at its type.
///
/// # Errors
/// The fault of the first variable that has one, or out of memory.
pub fn coerce_vars(
    alloc: Global,
    schema: &Schema,
    operation: &OperationDefinition,
    given: &Json,
) -> Result<Vars, VarError>
    ensures { spec.AnswersVars (spec.coerced schema.now operation.now (view given.now)) result }
{
    let mut entries = Items::new(alloc);
    for variable in operation.variables.as_slice() {
        let Some(entry) = named_entry(alloc, schema, variable, given)? else {
            continue;
        };
        entries.push(entry)?;
    }
    Ok(Vars { entries })
}
