//! Whether constraints hold.

ghost use Rattle.std.specs.Prelude.{◌≡◌, ◌↔◌, ◌&&◌, IsTrue, Some, option_map, slice_get, drop};
ghost use Rattle.pg_base.specs.Value as values;
ghost use Rattle.plan_constraints.specs.Path as path_of;
ghost use Rattle.plan_constraints.specs.Constraints.{Hold};
ghost use Rattle.plan_constraints.specs.Tests as spec;

use crate::{Constraint, Part};
use pg_base::{Member, Text, Value, Vars};

fn find_member<'a>(members: &'a [Member], name: &Text) -> Option<&'a Value>
    ensures { option_map (λ v. v.now) result ≡ values.member_in members.now name.now }
{
    for member in members {
        if member.name == *name {
            return Some(&member.value);
        }
    }
    None
}

fn member_of<'a>(value: &'a Value, name: &Text) -> Option<&'a Value>
    ensures { option_map (λ v. v.now) result ≡
        values.member_in (values.members_of value.now) name.now }
{
    match value {
        Value::Object(members) => find_member(members.as_slice(), name),
        Value::Null => None,
        Value::Int(_) => None,
        Value::Bool(_) => None,
        Value::Text(_) => None,
        Value::Case(_) => None,
        Value::List(_) => None,
    }
}

fn item_of(value: &Value, place: u32) -> Option<&Value>
    ensures { option_map (λ v. v.now) result ≡ slice_get (values.items_of value.now) place }
{
    match value {
        Value::List(items) => items.get(place as usize),
        Value::Null => None,
        Value::Int(_) => None,
        Value::Bool(_) => None,
        Value::Text(_) => None,
        Value::Case(_) => None,
        Value::Object(_) => None,
    }
}

fn part_of<'a>(value: &'a Value, part: &Part) -> Option<&'a Value>
    ensures { option_map (λ v. v.now) result ≡ path_of.part_of value.now part.now }
{
    match part {
        Part::Name(name) => member_of(value, name),
        Part::Index(place) => item_of(value, *place),
    }
}

/// What stands at the rest of a path, from a value on.
fn below<'a>(value: &'a Value, path: &[Part]) -> Option<&'a Value>
    ensures { option_map (λ v. v.now) result ≡ path_of.below (Some value.now) path.now }
{
    let mut at = value;
    for part in path {
        match part_of(at, part) {
            Some(found) => at = found,
            None => return None,
        }
    }
    Some(at)
}

/// What stands at a path into the variables; None where nothing does.
pub fn value_at<'a>(vars: &'a Vars, path: &[Part]) -> Option<&'a Value>
    ensures { option_map (λ v. v.now) result ≡ path_of.value_at vars.now path.now }
{
    match path {
        [] => None,
        [first, rest @ ..] => match first {
            Part::Index(_) => None,
            Part::Name(name) => match vars.get(name) {
                Some(value) => below(value, rest),
                None => None,
            },
        },
    }
}

fn is_null(value: &Value) -> bool
    ensures { result ≡ values.is_null value.now }
{
    match value {
        Value::Null => true,
        Value::Int(_) => false,
        Value::Bool(_) => false,
        Value::Text(_) => false,
        Value::Case(_) => false,
        Value::List(_) => false,
        Value::Object(_) => false,
    }
}

fn are_named(members: &[Member], names: &[Text]) -> bool
    ensures { result ≡ spec.are_named members.now names.now }
{
    for i in 0..members.len() {
        if i >= names.len() {
            return false;
        }
        let member = &members[i];
        if member.name != names[i] {
            return false;
        }
    }
    members.len() == names.len()
}

fn has_keys(value: &Value, names: &[Text]) -> bool
    ensures { result ≡ spec.has_fields value.now names.now }
{
    match value {
        Value::Object(members) => are_named(members.as_slice(), names),
        Value::Null => false,
        Value::Int(_) => false,
        Value::Bool(_) => false,
        Value::Text(_) => false,
        Value::Case(_) => false,
        Value::List(_) => false,
    }
}

fn meets(constraint: &Constraint, vars: &Vars) -> bool
    ensures { result ≡ spec.meets vars.now constraint.now }
{
    match constraint {
        Constraint::Value(path, wanted) => match value_at(vars, path.as_slice()) {
            Some(value) => value.is_same(wanted),
            None => false,
        },
        Constraint::Exists(path, present) => value_at(vars, path.as_slice()).is_some() == *present,
        Constraint::Null(path, null) => match value_at(vars, path.as_slice()) {
            Some(value) => is_null(value) == *null,
            None => false,
        },
        Constraint::Keys(path, names) => match value_at(vars, path.as_slice()) {
            Some(value) => has_keys(value, names.as_slice()),
            None => false,
        },
    }
}

fn all_met(constraints: &[Constraint], vars: &Vars) -> bool
    ensures { result ≡ spec.all_met constraints.now vars.now }
{
    for constraint in constraints {
        if !meets(constraint, vars) {
            return false;
        }
    }
    true
}

/// Whether all the constraints hold of the variables.
pub fn holds(constraints: &[Constraint], vars: &Vars) -> bool
    ensures { IsTrue result ↔ Hold constraints.now vars.now }
{
    all_met(constraints, vars)
}
