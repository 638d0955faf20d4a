//! Whether two values are the same.

ghost use Rattle.std.specs.Prelude.{◌≡◌, ◌&&◌, drop};
ghost use Rattle.std.specs.Str.{bytes_eq};
ghost use Rattle.std.specs.Cmp.Lexicographic.{pointwise};
ghost use Rattle.pg_base.specs.SameValue as spec;

use crate::{Member, Value};

#[cycle(same)]
pub(crate) fn is_same_value(a: &Value, b: &Value) -> bool
    ensures { result ≡ spec.same_value a.now b.now }
{
    match a {
        Value::Null => match b {
            Value::Null => true,
            _ => false,
        },
        Value::Int(x) => match b {
            Value::Int(y) => *x == *y,
            _ => false,
        },
        Value::Bool(x) => match b {
            Value::Bool(y) => *x == *y,
            _ => false,
        },
        Value::Text(x) => match b {
            Value::Text(y) => *x == *y,
            _ => false,
        },
        Value::Case(x) => match b {
            Value::Case(y) => *x == *y,
            _ => false,
        },
        Value::List(xs) => match b {
            Value::List(ys) => are_same(xs.as_slice(), ys.as_slice()),
            _ => false,
        },
        Value::Object(xs) => match b {
            Value::Object(ys) => are_same_members(xs.as_slice(), ys.as_slice()),
            _ => false,
        },
    }
}

#[cycle(same)]
fn are_same(xs: &[Value], ys: &[Value]) -> bool
    ensures { result ≡ pointwise spec.same_value xs.now ys.now }
{
    for i in 0..xs.len() {
        if i >= ys.len() {
            return false;
        }
        if !is_same_value(&xs[i], &ys[i]) {
            return false;
        }
    }
    xs.len() == ys.len()
}

#[cycle(same)]
fn are_same_members(xs: &[Member], ys: &[Member]) -> bool
    ensures { result ≡ pointwise spec.same_value_member xs.now ys.now }
{
    for i in 0..xs.len() {
        if i >= ys.len() {
            return false;
        }
        let x = &xs[i];
        let y = &ys[i];
        if x.name != y.name {
            return false;
        }
        if !is_same_value(&x.value, &y.value) {
            return false;
        }
    }
    xs.len() == ys.len()
}
