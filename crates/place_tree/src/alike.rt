//! Whether two arguments are written alike.

ghost use Rattle.std.specs.Prelude.{◌≡◌, ◌&&◌, drop};
ghost use Rattle.std.specs.Str.{bytes_eq};
ghost use Rattle.std.specs.Cmp.Lexicographic.{pointwise};
ghost use Rattle.place_tree.specs.Same as spec;

use gql_input::{ArgMember, ArgValue};

#[cycle(alike)]
pub fn is_alike(a: &ArgValue, b: &ArgValue) -> bool
    ensures { result ≡ spec.same_arg a.now b.now }
{
    match a {
        ArgValue::Null => match b {
            ArgValue::Null => true,
            _ => false,
        },
        ArgValue::Int(x) => match b {
            ArgValue::Int(y) => *x == *y,
            _ => false,
        },
        ArgValue::Bool(x) => match b {
            ArgValue::Bool(y) => *x == *y,
            _ => false,
        },
        ArgValue::Text(x) => match b {
            ArgValue::Text(y) => *x == *y,
            _ => false,
        },
        ArgValue::Case(x) => match b {
            ArgValue::Case(y) => *x == *y,
            _ => false,
        },
        ArgValue::Variable(x) => match b {
            ArgValue::Variable(y) => *x == *y,
            _ => false,
        },
        ArgValue::List(xs) => match b {
            ArgValue::List(ys) => are_alike(xs.as_slice(), ys.as_slice()),
            _ => false,
        },
        ArgValue::Object(xs) => match b {
            ArgValue::Object(ys) => have_same_members(xs.as_slice(), ys.as_slice()),
            _ => false,
        },
    }
}

#[cycle(alike)]
fn are_alike(xs: &[ArgValue], ys: &[ArgValue]) -> bool
    ensures { result ≡ pointwise spec.same_arg xs.now ys.now }
{
    for i in 0..xs.len() {
        if i >= ys.len() {
            return false;
        }
        if !is_alike(&xs[i], &ys[i]) {
            return false;
        }
    }
    xs.len() == ys.len()
}

#[cycle(alike)]
fn have_same_members(xs: &[ArgMember], ys: &[ArgMember]) -> bool
    ensures { result ≡ pointwise spec.same_member xs.now ys.now }
{
    for i in 0..xs.len() {
        if i >= ys.len() {
            return false;
        }
        let x = &xs[i];
        let y = &ys[i];
        if x.name != y.name {
            return false;
        }
        if !is_alike(&x.value, &y.value) {
            return false;
        }
    }
    xs.len() == ys.len()
}
