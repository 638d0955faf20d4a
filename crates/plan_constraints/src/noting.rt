//! Lists of constraints without repeats.

ghost use Rattle.std.specs.Prelude.{◌≡◌, ◌&&◌, ◌||◌, OnOk, OnErr, drop};
ghost use Rattle.std.specs.Str.{bytes_eq};
ghost use Rattle.std.specs.Cmp.Lexicographic.{pointwise};
ghost use Rattle.plan_constraints.specs.Constraints.{IsNoted};
ghost use Rattle.plan_constraints.specs.Same as spec;

use crate::{Constraint, Part};
use pg_base::{Memory, Text};
use sqlite_items::Items;

fn are_same_paths(xs: &[Part], ys: &[Part]) -> bool
    ensures { result ≡ pointwise spec.same_part xs.now ys.now }
{
    for i in 0..xs.len() {
        if i >= ys.len() {
            return false;
        }
        if !xs[i].is_same(&ys[i]) {
            return false;
        }
    }
    xs.len() == ys.len()
}

fn are_same_names(xs: &[Text], ys: &[Text]) -> bool
    ensures { result ≡ pointwise bytes_eq xs.now ys.now }
{
    for i in 0..xs.len() {
        if i >= ys.len() {
            return false;
        }
        if xs[i] != ys[i] {
            return false;
        }
    }
    xs.len() == ys.len()
}

fn is_same(one: &Constraint, other: &Constraint) -> bool
    ensures { result ≡ spec.same_constraint one.now other.now }
{
    match one {
        Constraint::Value(path, value) => match other {
            Constraint::Value(of_other, wanted) => {
                are_same_paths(path.as_slice(), of_other.as_slice()) && value.is_same(wanted)
            }
            Constraint::Exists(_, _) => false,
            Constraint::Null(_, _) => false,
            Constraint::Keys(_, _) => false,
        },
        Constraint::Exists(path, present) => match other {
            Constraint::Value(_, _) => false,
            Constraint::Exists(of_other, wanted) => {
                are_same_paths(path.as_slice(), of_other.as_slice()) && *present == *wanted
            }
            Constraint::Null(_, _) => false,
            Constraint::Keys(_, _) => false,
        },
        Constraint::Null(path, null) => match other {
            Constraint::Value(_, _) => false,
            Constraint::Exists(_, _) => false,
            Constraint::Null(of_other, wanted) => {
                are_same_paths(path.as_slice(), of_other.as_slice()) && *null == *wanted
            }
            Constraint::Keys(_, _) => false,
        },
        Constraint::Keys(path, names) => match other {
            Constraint::Value(_, _) => false,
            Constraint::Exists(_, _) => false,
            Constraint::Null(_, _) => false,
            Constraint::Keys(of_other, wanted) => {
                are_same_paths(path.as_slice(), of_other.as_slice())
                    && are_same_names(names.as_slice(), wanted.as_slice())
            }
        },
    }
}

fn is_among(constraint: &Constraint, list: &[Constraint]) -> bool
    ensures { result ≡ spec.is_among constraint.now list.now }
{
    for other in list {
        if is_same(constraint, other) {
            return true;
        }
    }
    false
}

/// Puts a constraint at the end of a list that doesn't have it yet.
///
/// # Errors
/// Out of memory; the list is then as before.
pub fn note(list: &mut Items<Constraint>, new: Constraint) -> Result<(), Memory>
    ensures ok { OnOk result (IsNoted list.old new list.new) }
    ensures list { OnOk result (list.new ≡ spec.with_constraint list.old new) }
    ensures err { OnErr result (list.new ≡ list.old) }
{
    if is_among(&new, list.as_slice()) {
        return Ok(());
    }
    list.push(new)
}
