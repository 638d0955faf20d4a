//! The lines of constraints, appended.

ghost use Rattle.std.specs.Prelude.{◌≡◌, ◌++◌, false, OnOk, codes};
ghost use Rattle.explain_text.specs.Explained as spec;
ghost use Rattle.explain_text.specs.Values.{separated, truth_text, value_json};

use crate::pieces::{put, put_before, put_number, put_truth};
use crate::values::put_value;
use pg_base::{Memory, Text, Value};
use plan_constraints::{Constraint, Part};

fn put_part(out: &mut Vec<u8>, part: &Part) -> Result<(), Memory>
    ensures { OnOk result (out.new.items ≡ out.old.items ++ spec.part_text part.now) }
{
    match part {
        Part::Name(name) => put(out, name.bytes()),
        Part::Index(place) => put_number(out, u64::from(*place)),
    }
}

fn put_path(out: &mut Vec<u8>, path: &[Part]) -> Result<(), Memory>
    ensures { OnOk result (out.new.items ≡ out.old.items ++ spec.path_text path.now) }
{
    let mut due = false;
    for part in path {
        put_before(out, b'.', due)?;
        put_part(out, part)?;
        due = true;
    }
    Ok(())
}

fn put_names(out: &mut Vec<u8>, names: &[Text]) -> Result<(), Memory>
    ensures { OnOk result (out.new.items ≡ out.old.items
        ++ separated 44 spec.name_text false names.now) }
{
    let mut due = false;
    for name in names {
        put_before(out, b',', due)?;
        put(out, name.bytes())?;
        due = true;
    }
    Ok(())
}

/// Appends the words of a line, and the path that it is about.
fn put_about(out: &mut Vec<u8>, words: &[u8], path: &[Part]) -> Result<(), Memory>
    ensures { OnOk result (out.new.items ≡ out.old.items ++ spec.about words.now path.now) }
{
    put(out, words)?;
    put_path(out, path)?;
    put(out, b" ")?;
    Ok(())
}

fn put_truth_line(out: &mut Vec<u8>, words: &[u8], path: &[Part], truth: bool) -> Result<(), Memory>
    ensures { OnOk result (out.new.items ≡ out.old.items
        ++ (spec.about words.now path.now ++ spec.ended (truth_text truth))) }
{
    put_about(out, words, path)?;
    put_truth(out, truth)?;
    put(out, b"\n")?;
    Ok(())
}

fn put_value_line(out: &mut Vec<u8>, path: &[Part], value: &Value) -> Result<(), Memory>
    ensures { OnOk result (out.new.items ≡ out.old.items
        ++ (spec.about (codes "when value ") path.now ++ spec.ended (value_json value.now))) }
{
    put_about(out, b"when value ", path)?;
    put_value(out, value)?;
    put(out, b"\n")?;
    Ok(())
}

fn put_keys_line(out: &mut Vec<u8>, path: &[Part], names: &[Text]) -> Result<(), Memory>
    ensures { OnOk result (out.new.items ≡ out.old.items
        ++ (spec.about (codes "when keys ") path.now
        ++ spec.ended (separated 44 spec.name_text false names.now))) }
{
    put_about(out, b"when keys ", path)?;
    put_names(out, names)?;
    put(out, b"\n")?;
    Ok(())
}

fn put_constraint(out: &mut Vec<u8>, constraint: &Constraint) -> Result<(), Memory>
    ensures { OnOk result (out.new.items ≡ out.old.items
        ++ spec.constraint_line constraint.now) }
{
    match constraint {
        Constraint::Value(path, value) => put_value_line(out, path.as_slice(), value),
        Constraint::Exists(path, so) => {
            put_truth_line(out, b"when exists ", path.as_slice(), *so)
        }
        Constraint::Null(path, so) => put_truth_line(out, b"when null ", path.as_slice(), *so),
        Constraint::Keys(path, names) => put_keys_line(out, path.as_slice(), names.as_slice()),
    }
}

pub(crate) fn put_constraints(out: &mut Vec<u8>, constraints: &[Constraint]) -> Result<(), Memory>
    ensures { OnOk result (out.new.items ≡ out.old.items
        ++ spec.constraint_lines constraints.now) }
{
    for constraint in constraints {
        put_constraint(out, constraint)?;
    }
    Ok(())
}
