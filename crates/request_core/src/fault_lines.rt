//! The line that tells why a script gives nothing.

ghost use Rattle.std.specs.Prelude.{◌≡◌, ◌++◌, OnOk};
ghost use Rattle.request_core.specs.FaultLines as spec;

use crate::loading::LoadFault;
use ddl_reader::ScriptFault;
use json_out::put_int;
use pg_base::{Memory, Pos, Text};
use rows_reader::RowsFault;

fn put_number(out: &mut Vec<u8>, n: u32) -> Result<(), Memory>
    ensures { OnOk result (out.new.items ≡ out.old.items ++ spec.number n) }
{
    put_int(out, i64::from(n))
}

/// The line and the column.
fn put_place(out: &mut Vec<u8>, at: Pos) -> Result<(), Memory>
    ensures { OnOk result (out.new.items ≡ out.old.items ++ spec.place at) }
{
    out.extend_from_slice(b" at ")?;
    put_number(out, at.line)?;
    out.extend_from_slice(b":")?;
    put_number(out, at.column)?;
    Ok(())
}

/// What comes before a name, the place and the name.
fn put_named(out: &mut Vec<u8>, opening: &[u8], at: Pos, name: &Text) -> Result<(), Memory>
    ensures { OnOk result (out.new.items
        ≡ out.old.items ++ spec.placed_name opening.now at name.now) }
{
    out.extend_from_slice(opening)?;
    put_place(out, at)?;
    out.extend_from_slice(b": ")?;
    out.extend_from_slice(name.bytes())?;
    Ok(())
}

/// A kind of fault, and its number.
fn put_kind(out: &mut Vec<u8>, opening: &[u8], which: u8) -> Result<(), Memory>
    ensures { OnOk result (out.new.items ≡ out.old.items ++ spec.kind opening.now which) }
{
    out.extend_from_slice(opening)?;
    put_number(out, u32::from(which))?;
    Ok(())
}

fn put_script_line(out: &mut Vec<u8>, fault: &ScriptFault) -> Result<(), Memory>
    ensures { OnOk result (out.new.items ≡ out.old.items ++ spec.script_line fault.now) }
{
    match fault {
        ScriptFault::Lexical(fault) => {
            put_kind(out, b"script fault 1.", fault.which)?;
            put_place(out, fault.pos)?;
            Ok(())
        }
        ScriptFault::Syntax(at) => {
            out.extend_from_slice(b"script fault 2")?;
            put_place(out, *at)?;
            Ok(())
        }
        ScriptFault::UnsupportedType(at, name) => put_named(out, b"script fault 3", *at, name),
        ScriptFault::UnsupportedClause(at, word) => put_named(out, b"script fault 4", *at, word),
        ScriptFault::Catalog(fault) => {
            put_kind(out, b"script fault 5.", fault.which)?;
            put_named(out, b"", fault.pos, &fault.name)?;
            Ok(())
        }
        ScriptFault::NothingToComment(at, name) => put_named(out, b"script fault 6", *at, name),
        ScriptFault::Memory => Ok(()),
    }
}

fn put_rows_line(out: &mut Vec<u8>, fault: &RowsFault) -> Result<(), Memory>
    ensures { OnOk result (out.new.items ≡ out.old.items ++ spec.rows_line fault.now) }
{
    put_kind(out, b"rows fault ", fault.which)?;
    put_named(out, b"", fault.pos, &fault.name)?;
    Ok(())
}

/// Appends the line that tells the fault, without a line feed.
pub fn put_fault_line(out: &mut Vec<u8>, fault: &LoadFault) -> Result<(), Memory>
    ensures { OnOk result (out.new.items ≡ out.old.items ++ spec.line_of fault.now) }
{
    match fault {
        LoadFault::Script(fault) => put_script_line(out, fault),
        LoadFault::Schema(fault) => schema_build::put_fault_line(out, fault),
        LoadFault::Rows(fault) => put_rows_line(out, fault),
    }
}
