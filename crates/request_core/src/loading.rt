//! What a script gives.

ghost use Rattle.std.specs.Prelude.{◌≡◌, IfOk, IfErr};
ghost use Rattle.std.specs.Arc.{arc_value};
ghost use Rattle.pg_base.specs.SchemaFaults.{build_fault};
ghost use Rattle.pg_base.specs.SchemaOf as built;
ghost use Rattle.rel_model.specs.Tables.{AreValidTables};
ghost use Rattle.ddl_reader.specs.Script.{IsScript};
ghost use Rattle.rows_reader.specs.Loaded.{rows_of};
ghost use Rattle.request_core.specs.Load as spec;

use ddl_reader::{Script, ScriptFault, read_script};
use pg_base::{Base, BuildFault, Schema};
use rel_model::Tables;
use rows_reader::{LoadError as RowsError, RowsFault};
use schema_build::build;
use std::alloc::Global;
use std::sync::Arc;

/// What a script gives: its catalog with the schema, and the opening rows.
#[derive(Drop)]
pub struct Loaded {
    pub base: Arc<Base>,
    pub tables: Tables,
}

/// Why a script gives nothing: the first fault of its text, of the names of its schema, or of its rows.
#[derive(Drop)]
pub enum LoadFault {
    Script(ScriptFault),
    Schema(BuildFault),
    Rows(RowsFault),
}

/// Why nothing was loaded.
#[derive(Drop)]
pub enum LoadError {
    Fault(LoadFault),
    /// Memory ran out.
    Memory,
}

/// The script of the bytes.
fn script_of(alloc: Global, bytes: &[u8]) -> Result<Script, LoadError>
    ensures ok { IfOk result (IsScript bytes.now) }
    ensures rows { IfOk result spec.HasFitRows }
    ensures err { IfErr result (spec.IsErrorOf bytes.now) }
{
    match read_script(alloc, bytes) {
        Ok(script) => Ok(script),
        Err(ScriptFault::Memory) => Err(LoadError::Memory),
        Err(fault) => Err(LoadError::Fault(LoadFault::Script(fault))),
    }
}

/// The schema of a script's catalog.
fn schema_of(alloc: Global, script: &Script) -> Result<Schema, LoadError>
    ensures ok { IfOk result (λ schema. schema ≡ built.schema_of script.now.catalog) }
    ensures faultless { IfOk result (λ _. build_fault script.now.catalog ≡ None) }
    ensures err { IfErr result (spec.IsSchemaErrorOf script.now) }
{
    match build(alloc, &script.catalog) {
        Ok(schema) => Ok(schema),
        Err(BuildFault::Memory) => Err(LoadError::Memory),
        Err(fault) => Err(LoadError::Fault(LoadFault::Schema(fault))),
    }
}

/// The rows of a script.
fn tables_of(alloc: Global, script: &Script) -> Result<Tables, LoadError>
    requires { spec.HasFitRows script.now }
    ensures ok { IfOk result (λ tables.
        rows_of script.now.catalog script.now.rows ≡ Ok tables) }
    ensures valid { IfOk result (AreValidTables script.now.catalog) }
    ensures err { IfErr result (spec.IsRowsErrorOf script.now) }
{
    match rows_reader::load(alloc, &script.catalog, script) {
        Ok(tables) => Ok(tables),
        Err(RowsError::Fault(fault)) => Err(LoadError::Fault(LoadFault::Rows(fault))),
        Err(RowsError::Memory) => Err(LoadError::Memory),
    }
}

/// What a script gives.
///
/// # Errors
/// The first fault: that of the text, else that of the names of the schema, else that of the rows; or out of memory.
pub fn load(alloc: Global, bytes: &[u8]) -> Result<Loaded, LoadError>
    ensures ok { IfOk result (λ loaded.
        spec.Loads bytes.now (arc_value loaded.base) loaded.tables) }
    ensures valid { IfOk result (λ loaded.
        AreValidTables (arc_value loaded.base).catalog loaded.tables) }
    ensures faultless { IfOk result (λ loaded.
        build_fault (arc_value loaded.base).catalog ≡ None) }
    ensures err { IfErr result (spec.IsLoadErrorOf bytes.now) }
{
    let script = script_of(alloc, bytes)?;
    let schema = schema_of(alloc, &script)?;
    let tables = tables_of(alloc, &script)?;
    let Script { catalog, .. } = script;
    match Arc::new(alloc, Base::of(catalog, schema)) {
        Ok(base) => Ok(Loaded { base, tables }),
        Err(_) => Err(LoadError::Memory),
    }
}
