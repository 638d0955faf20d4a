//! Whole scripts.

ghost use Rattle.std.specs.Prelude.{◌≡◌, ◌≤◌, ◌⊎◌, length, IfOk, IfErr};
ghost use Rattle.pg_base.specs.Limits.{most_enums};
ghost use Rattle.pg_base.specs.Lists.{Each, EachPair};
ghost use Rattle.ddl_reader.specs.declared.fault.ScriptFault.TheVariants as fault;
ghost use Rattle.ddl_reader.specs.Rows.{IsRowOf};
ghost use Rattle.ddl_reader.specs.Stops.{stop_fault};
ghost use Rattle.ddl_reader.specs.Script as spec;

use crate::adding::add_statement;
use crate::fault::ScriptFault;
use crate::inserts::Inserts;
use crate::lexeme::Expected;
use crate::resolving::resolved_rows;
use crate::script::Script;
use crate::statement::{Row, Statement};
use crate::stops::fault_at;
use crate::tokens::ScriptTokens;
use crate::whole::read_statement;
use parse_rules::{ReadError, TokenStream};
use pg_base::EnumDef;
use pg_catalog::Growing;
use sqlite_items::Items;
use std::alloc::{AllocError, Global};

/// What stands between two statements: the catalog so far, and the INSERTs so far with their rows.
#[derive(Drop)]
pub(crate) struct Progress {
    catalog: Growing,
    inserts: Inserts,
    rows: Items<Row>,
}

/// The fault of a statement that begins at `start` and stops before what is left.
fn fault_before(
    alloc: Global,
    enums: &[EnumDef],
    start: &ScriptTokens<'_, '_>,
    left: &ScriptTokens<'_, '_>,
) -> ScriptFault
    requires { length enums.now ≤ most_enums }
    ensures { (result ≡ fault.Memory) ⊎ (result ≡ stop_fault enums.now start.now left.now) }
{
    let Some(token) = left.peek() else {
        return ScriptFault::Memory;
    };
    match fault_at(alloc, enums, start, &token) {
        Ok(fault) => fault,
        Err(AllocError) => ScriptFault::Memory,
    }
}

/// Reads a statement up to `;` or the end, which stays the next token. Its rows go after those so far.
fn next_statement(
    alloc: Global,
    tokens: &mut ScriptTokens<'_, '_>,
    catalog: &Growing,
    insert: usize,
    rows: &mut Items<Row>,
) -> Result<Statement, ScriptFault>
    ensures { spec.StepsBeside
        (spec.next_statement catalog.now.enums insert rows.old tokens.old) result
        rows.new tokens.new }
{
    catalog.know();
    let start = tokens.fork();
    match read_statement(alloc, tokens, catalog.enums(), insert, rows) {
        Ok(statement) => Ok(statement),
        Err(ReadError::Memory) => Err(ScriptFault::Memory),
        Err(ReadError::Unexpected) => { Err(fault_before(alloc, catalog.enums(), &start, tokens)) }
    }
}

/// Keeps an INSERT for the look-ups after the script.
fn keep_insert(inserts: &mut Inserts, statement: Statement) -> Result<(), ScriptFault>
    ensures { spec.Keeps (spec.inserts_with inserts.old statement) result inserts.new }
{
    match statement {
        Statement::Insert(insert) => {
            inserts.push(insert)?;
            Ok(())
        }
        Statement::Nothing => Ok(()),
        Statement::Enum(_) => Ok(()),
        Statement::Table(_) => Ok(()),
        Statement::Rule(_) => Ok(()),
        Statement::Comment(_) => Ok(()),
    }
}

/// Reads a statement and adds its parts.
#[tactic(auto, unfolding(crate::specs::Script::step))]
fn step(
    alloc: Global,
    tokens: &mut ScriptTokens<'_, '_>,
    catalog: Growing,
    inserts: &mut Inserts,
    rows: &mut Items<Row>,
) -> Result<Growing, ScriptFault>
    ensures { spec.Steps
        (spec.step (spec.progress catalog inserts.old rows.old) tokens.old) result
        inserts.new rows.new tokens.new }
{
    let statement = next_statement(alloc, tokens, &catalog, inserts.len(), rows)?;
    let grown = add_statement(catalog, alloc, &statement)?;
    keep_insert(inserts, statement)?;
    Ok(grown)
}

/// Reads the statements of a script, and adds the parts of each before the next is read.
fn read_statements(alloc: Global, bytes: &[u8]) -> Result<Progress, ScriptFault>
    ensures { spec.Answers (spec.read bytes.now) result }
{
    let mut tokens = ScriptTokens::new(bytes);
    let mut catalog = Growing::new(alloc);
    let mut inserts = Inserts::new(alloc);
    let mut rows = Items::new(alloc);
    for _turn in 0..bytes.len() + 2 {
        catalog = step(alloc, &mut tokens, catalog, &mut inserts, &mut rows)?;
        if !tokens.eat(Expected::Sign(b';')) {
            return Ok(Progress {
                catalog,
                inserts,
                rows,
            });
        }
    }
    Ok(Progress {
        catalog,
        inserts,
        rows,
    })
}

/// The script of what was read, once the names of its INSERTs are looked up.
fn script_of(
    alloc: Global,
    catalog: Growing,
    inserts: &Inserts,
    rows: Items<Row>,
) -> Result<Script, ScriptFault>
    ensures fault { spec.Tells (spec.first_fault catalog inserts.now) result }
    ensures kept { IfOk result (λ s. s.catalog ≡ catalog) }
    ensures resolved { IfOk result
        (λ s. EachPair (spec.IsResolved catalog inserts.now) rows s.rows) }
    ensures rows { IfOk result (λ s. Each (IsRowOf s.catalog) s.rows) }
{
    catalog.know();
    let made = resolved_rows(alloc, &catalog, inserts, rows)?;
    Ok(Script {
        catalog: catalog.finish(),
        rows: made,
    })
}

/// The catalog and the rows that a script gives: statement by statement its tokens and its grammar, then its parts in
/// order, and after the whole script the names of its INSERTs.
///
/// # Errors
/// The script's first fault, or out of memory.
pub fn read_script(alloc: Global, bytes: &[u8]) -> Result<Script, ScriptFault>
    ensures script { IfOk result (spec.IsScript bytes.now) }
    ensures fault { IfErr result
        (λ f. (f ≡ fault.Memory) ⊎ spec.IsScriptFault bytes.now f) }
    ensures rows { IfOk result (λ s. Each (IsRowOf s.catalog) s.rows) }
{
    let read = read_statements(alloc, bytes)?;
    let Progress {
        catalog,
        inserts,
        rows,
    } = read;
    script_of(alloc, catalog, &inserts, rows)
}
