//! Statements with their rows.

ghost use Rattle.std.specs.Prelude.{◌≡◌, ◌≤◌, length};
ghost use Rattle.pg_base.specs.Limits.{most_enums};
ghost use Rattle.parse_rules.specs.Parser.{ReadsInto};
ghost use Rattle.ddl_reader.specs.Statements as spec;

use crate::lexeme::Expected;
use crate::rows::read_rows;
use crate::statement::{Row, Statement};
use crate::statements::read_head;
use crate::tokens::ScriptTokens;
use parse_rules::{ReadError, TokenStream};
use pg_base::EnumDef;
use sqlite_items::Items;
use std::alloc::Global;

/// Puts the rows of an INSERT after those found.
fn read_rows_after(
    alloc: Global,
    tokens: &mut ScriptTokens<'_, '_>,
    statement: &Statement,
    insert: usize,
    found: &mut Items<Row>,
) -> Result<(), ReadError>
    ensures { ReadsInto (spec.rows_after insert found.old statement.now tokens.old) result
        found.new tokens.new }
{
    match statement {
        Statement::Insert(_) => read_rows(alloc, tokens, insert, found),
        Statement::Nothing => Ok(()),
        Statement::Enum(_) => Ok(()),
        Statement::Table(_) => Ok(()),
        Statement::Rule(_) => Ok(()),
        Statement::Comment(_) => Ok(()),
    }
}

/// Reads a statement up to `;` or the end, which stays the next token. Its rows go after those found.
#[tactic(auto, unfolding(crate::specs::Statements::statement_with))]
pub(crate) fn read_statement(
    alloc: Global,
    tokens: &mut ScriptTokens<'_, '_>,
    enums: &[EnumDef],
    insert: usize,
    found: &mut Items<Row>,
) -> Result<Statement, ReadError>
    requires { length enums.now ≤ most_enums }
    ensures { spec.ReadsBeside (spec.statement_with enums.now insert found.old tokens.old) result
        found.new tokens.new }
{
    let statement = read_head(alloc, tokens, enums)?;
    match read_rows_after(alloc, tokens, &statement, insert, found) {
        Ok(()) => {}
        Err(error) => return Err(error),
    }
    if !tokens.sees(Expected::Last) {
        return Err(ReadError::Unexpected);
    }
    Ok(statement)
}
