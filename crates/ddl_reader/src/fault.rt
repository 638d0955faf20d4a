//! Why a script gives nothing.

use pg_base::{Pos, Text};
use pg_catalog::CatalogFault;
use sql_lex::LexFault;
use std::alloc::AllocError;

/// The first fault of a script.
#[derive(Drop)]
pub enum ScriptFault {
    /// 1: no token can be read.
    Lexical(LexFault),
    /// 2: the first token that no script has after the tokens before it.
    Syntax(Pos),
    /// 3: a type that isn't supported, by its first word.
    UnsupportedType(Pos, Text),
    /// 4: a clause that isn't supported, by its word or sign.
    UnsupportedClause(Pos, Text),
    /// 5: a part of a statement, or the names of an INSERT, don't fit the catalog.
    Catalog(CatalogFault),
    /// 6: a comment on what doesn't stand.
    NothingToComment(Pos, Text),
    /// Memory ran out.
    Memory,
}

impl From<AllocError> for ScriptFault {
    ghost use Rattle.std.specs.Prelude.{◌≡◌};
    ghost use Rattle.ddl_reader.specs.declared.fault.ScriptFault.TheVariants.{Memory};

    ghost from_gives = { λ _ e. e ≡ Memory };

    fn from(_: AllocError) -> ScriptFault {
        ScriptFault::Memory
    }
}
