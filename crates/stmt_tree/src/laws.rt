//! Laws of the definitions: functions that do nothing, each with a law as its contract.

ghost use Rattle.std.specs.Prelude.{◌≡◌, ◌+◌, map, length, sum};
ghost use Rattle.pg_base.specs.Catalog.{CatalogParts};
ghost use Rattle.pg_base.specs.Lists.{Each};
ghost use Rattle.rel_model.specs.Tables.{AreValidTables};
ghost use Rattle.stmt_tree.specs.declared.stmt.Child.TheViews.{out-Stmt};
ghost use Rattle.stmt_tree.specs.Meaning.{meaning_of, trees_in_all};
ghost use Rattle.stmt_tree.specs.Form.{HasForm};
ghost use Rattle.stmt_tree.specs.Batches.{all_parts, column, lists_for, rebuilt};

use crate::{Key, Stmt};
use rel_model::Tables;

/// Over tables that are valid for a catalog, what a statement means has the form of a store's answer.
pub fn meanings_have_form(tables: &Tables, stmt: &Stmt, keys: &[Key])
    ensures { (c : CatalogParts) → AreValidTables c tables.now →
        Each (HasForm c stmt.now) (meaning_of tables.now stmt.now keys.now) }
{}

/// What is found for a list of keys comes from the lists of the keys and one batch for each child, over all rows that are
/// asked for.
pub fn batches_are_rebuilt(tables: &Tables, stmt: &Stmt, keys: &[Key])
    ensures { meaning_of tables.now stmt.now keys.now ≡
        rebuilt tables.now stmt.now (lists_for tables.now stmt.now keys.now) }
{}

/// The row trees of a batch are its own rows and those of each child's batch.
pub fn batches_add_up(tables: &Tables, stmt: &Stmt, keys: &[Key])
    ensures { (let all = all_parts stmt.now (lists_for tables.now stmt.now keys.now) in
        trees_in_all (meaning_of tables.now stmt.now keys.now) ≡
        length all
        + sum (map (λ k. trees_in_all (column tables.now all k)) (out-Stmt stmt.now).children)) }
{}
