//! Stores of rows.

ghost use Rattle.std.specs.Prelude.{◌≡◌, ◌+◌, ◌-◌, ◌^◌, ◌≤◌, ℕ, Option, Some, length, min, IfOk};
ghost use Rattle.pg_base.specs.Catalog.{CatalogParts};
ghost use Rattle.pg_base.specs.Lists.{Each};
ghost use Rattle.rel_model.specs.declared.tables.Tables.{Tables};
ghost use Rattle.stmt_tree.specs.declared.stmt.Child.TheViews.{out-Stmt};
ghost use Rattle.stmt_tree.specs.Meaning.{meaning_of};
ghost use Rattle.stmt_tree.specs.Form.{IsStmtOf, HasForm, Answers, IsStoreFault, GotWithin, Rose};

use crate::{Batch, Key, RunFault, Stmt};

/// A store that runs statements over the rows of a moment.
pub trait Rows {
    type At;

    /// The catalogs whose rows it holds at a moment.
    ghost serves: { Self → Self.At → CatalogParts → Type 0 };

    /// The rows at a moment, where it tells them.
    ghost tables_of: { Self → Self.At → Option Tables };

    /// How many statements were sent.
    ghost sent: { Self → ℕ };

    /// How many rows they got.
    ghost got: { Self → ℕ };

    /// How many calls failed.
    ghost faults: { Self → ℕ };

    /// What the statement finds for each key, where it is no more row trees than there is room for.
    fn run(
        &mut self,
        at: &Self::At,
        stmt: &Stmt,
        keys: &[Key],
        room: u64,
    ) -> Result<Batch, RunFault>
        requires served { (c : CatalogParts) × serves self.old at.now c × IsStmtOf c stmt.now }
        requires keys { Each (λ k. length k.cells ≡ length (out-Stmt stmt.now).by) keys.now }
        ensures serves { (a : Self.At) (c : CatalogParts)
            → serves self.old a c → serves self.new a c }
        ensures serves_no_more { (a : Self.At) (c : CatalogParts)
            → serves self.new a c → serves self.old a c }
        ensures told { (a : Self.At) → tables_of self.new a ≡ tables_of self.old a }
        ensures count { IfOk result (λ b. length b.found ≡ length keys.now) }
        ensures form { IfOk result (λ b. (c : CatalogParts) → serves self.old at.now c →
            IsStmtOf c stmt.now → Each (HasForm c stmt.now) b.found) }
        ensures means { (tables : Tables) → tables_of self.old at.now ≡ Some tables →
            Answers room (meaning_of tables stmt.now keys.now) result }
        ensures sent { sent self.new ≡ min (sent self.old + 1) (2 ^ 64 - 1) }
        ensures rises { sent self.old ≤ sent self.new }
        ensures got { GotWithin (got self.old) (got self.new) result }
        ensures faults { faults self.old ≤ faults self.new }
        ensures cause { IsStoreFault result → Rose (faults self.old) (faults self.new) };

    /// How many statements were sent.
    fn sent(&self) -> u64
        ensures { result ≡ sent self.now };
}
