//! A house of one's own.

ghost use Rattle.std.specs.Prelude.{◌≡◌, ◌≤◌, None, List, IfOk};
ghost use Rattle.std.specs.Arc.{arc_value};
ghost use Rattle.pg_base.specs.Catalog.{CatalogParts};
ghost use Rattle.pg_base.specs.SchemaFaults.{build_fault};
ghost use Rattle.rel_model.specs.Tables.{AreValidTables};
ghost use Rattle.row_tables.specs.Set.{IsSetOf};
ghost use Rattle.stmt_run.specs.Store.{SnapshotParts};
ghost use Rattle.plan_cache.specs.Shelf.{Shows};
ghost use Rattle.kept_responses.specs.Counts.{counts};
ghost use Rattle.kept_responses.specs.Kept.{KeptParts, AsksFor};
ghost use Rattle.kept_responses.specs.Served.{asked_of};
ghost use Rattle.request_core.specs.House.{house_parts, new_house, IsHouse, KeepsHouse};
ghost use Rattle.request_core.specs.Replied.{ServesFor};
ghost use Rattle.request_core.specs.Spent.{MayRespond};

use kept_responses::{KeptPlan, KeptResponse, Wanted, respond_kept};
use pg_base::{Base, Memory};
use place_tree::Tree;
use plan_cache::Shelf;
use plan_steps::Steps;
use row_tables::TableSet;
use std::alloc::Global;
use std::marker::Model;
use std::sync::Arc;
use std::sync::ledger::Ledger;
use stmt_run::Snapshot;
use stmt_tree::Rows;

/// A house of one's own, for requests that come one after the other: the tables that they are answered over, and the
/// plans that are kept for them. All plans are of its base, and no more are kept than serve.
#[derive(Drop)]
pub struct OwnHouse {
    base: Arc<Base>,
    opened: Snapshot,
    shelf: Shelf<KeptPlan>,
    limit: u64,
}

impl Model for OwnHouse {
    ghost use Rattle.std.specs.Arc.{arc_value};
    ghost use Rattle.std.specs.Coded.{codes};
    ghost use Rattle.batch_execute.specs.contracts.ready.ReadyEntry as ready_entry;
    ghost use Rattle.request_core.specs.House.{HouseParts, house_parts, IsHouse};

    ghost Value = { HouseParts };

    ghost coded = { Prim.hlevel (codes, ready_entry.the_row.coded) };

    ghost view = { λ h. house_parts (arc_value h.base) h.opened h.shelf h.limit };

    ghost invariant = { λ h. IsHouse (house_parts (arc_value h.base) h.opened h.shelf h.limit) };
}

/// The response to a query on a house of these parts.
fn respond_on<R: Rows<At = Snapshot>, L: Ledger>(
    alloc: Global,
    base: &Arc<Base>,
    opened: &Snapshot,
    shelf: &mut Shelf<KeptPlan>,
    limit: u64,
    wanted: &Wanted<'_>,
    tree: Tree,
    rows: &mut R,
    plans: &mut Steps<L>,
) -> KeptResponse
    requires house { IsHouse (house_parts (arc_value base.now) opened.now shelf.old limit) }
    requires asks { AsksFor (arc_value base.now) (asked_of wanted.now) tree }
    requires may { MayRespond (arc_value base.now) tree (asked_of wanted.now).vars }
    requires served { R.serves rows.old opened.now (arc_value base.now).catalog }
    ensures house { IsHouse (house_parts (arc_value base.now) opened.now shelf.new limit) }
    ensures serves { (a : SnapshotParts) (c : CatalogParts)
        → R.serves rows.old a c → R.serves rows.new a c }
    ensures serves_no_more { (a : SnapshotParts) (c : CatalogParts)
        → R.serves rows.new a c → R.serves rows.old a c }
    ensures told { (a : SnapshotParts) → R.tables_of rows.new a ≡ R.tables_of rows.old a }
    ensures faults { R.faults rows.old ≤ R.faults rows.new }
    ensures served { (history : List KeptParts) → Shows shelf.old history
        → ServesFor (house_parts (arc_value base.now) opened.now shelf.old limit)
        (house_parts (arc_value base.now) opened.now shelf.new limit)
        (R.tables_of rows.old opened.now) (asked_of wanted.now) tree history
        (counts (R.sent rows.old) (R.got rows.old) (R.faults rows.old) plans.old)
        (counts (R.sent rows.new) (R.got rows.new) (R.faults rows.new) plans.new) result }
{
    let _ = limit;
    respond_kept(alloc, base, shelf, wanted, tree, opened, rows, plans)
}

impl OwnHouse {
    /// A house over these tables at the moment of the number 0, with no plans. `limit` is how many changes its journal has
    /// at most.
    ///
    /// # Errors
    /// Out of memory.
    pub fn make(
        alloc: Global,
        base: Arc<Base>,
        tables: TableSet,
        limit: u64,
    ) -> Result<OwnHouse, Memory>
        requires faultless { build_fault (arc_value base).catalog ≡ None }
        requires valid { AreValidTables (arc_value base).catalog tables.tables }
        requires set { IsSetOf (arc_value base).catalog tables }
        ensures { IfOk result (λ house. house ≡ new_house (arc_value base) tables limit) }
    {
        let owner = Arc::try_clone(&base)?;
        let shelf = Shelf::make(alloc, owner)?;
        let tables = Arc::new(alloc, tables)?;
        Ok(OwnHouse {
            base,
            opened: Snapshot::of(0, tables),
            shelf,
            limit,
        })
    }

    /// Tells what the type keeps, and does nothing.
    pub fn know(&self)
        ensures { IsHouse self.now }
    {
        let _ = &self.limit;
    }

    /// The catalog with its schema.
    pub fn base(&self) -> &Base
        ensures { result.now ≡ self.now.base }
    {
        &self.base
    }

    /// The same, as it is shared.
    pub(crate) fn shared_base(&self) -> &Arc<Base>
        ensures { arc_value result.now ≡ self.now.base }
    {
        &self.base
    }

    /// How many changes the journal has at most.
    pub fn limit(&self) -> u64
        ensures { result ≡ self.now.limit }
    {
        self.limit
    }

    /// The plans that are kept.
    pub(crate) fn shelf(&self) -> &Shelf<KeptPlan>
        ensures { result.now ≡ self.now.shelf }
    {
        &self.shelf
    }

    /// The response to a query from the tree of its places, by a plan that is kept or is made and kept.
    pub(crate) fn respond<R: Rows<At = Snapshot>, L: Ledger>(
        &mut self,
        alloc: Global,
        wanted: &Wanted<'_>,
        tree: Tree,
        rows: &mut R,
        plans: &mut Steps<L>,
    ) -> KeptResponse
        requires asks { AsksFor self.old.base (asked_of wanted.now) tree }
        requires may { MayRespond self.old.base tree (asked_of wanted.now).vars }
        requires served { R.serves rows.old self.old.opened self.old.base.catalog }
        ensures serves { (a : SnapshotParts) (c : CatalogParts)
            → R.serves rows.old a c → R.serves rows.new a c }
        ensures serves_no_more { (a : SnapshotParts) (c : CatalogParts)
            → R.serves rows.new a c → R.serves rows.old a c }
        ensures told { (a : SnapshotParts) → R.tables_of rows.new a ≡ R.tables_of rows.old a }
        ensures faults { R.faults rows.old ≤ R.faults rows.new }
        ensures keeps { KeepsHouse self.old self.new }
        ensures served { (history : List KeptParts) → Shows self.old.shelf history
            → ServesFor self.old self.new (R.tables_of rows.old self.old.opened)
            (asked_of wanted.now) tree history
            (counts (R.sent rows.old) (R.got rows.old) (R.faults rows.old) plans.old)
            (counts (R.sent rows.new) (R.got rows.new) (R.faults rows.new) plans.new) result }
    {
        respond_on(
            alloc,
            &self.base,
            &self.opened,
            &mut self.shelf,
            self.limit,
            wanted,
            tree,
            rows,
            plans,
        )
    }
}
