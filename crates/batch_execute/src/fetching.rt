//! The statements of a plan, one after the other.

ghost use Rattle.std.specs.Prelude.{◌≡◌, [], ◌+◌, ◌-◌, ◌^◌, ◌<◌, ◌≤◌, ◌&&◌, min, IfOk, OnOk, true, IsTrue, IfSome, Some, Ok, length, map, option_map, slice_get, drop};
ghost use Rattle.pg_base.specs.Catalog.{CatalogParts};
ghost use Rattle.pg_base.specs.Lists.{Each};
ghost use Rattle.rel_model.specs.declared.tables.Tables.{Tables};
ghost use Rattle.stmt_tree.specs.Form.{IsStmtOf, Rose};
ghost use Rattle.stmt_tree.specs.Meaning.{meaning_of};
ghost use Rattle.plan_steps.specs.declared.plan.FetchStep.{out-FetchStep};
ghost use Rattle.plan_steps.specs.declared.plan.Step.TheVariants as steps_are;
ghost use Rattle.plan_steps.specs.Check.{is_checked};
ghost use Rattle.plan_steps.specs.Denoted as denoted;
ghost use Rattle.plan_steps.specs.Filled as filled;
ghost use Rattle.plan_steps.specs.Named as named;
ghost use Rattle.plan_steps.specs.Sent as sent;
ghost use Rattle.plan_steps.specs.Under as under;
ghost use Rattle.batch_execute.specs.declared.way.Way.TheVariants as ways_are;
ghost use Rattle.batch_execute.specs.Asking as asking;
ghost use Rattle.batch_execute.specs.Entries as spec;
ghost use Rattle.batch_execute.specs.Execution.{IsStoreFault, Counts, Gives, Gets, Keeps, GivesAll, GetsFor, SendsAll};
ghost use Rattle.batch_execute.specs.Fetched.{AreAscending};
ghost use Rattle.batch_execute.specs.Held.{held};
ghost use Rattle.batch_execute.specs.Keys as keys_of;
ghost use Rattle.batch_execute.specs.Reading as reading;
ghost use Rattle.batch_execute.specs.Roles.{roles_of};
ghost use Rattle.batch_execute.specs.Used.{AreUsed};
ghost use Rattle.batch_execute.specs.Ways.{way_of as way_there};

use crate::asking::{may_ask, root_place};
use crate::fault::ExecFault;
use crate::fetched::Fetched;
use crate::filling::{filled_key, stmt_of};
use crate::keys::{ascending, keys_for};
use crate::role::Role;
use crate::trees::{held_within, take_all};
use crate::used::is_used;
use crate::way::Way;
use crate::ways::{fetch_at, way_of};
use pg_base::{Memory, Vars};
use plan_steps::{Entry, FetchStep, Root, Step};
use rel_model::{By, Row, cells_at};
use sqlite_items::{Items, at};
use std::alloc::Global;
use stmt_tree::{Batch, Key, Rows, RunFault};

/// What a plan is run for: its root, the variables, what each place shows of what its step found, and which steps the
/// places under the root use.
#[derive(Clone, Copy, Drop)]
pub(crate) struct Asked<'a> {
    pub entry: &'a Entry,
    pub root: &'a Root,
    pub vars: &'a Vars,
    pub roles: &'a [Role],
    pub used: &'a [bool],
}

// ---- keys

fn root_row(root: &Root) -> Option<&Row>
    ensures { option_map (λ r. r.now) result ≡ denoted.root_row root.now }
{
    match root {
        Root::Query => None,
        Root::Field(_, row) => Some(row),
    }
}

/// The row that a mutation gave, where the step at a place is this row.
fn given_row<'a>(root: &'a Root, steps: &[Step], step: usize) -> Option<&'a Row>
    ensures { option_map (λ r. r.now) result ≡
        reading.row_by (denoted.root_row root.now) [] (slice_get steps.now step) }
{
    let Some(Step::Given) = at(steps, step) else {
        return None;
    };
    root_row(root)
}

fn given_keys(alloc: Global, columns: &[u32], row: Option<&Row>) -> Result<Items<Key>, Memory>
    ensures { IfOk result (λ keys. keys ≡
        spec.given_keys columns.now (option_map (λ r. r.now) row.entry)) }
{
    let mut keys = Items::new(alloc);
    let Some(row) = row else {
        return Ok(keys);
    };
    let cells = cells_at(alloc, row.cells.as_slice(), columns)?;
    keys.push(Key { cells })?;
    Ok(keys)
}

/// The one key of a fetch that hangs on no other.
fn once_keys(alloc: Global, q: &Asked<'_>, fetch: &FetchStep) -> Result<Items<Key>, Memory>
    ensures { IfOk result (λ keys. keys ≡ spec.once_keys
        (reading.setting q.now.entry.now.base q.now.vars.now q.now.root.now)
        q.now.entry.now.plan.steps fetch.now (out-FetchStep fetch.now).parent) }
{
    let columns = fetch.parent_columns.as_slice();
    match fetch.parent {
        Some(parent) => {
            let steps = q.entry.plan().steps.as_slice();
            let row = given_row(q.root, steps, parent as usize);
            let keys = given_keys(alloc, columns, row)?;
            Ok(keys)
        }
        None => {
            let (by, key) = (fetch.by.as_slice(), fetch.key.as_slice());
            let cells = filled_key(alloc, q.entry.base(), q.vars, fetch.table, by, key)?;
            let mut keys = Items::new(alloc);
            keys.push(Key { cells })?;
            Ok(keys)
        }
    }
}

/// The keys of a fetch that hangs on the rows of another one.
fn row_keys(
    alloc: Global,
    steps: &[Step],
    fetched: &[Fetched],
    fetch: &FetchStep,
    above: u32,
) -> Result<Items<Key>, Memory>
    ensures { IfOk result (λ keys. keys ≡
        keys_of.keys_for (out-FetchStep fetch.now).parent_columns
        (held steps.now fetched.now above)) }
{
    let mut trees = held_within(alloc, steps, fetched, steps.len(), above as usize)?;
    let keys = keys_for(alloc, fetch.parent_columns.as_slice(), &mut trees)?;
    Ok(keys)
}

/// The keys of a statement.
fn keys_by(
    alloc: Global,
    q: &Asked<'_>,
    fetched: &[Fetched],
    fetch: &FetchStep,
    way: Way,
) -> Result<Items<Key>, Memory>
    ensures { IfOk result (λ keys. keys ≡ spec.keys_by
        (reading.setting q.now.entry.now.base q.now.vars.now q.now.root.now)
        q.now.entry.now.plan.steps fetched.now fetch.now way) }
{
    match way {
        Way::Other => Ok(Items::new(alloc)),
        Way::Once => once_keys(alloc, q, fetch),
        Way::Sent(above) => {
            let steps = q.entry.plan().steps.as_slice();
            row_keys(alloc, steps, fetched, fetch, above)
        }
        Way::Read(_, _) => Ok(Items::new(alloc)),
    }
}

/// The order in which the keys stand.
fn order_by(alloc: Global, fetch: &FetchStep, way: Way) -> Result<Items<By>, Memory>
    ensures { IfOk result (λ order. order ≡ spec.order_by fetch.now way) }
{
    match way {
        Way::Other => Ok(Items::new(alloc)),
        Way::Once => Ok(Items::new(alloc)),
        Way::Sent(_) => {
            let order = ascending(alloc, fetch.parent_columns.as_slice())?;
            Ok(Items::from_vec(order))
        }
        Way::Read(_, _) => Ok(Items::new(alloc)),
    }
}

// ---- which statements are sent

fn is_due(way: Way, keys: &[Key]) -> bool
    ensures { result ≡ spec.is_due way keys.now }
{
    match way {
        Way::Other => false,
        Way::Once => true,
        Way::Sent(_) => !keys.is_empty(),
        Way::Read(_, _) => false,
    }
}

/// Whether a step is used under the root, and not for fields with errors alone.
fn may_send(q: &Asked<'_>, step: usize) -> bool
    requires roles { q.now.roles.now ≡
        roles_of q.now.entry.now.base q.now.vars.now q.now.entry.now.tree.places }
    requires used { AreUsed q.now.entry.now q.now.root.now q.now.used.now }
    requires here { step < length q.now.entry.now.plan.steps }
    ensures value { (tables : Tables) → result ≡ spec.may_send
        (denoted.moment q.now.entry.now.base tables q.now.vars.now q.now.root.now)
        q.now.entry.now.tree q.now.entry.now.plan q.now.root.now step }
    ensures used { result ≡ true
        → under.is_used q.now.entry.now.tree q.now.entry.now.plan q.now.root.now step ≡ true }
{
    let places = q.entry.tree().places.as_slice();
    let outs = q.entry.plan().out.as_slice();
    let root = root_place(q.root);
    if !is_used(q.used, step) {
        return false;
    }
    may_ask(places, q.roles, outs, root, step)
}

// ---- statements

/// Keeps what was found, where there is room for it.
fn keep(
    order: Items<By>,
    keys: Items<Key>,
    batch: Batch,
    left: &mut u64,
) -> Result<Fetched, ExecFault>
    requires { AreAscending order keys }
    ensures { Keeps left.old left.new (record {
      order = order;
      keys = keys;
      found = batch.found;
    }) result }
{
    if !take_all(batch.found.as_slice(), left) {
        return Err(ExecFault::TooManyRows);
    }
    Ok(Fetched::of(order, keys, batch.found))
}

/// Runs the statement of a fetch for these keys.
fn send<R: Rows>(
    alloc: Global,
    q: &Asked<'_>,
    at: &R::At,
    rows: &mut R,
    fetch: &FetchStep,
    order: Items<By>,
    keys: Items<Key>,
    left: &mut u64,
) -> Result<Fetched, ExecFault>
    requires served { R.serves rows.old at.now q.now.entry.now.base.catalog }
    requires stmt { IsStmtOf q.now.entry.now.base.catalog
        (filled.stmt_of q.now.entry.now.base q.now.vars.now fetch.now) }
    requires keys { Each (λ k. length k.cells ≡ length (out-FetchStep fetch.now).by) keys }
    requires order { AreAscending order keys }
    ensures serves { (a : R.At) (c : CatalogParts)
        → R.serves rows.old a c → R.serves rows.new a c }
    ensures serves_no_more { (a : R.At) (c : CatalogParts)
        → R.serves rows.new a c → R.serves rows.old a c }
    ensures told { (a : R.At) → R.tables_of rows.new a ≡ R.tables_of rows.old a }
    ensures rises { R.sent rows.old ≤ R.sent rows.new }
    ensures most { R.sent rows.new ≤ R.sent rows.old + 1 }
    ensures sent { OnOk result (Counts (R.sent rows.old) (R.sent rows.new) 1) }
    ensures gives { (tables : Tables) → R.tables_of rows.old at.now ≡ Some tables
        → Gives left.old left.new (record {
          order = order;
          keys = keys;
          found = meaning_of tables
              (filled.stmt_of q.now.entry.now.base q.now.vars.now fetch.now) keys;
        }) result }
    ensures gets { (tables : Tables) → R.tables_of rows.old at.now ≡ Some tables
        → Gets (R.got rows.old) (R.got rows.new) result }
    ensures faults { R.faults rows.old ≤ R.faults rows.new }
    ensures cause { IsStoreFault result → Rose (R.faults rows.old) (R.faults rows.new) }
{
    let stmt = stmt_of(alloc, q.entry.base(), q.vars, fetch)?;
    match rows.run(at, &stmt, keys.as_slice(), *left) {
        Ok(batch) => keep(order, keys, batch, left),
        Err(RunFault::Store) => Err(ExecFault::Store),
        Err(RunFault::TooMany) => Err(ExecFault::TooManyRows),
        Err(RunFault::Memory) => Err(ExecFault::Memory),
    }
}

/// What is found for the fetch of a step.
fn fetch_one<R: Rows>(
    alloc: Global,
    q: &Asked<'_>,
    at: &R::At,
    rows: &mut R,
    fetched: &[Fetched],
    fetch: &FetchStep,
    step: usize,
    left: &mut u64,
) -> Result<Fetched, ExecFault>
    requires served { R.serves rows.old at.now q.now.entry.now.base.catalog }
    requires checked { IsTrue (is_checked q.now.entry.now.base q.now.entry.now.tree
        q.now.entry.now.plan) }
    requires is_fetch { slice_get q.now.entry.now.plan.steps step
        ≡ Some (steps_are.Fetch fetch.now) }
    ensures serves { (a : R.At) (c : CatalogParts)
        → R.serves rows.old a c → R.serves rows.new a c }
    ensures serves_no_more { (a : R.At) (c : CatalogParts)
        → R.serves rows.new a c → R.serves rows.old a c }
    ensures told { (a : R.At) → R.tables_of rows.new a ≡ R.tables_of rows.old a }
    ensures rises { R.sent rows.old ≤ R.sent rows.new }
    ensures most { R.sent rows.new ≤ R.sent rows.old
        + sent.one_if (sent.is_sent q.now.entry.now.plan.steps step) }
    ensures sent { (tables : Tables) → OnOk result (Counts (R.sent rows.old) (R.sent rows.new)
        (sent.one_if (spec.is_due (way_there q.now.entry.now.plan.steps step) (spec.keys_at
        (denoted.moment q.now.entry.now.base tables q.now.vars.now q.now.root.now)
        q.now.entry.now.plan.steps fetched.now step (Some fetch.now))))) }
    ensures gives { (tables : Tables) → R.tables_of rows.old at.now ≡ Some tables
        → Gives left.old left.new (spec.answered_due
        (denoted.moment q.now.entry.now.base tables q.now.vars.now q.now.root.now)
        q.now.entry.now.plan.steps fetched.now step fetch.now) result }
    ensures gets { (tables : Tables) → R.tables_of rows.old at.now ≡ Some tables
        → Gets (R.got rows.old) (R.got rows.new) result }
    ensures faults { R.faults rows.old ≤ R.faults rows.new }
    ensures cause { IsStoreFault result → Rose (R.faults rows.old) (R.faults rows.new) }
{
    let way = way_of(q.entry.plan().steps.as_slice(), step);
    let keys = keys_by(alloc, q, fetched, fetch, way)?;
    if !is_due(way, keys.as_slice()) {
        return Ok(Fetched::none(alloc));
    }
    let order = order_by(alloc, fetch, way)?;
    send(alloc, q, at, rows, fetch, order, keys, left)
}

/// What is found for a step, from what was found for those before it.
fn fetch_step<R: Rows>(
    alloc: Global,
    q: &Asked<'_>,
    at: &R::At,
    rows: &mut R,
    fetched: &[Fetched],
    step: usize,
    left: &mut u64,
) -> Result<Fetched, ExecFault>
    requires served { R.serves rows.old at.now q.now.entry.now.base.catalog }
    requires checked { IsTrue (is_checked q.now.entry.now.base q.now.entry.now.tree
        q.now.entry.now.plan) }
    requires roles { q.now.roles.now ≡
        roles_of q.now.entry.now.base q.now.vars.now q.now.entry.now.tree.places }
    requires used { AreUsed q.now.entry.now q.now.root.now q.now.used.now }
    requires here { step < length q.now.entry.now.plan.steps }
    ensures serves { (a : R.At) (c : CatalogParts)
        → R.serves rows.old a c → R.serves rows.new a c }
    ensures serves_no_more { (a : R.At) (c : CatalogParts)
        → R.serves rows.new a c → R.serves rows.old a c }
    ensures told { (a : R.At) → R.tables_of rows.new a ≡ R.tables_of rows.old a }
    ensures rises { R.sent rows.old ≤ R.sent rows.new }
    ensures most { R.sent rows.new ≤ R.sent rows.old + sent.one_if (sent.is_sent_for
        q.now.entry.now.tree q.now.entry.now.plan q.now.root.now step) }
    ensures sent { (tables : Tables) → OnOk result (Counts (R.sent rows.old) (R.sent rows.new)
        (sent.one_if (spec.is_sent_now
        (denoted.moment q.now.entry.now.base tables q.now.vars.now q.now.root.now)
        q.now.entry.now.tree q.now.entry.now.plan q.now.root.now fetched.now step))) }
    ensures gives { (tables : Tables) → R.tables_of rows.old at.now ≡ Some tables
        → Gives left.old left.new (spec.fetched_next
        (denoted.moment q.now.entry.now.base tables q.now.vars.now q.now.root.now)
        q.now.entry.now.tree q.now.entry.now.plan q.now.root.now fetched.now step) result }
    ensures gets { (tables : Tables) → R.tables_of rows.old at.now ≡ Some tables
        → Gets (R.got rows.old) (R.got rows.new) result }
    ensures faults { R.faults rows.old ≤ R.faults rows.new }
    ensures cause { IsStoreFault result → Rose (R.faults rows.old) (R.faults rows.new) }
{
    let Some(fetch) = fetch_at(q.entry.plan().steps.as_slice(), step) else {
        return Ok(Fetched::none(alloc));
    };
    if !may_send(q, step) {
        return Ok(Fetched::none(alloc));
    }
    fetch_one(alloc, q, at, rows, fetched, fetch, step, left)
}

/// What is found for all steps, and taken from what is left.
pub(crate) fn fetch_all<R: Rows>(
    alloc: Global,
    q: &Asked<'_>,
    at: &R::At,
    rows: &mut R,
    left: &mut u64,
) -> Result<Items<Fetched>, ExecFault>
    requires served { R.serves rows.old at.now q.now.entry.now.base.catalog }
    requires checked { IsTrue (is_checked q.now.entry.now.base q.now.entry.now.tree
        q.now.entry.now.plan) }
    requires roles { q.now.roles.now ≡
        roles_of q.now.entry.now.base q.now.vars.now q.now.entry.now.tree.places }
    requires used { AreUsed q.now.entry.now q.now.root.now q.now.used.now }
    ensures serves { (a : R.At) (c : CatalogParts)
        → R.serves rows.old a c → R.serves rows.new a c }
    ensures serves_no_more { (a : R.At) (c : CatalogParts)
        → R.serves rows.new a c → R.serves rows.old a c }
    ensures told { (a : R.At) → R.tables_of rows.new a ≡ R.tables_of rows.old a }
    ensures rises { R.sent rows.old ≤ R.sent rows.new }
    ensures most { R.sent rows.new ≤ R.sent rows.old + sent.sent_count
        q.now.entry.now.tree q.now.entry.now.plan q.now.root.now }
    ensures sent { (tables : Tables) → R.tables_of rows.old at.now ≡ Some tables
        → OnOk result (SendsAll (denoted.moment q.now.entry.now.base tables q.now.vars.now
        q.now.root.now) q.now.entry.now.tree q.now.entry.now.plan q.now.root.now
        (R.sent rows.old) (R.sent rows.new)) }
    ensures gives { (tables : Tables) → R.tables_of rows.old at.now ≡ Some tables
        → GivesAll (denoted.moment q.now.entry.now.base tables q.now.vars.now q.now.root.now)
        q.now.entry.now.tree q.now.entry.now.plan q.now.root.now left.old left.new result }
    ensures gets { (tables : Tables) → R.tables_of rows.old at.now ≡ Some tables
        → GetsFor (denoted.moment q.now.entry.now.base tables q.now.vars.now q.now.root.now)
        q.now.entry.now.tree q.now.entry.now.plan q.now.root.now left.old
        (R.got rows.old) (R.got rows.new) }
    ensures faults { R.faults rows.old ≤ R.faults rows.new }
    ensures cause { IsStoreFault result → Rose (R.faults rows.old) (R.faults rows.new) }
{
    let mut fetched = Items::new(alloc);
    for step in 0..q.entry.plan().steps.len() {
        match fetch_step(alloc, q, at, rows, fetched.as_slice(), step, left) {
            Ok(one) => fetched.push(one)?,
            Err(fault) => return Err(fault),
        }
    }
    Ok(fetched)
}
