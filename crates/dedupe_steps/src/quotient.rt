//! The plan whose steps and layers are renamed.

ghost use Rattle.std.specs.Prelude.{◌≡◌, ◌∷◌, ◌++◌, [], ◌<◌, ◌==◌, ◌||◌, ℕ, false, IfOk, OnOk, length, map, option_map, slice_set, Some, if◌then◌else◌};
ghost use Rattle.place_tree.specs.Fold.{same_place};
ghost use Rattle.dedupe_steps.specs.Keys as keys;
ghost use Rattle.dedupe_steps.specs.Made as made;
ghost use Rattle.dedupe_steps.specs.Made.{AreWithin};
ghost use Rattle.dedupe_steps.specs.Numbered as numbered;
ghost use Rattle.dedupe_steps.specs.Quotient as spec;
ghost use Rattle.dedupe_steps.specs.Sights.{at_or};

use crate::keys::ground_at;
use crate::lookups::number_at;
use crate::sights::{alike, layer_at};
use pg_base::Memory;
use plan_constraints::Part;
use plan_steps::{FetchStep, Layer, OutPlace, Step};
use sqlite_items::{Items, at};
use std::alloc::{AllocError, Global};

fn copy_path(alloc: Global, path: &[Part]) -> Result<Items<Part>, Memory>
    ensures { IfOk result (λ copy. copy ≡ path.now) }
{
    let mut copy = Items::new(alloc);
    for part in path {
        copy.push(part.copy(alloc)?)?;
    }
    Ok(copy)
}

// ---- which new steps ask for rows

fn asks(step: &Step) -> bool
    ensures { result ≡ spec.asks step.now }
{
    match step {
        Step::Const(_) => false,
        Step::Var(_) => false,
        Step::Given => false,
        Step::Fetch(fetch) => fetch.rows,
        Step::Item(_) => false,
        Step::Column(_, _) => false,
        Step::Count(_) => false,
        Step::Page(_, _) => false,
        Step::CursorOf(_) => false,
    }
}

pub(crate) fn flag_at(flags: &Items<bool>, number: usize) -> bool
    ensures { result ≡ at_or false flags.now number }
{
    match flags.get(number) {
        Some(flag) => *flag,
        None => false,
    }
}

fn either(one: bool, other: bool) -> bool
    ensures { result ≡ (one || other) }
{
    one || other
}

fn raise(flags: &mut Items<bool>, number: usize, flag: bool)
    ensures long { length flags.new ≡ length flags.old }
    ensures flags { (m : ℕ) → m < length flags.old → at_or false flags.new m ≡
        (if number == m then at_or false flags.old m || flag else at_or false flags.old m) }
{
    if number < flags.len() {
        let new = either(flag_at(flags, number), flag);
        flags.set(number, new);
    }
}

/// Whether one of the steps of each new number asks for rows.
fn askers(alloc: Global, to: &[u32], steps: &[Step], count: usize) -> Result<Items<bool>, Memory>
    ensures { IfOk result (λ flags. (m : ℕ) → m < count →
        at_or false flags m ≡ spec.some_asks to.now m 0 steps.now) }
{
    let mut flags = alike(alloc, false, count)?;
    for k in 0..steps.len() {
        raise(&mut flags, number_at(to, k) as usize, asks(&steps[k]));
    }
    Ok(flags)
}

// ---- steps

/// The same fetch on another row, with rows where it is said.
fn hung(
    alloc: Global,
    parent: Option<u32>,
    rows: bool,
    fetch: &FetchStep,
) -> Result<FetchStep, Memory>
    ensures { IfOk result (λ f. f ≡ keys.hung parent rows fetch.now) }
{
    let FetchStep {
        table,
        by,
        parent: _,
        parent_columns,
        condition,
        key,
        order,
        window,
        rows: _,
        children,
    } = fetch.copy(alloc)?;
    Ok(FetchStep {
        table,
        by,
        parent,
        parent_columns,
        condition,
        key,
        order,
        window,
        rows,
        children,
    })
}

/// The step with what it names under its new number; a fetch with rows where it is said.
fn moved(alloc: Global, to: &[u32], rows: bool, step: &Step) -> Result<Step, Memory>
    ensures { IfOk result (λ s. s ≡ keys.moved to.now rows step.now) }
{
    match step {
        Step::Const(value) => {
            let copy = value.copy(alloc)?;
            Ok(Step::Const(copy))
        }
        Step::Var(path) => {
            let copy = copy_path(alloc, path.as_slice())?;
            Ok(Step::Var(copy))
        }
        Step::Given => Ok(Step::Given),
        Step::Fetch(fetch) => {
            let copy = hung(alloc, ground_at(to, fetch.parent), rows, fetch)?;
            Ok(Step::Fetch(copy))
        }
        Step::Item(fetch) => Ok(Step::Item(number_at(to, *fetch as usize))),
        Step::Column(row, column) => Ok(Step::Column(number_at(to, *row as usize), *column)),
        Step::Count(fetch) => Ok(Step::Count(number_at(to, *fetch as usize))),
        Step::Page(fetch, part) => Ok(Step::Page(number_at(to, *fetch as usize), *part)),
        Step::CursorOf(item) => Ok(Step::CursorOf(number_at(to, *item as usize))),
    }
}

fn moved_at(
    alloc: Global,
    to: &[u32],
    rows: bool,
    steps: &[Step],
    place: usize,
) -> Result<Step, Memory>
    ensures { IfOk result (λ s. s ≡ keys.moved to.now rows (keys.step_at steps.now place)) }
{
    match at(steps, place) {
        Some(step) => {
            let new = moved(alloc, to, rows, step)?;
            Ok(new)
        }
        None => Ok(Step::Given),
    }
}

/// The steps that stand for those of each number.
pub(crate) fn new_steps(
    alloc: Global,
    to: &[u32],
    firsts: &[usize],
    steps: &[Step],
) -> Result<Items<Step>, Memory>
    requires { AreWithin to.now (length firsts.now) firsts.now }
    ensures { IfOk result (λ new. new ≡ map (spec.new_step steps.now to.now) firsts.now) }
{
    let flags = askers(alloc, to, steps, firsts.len())?;
    let mut new = Items::new(alloc);
    for first in firsts {
        let rows = flag_at(&flags, number_at(to, *first) as usize);
        let step = moved_at(alloc, to, rows, steps, *first)?;
        new.push(step)?;
    }
    Ok(new)
}

// ---- layers

fn layer_moved(to: &[u32], layer: Option<usize>) -> Option<u32>
    ensures { result ≡ option_map (numbered.at to.now) layer }
{
    match layer {
        Some(layer) => Some(number_at(to, layer)),
        None => None,
    }
}

fn push_at(lists: &mut Vec<Items<u32>>, place: usize, number: u32) -> Result<(), Memory>
    requires { place < length lists.old.items }
    ensures { OnOk result (lists.new.items ≡ slice_set lists.old.items place
        (at_or [] lists.old.items place ++ number ∷ [])) }
{
    lists[place].push(number)?;
    Ok(())
}

/// A step stands in a new layer.
fn put_in(lists: &mut Vec<Items<u32>>, layer: Option<u32>, number: u32) -> Result<(), Memory>
    ensures long { OnOk result (length lists.new.items ≡ length lists.old.items) }
    ensures lists { OnOk result ((x : ℕ) → x < length lists.old.items →
        at_or [] lists.new.items x ≡ (if same_place layer (Some x)
        then at_or [] lists.old.items x ++ number ∷ [] else at_or [] lists.old.items x)) }
{
    let Some(place) = layer else {
        return Ok(());
    };
    if place as usize >= lists.len() {
        return Ok(());
    }
    push_at(lists, place as usize, number)?;
    Ok(())
}

fn empty_lists(alloc: Global, count: usize) -> Result<Vec<Items<u32>>, Memory>
    ensures long { IfOk result (λ lists. length lists.items ≡ count) }
    ensures empty { IfOk result (λ lists. (x : ℕ) → at_or [] lists.items x ≡ []) }
{
    let mut lists = Vec::with_capacity(alloc, count)?;
    for turn in 0..count {
        lists.push(Items::new(alloc))?;
    }
    Ok(lists)
}

/// The new steps of each new layer.
pub(crate) fn lists_of(
    alloc: Global,
    laid: &Items<Option<usize>>,
    to: &[u32],
    firsts: &[usize],
    count: usize,
) -> Result<Vec<Items<u32>>, Memory>
    ensures { IfOk result (λ lists. (x : ℕ) → x < count →
        at_or [] lists.items x ≡ made.laid_in laid.now to.now x 0 firsts.now) }
{
    let mut lists = empty_lists(alloc, count)?;
    for m in 0..firsts.len() {
        let Ok(number) = u32::try_from(m) else {
            return Err(AllocError);
        };
        put_in(
            &mut lists,
            layer_moved(to, layer_at(laid, firsts[m])),
            number,
        )?;
    }
    Ok(lists)
}

fn over_moved(to: &[u32], layers: &[Layer], place: usize) -> Option<u32>
    ensures { result ≡ spec.ground_at to.now layers.now place }
{
    match at(layers, place) {
        Some(layer) => ground_at(to, layer.over),
        None => None,
    }
}

fn list_at(alloc: Global, lists: &[Items<u32>], place: usize) -> Result<Items<u32>, Memory>
    ensures { IfOk result (λ list. list ≡ at_or [] lists.now place) }
{
    match at(lists, place) {
        Some(list) => {
            let copy = Items::from_slice(alloc, list.as_slice())?;
            Ok(copy)
        }
        None => Ok(Items::new(alloc)),
    }
}

/// The layers that stand for those of each number, with these steps.
pub(crate) fn new_layers(
    alloc: Global,
    to: &[u32],
    firsts: &[usize],
    layers: &[Layer],
    lists: &[Items<u32>],
) -> Result<Items<Layer>, Memory>
    ensures { IfOk result (λ new. new ≡
        made.layers_made to.now layers.now lists.now 0 firsts.now) }
{
    let mut new = Items::new(alloc);
    for m in 0..firsts.len() {
        let over = over_moved(to, layers, firsts[m]);
        let steps = list_at(alloc, lists, m)?;
        new.push(Layer { over, steps })?;
    }
    Ok(new)
}

// ---- places

/// What each place shows, renamed.
pub(crate) fn new_out(
    alloc: Global,
    to: &[u32],
    to_layer: &[u32],
    out: &[OutPlace],
) -> Result<Items<OutPlace>, Memory>
    ensures { IfOk result (λ new. new ≡ map (spec.new_out to.now to_layer.now) out.now) }
{
    let mut new = Items::new(alloc);
    for o in out {
        new.push(OutPlace {
            place: o.place,
            layer: number_at(to_layer, o.layer as usize),
            step: number_at(to, o.step as usize),
        })?;
    }
    Ok(new)
}
