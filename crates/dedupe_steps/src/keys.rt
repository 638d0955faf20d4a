//! The keys of steps and layers.

ghost use Rattle.std.specs.Prelude.{◌≡◌, ◌++◌, IfOk, OnOk, Some, option_map, slice_get};
ghost use Rattle.plan_steps.specs.Named as named;
ghost use Rattle.dedupe_steps.specs.Keys as spec;
ghost use Rattle.dedupe_steps.specs.Numbered as numbered;
ghost use Rattle.dedupe_steps.specs.Sights as seen;
ghost use Rattle.dedupe_steps.specs.Words as words;

use crate::fetch_words::put_step;
use crate::lookups::{number_at, told_at};
use crate::orders::put_order_for;
use crate::sights::{Mark, Sights, layer_at, mark_at};
use crate::words::{Word, put_number};
use pg_base::{Memory, Sequence};
use place_tree::Tree;
use plan_constraints::Constraint;
use plan_steps::{Layer, Plan, Step};
use sqlite_items::at;
use std::alloc::{AllocError, Global};

fn is_given(steps: &[Step], step: usize) -> bool
    ensures { result ≡ named.is_given steps.now step }
{
    let Some(Step::Given) = at(steps, step) else {
        return false;
    };
    true
}

/// A number after that of its sort.
fn put_sorted(out: &mut Vec<Word>, sort: u32, number: u32) -> Result<(), Memory>
    ensures { OnOk result (out.new.items ≡ out.old.items ++ words.sorted sort number) }
{
    put_number(out, sort)?;
    put_number(out, number)
}

fn put_hook_on(
    out: &mut Vec<Word>,
    to: &[u32],
    steps: &[Step],
    parent: Option<u32>,
) -> Result<(), Memory>
    ensures { OnOk result (out.new.items ≡ out.old.items
        ++ words.hook_words (spec.hook_on to.now steps.now parent)) }
{
    let Some(row) = parent else {
        return put_number(out, 0);
    };
    if is_given(steps, row as usize) {
        return put_number(out, 1);
    }
    put_sorted(out, 2, number_at(to, row as usize))
}

/// On what a step hangs.
fn put_hook(out: &mut Vec<Word>, to: &[u32], steps: &[Step], step: &Step) -> Result<(), Memory>
    ensures { OnOk result (out.new.items ≡ out.old.items
        ++ words.hook_words (spec.hook to.now steps.now step.now)) }
{
    match step {
        Step::Const(_) => put_number(out, 0),
        Step::Var(_) => put_number(out, 0),
        Step::Given => put_number(out, 0),
        Step::Fetch(fetch) => put_hook_on(out, to, steps, fetch.parent),
        Step::Item(_) => put_number(out, 0),
        Step::Column(_, _) => put_number(out, 0),
        Step::Count(_) => put_number(out, 0),
        Step::Page(_, _) => put_number(out, 0),
        Step::CursorOf(_) => put_number(out, 0),
    }
}

fn over_in(layers: &[Layer], layer: usize) -> Option<u32>
    ensures { result ≡ named.over_in (slice_get layers.now layer) }
{
    match at(layers, layer) {
        Some(found) => found.over,
        None => None,
    }
}

/// The fetch over which a layer stands.
fn over_at(layers: &[Layer], layer: Option<usize>) -> Option<u32>
    ensures { result ≡ named.over_at layers.now layer }
{
    match layer {
        Some(layer) => over_in(layers, layer),
        None => None,
    }
}

/// Over what the layer of the step at a place stands.
fn put_ground(
    out: &mut Vec<Word>,
    to: &[u32],
    place: usize,
    over: Option<u32>,
) -> Result<(), Memory>
    ensures { OnOk result (out.new.items ≡ out.old.items
        ++ words.ground_words (spec.ground_of to.now place over)) }
{
    let Some(fetch) = over else {
        return put_number(out, 0);
    };
    if (fetch as usize) < place {
        return put_sorted(out, 1, number_at(to, fetch as usize));
    }
    put_sorted(out, 2, fetch)
}

fn put_root(out: &mut Vec<Word>, root: Option<u32>) -> Result<(), Memory>
    ensures { OnOk result (out.new.items ≡ out.old.items ++ words.optional words.number root) }
{
    match root {
        None => put_number(out, 0),
        Some(place) => put_sorted(out, 1, place),
    }
}

fn put_under(out: &mut Vec<Word>, root: Option<u32>) -> Result<(), Memory>
    ensures { OnOk result (out.new.items ≡ out.old.items ++ words.reach_words (spec.Under root)) }
{
    put_number(out, 1)?;
    put_root(out, root)
}

fn put_reach_by(out: &mut Vec<Word>, mutates: bool, place: u32, mark: Mark) -> Result<(), Memory>
    ensures { OnOk result (out.new.items ≡ out.old.items
        ++ words.reach_words (spec.reach_by mutates place mark)) }
{
    if !mutates {
        return put_number(out, 0);
    }
    match mark {
        Mark::Unshown => put_number(out, 0),
        Mark::Within(root) => match root {
            None => put_sorted(out, 2, place),
            Some(_) => put_under(out, root),
        },
        Mark::Several => put_sorted(out, 2, place),
    }
}

fn root_of(roots: &[Option<u32>], field: Option<u32>) -> Option<u32>
    ensures { result ≡ spec.root_of roots.now field }
{
    match field {
        None => None,
        Some(place) => told_at(roots, place as usize),
    }
}

/// For which places a step stands.
fn put_reach(
    out: &mut Vec<Word>,
    mutates: bool,
    mark: Mark,
    root: Option<u32>,
    place: u32,
    step: &Step,
) -> Result<(), Memory>
    ensures { OnOk result (out.new.items ≡ out.old.items
        ++ words.reach_words (seen.reach_with mutates mark root place step.now)) }
{
    match step {
        Step::Const(_) => put_reach_by(out, mutates, place, mark),
        Step::Var(_) => put_reach_by(out, mutates, place, mark),
        Step::Given => put_sorted(out, 2, place),
        Step::Fetch(_) => put_under(out, root),
        Step::Item(_) => put_number(out, 0),
        Step::Column(_, _) => put_number(out, 0),
        Step::Count(_) => put_number(out, 0),
        Step::Page(_, _) => put_number(out, 0),
        Step::CursorOf(_) => put_number(out, 0),
    }
}

/// The key of the step at a place, where those before it are numbered.
pub(crate) fn key_of(
    alloc: Global,
    tree: &Tree,
    constraints: &[Constraint],
    plan: &Plan,
    sights: &Sights,
    to: &[u32],
    k: usize,
    step: &Step,
) -> Result<Sequence<Word>, Memory>
    ensures { IfOk result (λ key. key ≡ words.key_words (seen.key_with tree.now constraints.now
        plan.now sights.now to.now k step.now)) }
{
    let Ok(place) = u32::try_from(k) else {
        return Err(AllocError);
    };
    let mut out = Vec::new(alloc);
    put_step(alloc, &mut out, to, step)?;
    put_hook(&mut out, to, plan.steps.as_slice(), step)?;
    let over = over_at(plan.layers.as_slice(), layer_at(&sights.layers, k));
    put_ground(&mut out, to, k, over)?;
    let field = told_at(sights.fields.as_slice(), k);
    let root = root_of(sights.roots.as_slice(), field);
    put_reach(
        &mut out,
        sights.mutates,
        mark_at(&sights.marks, k),
        root,
        place,
        step,
    )?;
    put_order_for(alloc, &mut out, constraints, tree, field, step)?;
    Ok(Sequence::of(out))
}

/// The fetch over which a layer stands, under its new number.
pub(crate) fn ground_at(to: &[u32], over: Option<u32>) -> Option<u32>
    ensures { result ≡ option_map (numbered.at to.now) over }
{
    match over {
        Some(fetch) => Some(number_at(to, fetch as usize)),
        None => None,
    }
}

/// The key of a layer.
pub(crate) fn layer_key(alloc: Global, to: &[u32], layer: &Layer) -> Result<Sequence<Word>, Memory>
    ensures { IfOk result (λ key. key ≡
        words.optional words.number (option_map (numbered.at to.now) layer.now.over)) }
{
    let mut out = Vec::new(alloc);
    put_root(&mut out, ground_at(to, layer.over))?;
    Ok(Sequence::of(out))
}
