//! What keys are made of, found by passes over a plan.

ghost use Rattle.std.specs.Prelude.{◌≡◌, ◌∷◌, [], ◌==◌, ◌&&◌, ◌<◌, ℕ, None, Some, IfOk, OnOk, length, if◌then◌else◌};
ghost use Rattle.plan_steps.specs.Chains.{is_in};
ghost use Rattle.plan_steps.specs.Named as named;
ghost use Rattle.dedupe_steps.specs.declared.sights.Mark.TheVariants.{Unshown};
ghost use Rattle.dedupe_steps.specs.Orders.{or_else};
ghost use Rattle.place_tree.specs.Fold.{same_place};
ghost use Rattle.dedupe_steps.specs.Roots as roots;
ghost use Rattle.dedupe_steps.specs.Sights as spec;

use crate::lookups::told_at;
use crate::roots::{is_field_at, mutates, roots};
use pg_base::{Base, Memory};
use place_tree::Tree;
use plan_steps::{Layer, OutPlace, Plan};
use sqlite_items::Items;
use std::alloc::Global;

/// Under which mutation field the places lie that show a step.
#[derive(Clone, Copy, Drop)]
pub enum Mark {
    Unshown,
    Within(Option<u32>),
    Several,
}

/// What is said of the steps of a plan: lists with an item for each of them.
#[derive(Drop)]
pub struct Sights {
    /// Whether the tree is a mutation's.
    pub mutates: bool,
    /// The mutation field of each place of the tree, if one.
    pub roots: Items<Option<u32>>,
    pub marks: Items<Mark>,
    /// The first place that is a row field and shows the step.
    pub fields: Items<Option<u32>>,
    /// The layer that has the step.
    pub layers: Items<Option<usize>>,
}

fn is_same_place(one: Option<u32>, other: Option<u32>) -> bool
    ensures { result ≡ same_place one other }
{
    match one {
        None => match other {
            None => true,
            Some(_) => false,
        },
        Some(one) => match other {
            None => false,
            Some(other) => one == other,
        },
    }
}

fn met(mark: Mark, root: Option<u32>) -> Mark
    ensures { result ≡ roots.met mark root }
{
    match mark {
        Mark::Unshown => Mark::Within(root),
        Mark::Within(other) => {
            if is_same_place(other, root) {
                return Mark::Within(other);
            }
            Mark::Several
        }
        Mark::Several => Mark::Several,
    }
}

pub(crate) fn mark_at(marks: &Items<Mark>, step: usize) -> Mark
    ensures { result ≡ spec.at_or Unshown marks.now step }
{
    match marks.get(step) {
        Some(mark) => *mark,
        None => Mark::Unshown,
    }
}

pub(crate) fn layer_at(layers: &Items<Option<usize>>, step: usize) -> Option<usize>
    ensures { result ≡ spec.at_or None layers.now step }
{
    match layers.get(step) {
        Some(layer) => *layer,
        None => None,
    }
}

/// So many items that are alike.
pub(crate) fn alike<T: Copy + Drop>(
    alloc: Global,
    item: T,
    count: usize,
) -> Result<Items<T>, Memory>
    ensures long { IfOk result (λ items. length items ≡ count) }
    ensures alike { IfOk result (λ items. (k : ℕ) → spec.at_or item items k ≡ item) }
{
    let mut items = Items::new(alloc);
    for turn in 0..count {
        items.push(item)?;
    }
    Ok(items)
}

// ---- marks

/// A place more shows a step.
fn mark_step(marks: &mut Items<Mark>, step: usize, root: Option<u32>)
    ensures long { length marks.new ≡ length marks.old }
    ensures marks { (k : ℕ) → k < length marks.old → spec.at_or Unshown marks.new k ≡
        (if step == k then roots.met (spec.at_or Unshown marks.old k) root
        else spec.at_or Unshown marks.old k) }
{
    if step < marks.len() {
        let new = met(mark_at(marks, step), root);
        marks.set(step, new);
    }
}

/// Under which mutation field the places lie that show each step.
fn marks(
    alloc: Global,
    places: &[Option<u32>],
    out: &[OutPlace],
    count: usize,
) -> Result<Items<Mark>, Memory>
    ensures { IfOk result (λ marks. (k : ℕ) → k < count →
        spec.at_or Unshown marks k ≡ roots.mark_of places.now out.now k) }
{
    let mut marks = alike(alloc, Mark::Unshown, count)?;
    for o in out {
        mark_step(
            &mut marks,
            o.step as usize,
            told_at(places, o.place as usize),
        );
    }
    Ok(marks)
}

// ---- row fields

/// A place that is a row field shows a step.
fn note_field(fields: &mut Items<Option<u32>>, step: usize, place: u32)
    ensures long { length fields.new ≡ length fields.old }
    ensures fields { (k : ℕ) → k < length fields.old → spec.at_or None fields.new k ≡
        (if step == k then or_else (spec.at_or None fields.old k) (Some place)
        else spec.at_or None fields.old k) }
{
    if let Some(None) = fields.get(step) {
        fields.set(step, Some(place));
    }
}

/// A place shows a step.
fn show(fields: &mut Items<Option<u32>>, base: &Base, tree: &Tree, o: OutPlace)
    ensures long { length fields.new ≡ length fields.old }
    ensures fields { (k : ℕ) → k < length fields.old → spec.at_or None fields.new k ≡
        (if (o.step == k) && roots.is_field_at base.now tree.now o.place
        then or_else (spec.at_or None fields.old k) (Some o.place)
        else spec.at_or None fields.old k) }
{
    if is_field_at(base, tree, o.place as usize) {
        note_field(fields, o.step as usize, o.place);
    }
}

/// The first place that is a row field and shows each step.
fn fields(
    alloc: Global,
    base: &Base,
    tree: &Tree,
    out: &[OutPlace],
    count: usize,
) -> Result<Items<Option<u32>>, Memory>
    ensures { IfOk result (λ fields. (k : ℕ) → k < count →
        spec.at_or None fields k ≡ roots.field_in base.now tree.now out.now k) }
{
    let mut fields = alike(alloc, None, count)?;
    for o in out {
        show(&mut fields, base, tree, *o);
    }
    Ok(fields)
}

// ---- layers

/// A step stands in a layer.
fn lay(laid: &mut Items<Option<usize>>, step: usize, layer: usize)
    ensures long { length laid.new ≡ length laid.old }
    ensures laid { (k : ℕ) → k < length laid.old → spec.at_or None laid.new k ≡
        (if step == k then or_else (spec.at_or None laid.old k) (Some layer)
        else spec.at_or None laid.old k) }
{
    if let Some(None) = laid.get(step) {
        laid.set(step, Some(layer));
    }
}

/// Steps stand in a layer.
fn lay_all(laid: &mut Items<Option<usize>>, steps: &[u32], layer: usize)
    ensures long { length laid.new ≡ length laid.old }
    ensures laid { (k : ℕ) → k < length laid.old → spec.at_or None laid.new k ≡
        (if is_in steps.now k then or_else (spec.at_or None laid.old k) (Some layer)
        else spec.at_or None laid.old k) }
{
    for step in steps {
        lay(laid, *step as usize, layer);
    }
}

/// The layer that has each step.
pub(crate) fn layers_of(
    alloc: Global,
    layers: &[Layer],
    count: usize,
) -> Result<Items<Option<usize>>, Memory>
    ensures { IfOk result (λ laid. (k : ℕ) → k < count →
        spec.at_or None laid k ≡ named.layer_of layers.now k) }
{
    let mut laid = alike(alloc, None, count)?;
    for i in 0..layers.len() {
        lay_all(&mut laid, layers[i].steps.as_slice(), i);
    }
    Ok(laid)
}

/// What is said of the steps of a plan.
pub(crate) fn look(alloc: Global, base: &Base, tree: &Tree, plan: &Plan) -> Result<Sights, Memory>
    ensures { IfOk result (λ s. spec.AreSights base.now tree.now plan.now s) }
{
    let count = plan.steps.len();
    let found = roots(alloc, base.schema(), tree.places.as_slice())?;
    let marks = marks(alloc, found.as_slice(), plan.out.as_slice(), count)?;
    let fields = fields(alloc, base, tree, plan.out.as_slice(), count)?;
    let layers = layers_of(alloc, plan.layers.as_slice(), count)?;
    Ok(Sights {
        mutates: mutates(base.schema(), tree.places.as_slice()),
        roots: Items::from_vec(found),
        marks,
        fields,
        layers,
    })
}
