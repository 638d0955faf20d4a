//! What is read while values are printed.

ghost use Rattle.std.specs.Prelude.{◌≡◌, option_map, slice_get};
ghost use Rattle.plan_steps.specs.Named as named;
ghost use Rattle.stmt_tree.specs.declared.found.Found.TheViews.{out-Found};
ghost use Rattle.batch_execute.specs.Reading as reading;
ghost use Rattle.batch_execute.specs.Trails.{trail_of};
ghost use Rattle.output_plan.specs.Laid as spec;
ghost use Rattle.output_plan.specs.Leaves as leaves;

use batch_execute::{Fetched, Role, Spot, Way, found_by, tree_on};
use pg_base::{Base, Blob, Text, TypeRef, Vars};
use place_tree::Place;
use plan_steps::{FetchStep, Step};
use sqlite_items::{Items, at};
use stmt_tree::{Found, RowTree};

/// The base, the variables and the steps; of each step how its rows are come by, the names of its order and what it
/// found; of each place what it shows of which step, and the type of its field, its key with a colon, and the next
/// place below the same one.
#[derive(Clone, Copy, Drop)]
pub(crate) struct Reader<'a> {
    pub base: &'a Base,
    pub vars: &'a Vars,
    pub steps: &'a [Step],
    pub ways: &'a [Way],
    pub names: &'a [Items<Text>],
    pub fetched: &'a [Fetched],
    pub places: &'a [Place],
    pub roles: &'a [Role],
    pub shows: &'a [Option<u32>],
    pub types: &'a [TypeRef],
    pub labels: &'a [Blob],
    pub nexts: &'a [usize],
}

// ---- places

/// The step that a place shows.
pub(crate) fn show_at(r: &Reader<'_>, i: usize) -> Option<u32>
    ensures { result ≡ spec.show_or (slice_get r.now.shows.now i) }
{
    match r.shows.get(i) {
        None => None,
        Some(step) => *step,
    }
}

pub(crate) fn type_at(types: &[TypeRef], i: usize) -> TypeRef
    ensures { result ≡ spec.type_or (slice_get types.now i) }
{
    match types.get(i) {
        None => TypeRef {
            name: 0,
            list: false,
            item_not_null: false,
            not_null: false,
        },
        Some(ty) => *ty,
    }
}

pub(crate) fn label_at(labels: &[Blob], i: usize) -> &[u8]
    ensures { result.now ≡ leaves.text_or (slice_get labels.now i) }
{
    match at(labels, i) {
        None => &[],
        Some(label) => label.bytes(),
    }
}

// ---- steps

pub(crate) fn fetch_at(steps: &[Step], step: usize) -> Option<&FetchStep>
    ensures { option_map (λ f. f.now) result ≡ named.fetch_at steps.now step }
{
    let Some(Step::Fetch(fetch)) = at(steps, step) else {
        return None;
    };
    Some(fetch)
}

pub(crate) fn item_at(steps: &[Step], step: usize) -> Option<u32>
    ensures { result ≡ named.item_at steps.now step }
{
    let Some(Step::Item(fetch)) = at(steps, step) else {
        return None;
    };
    Some(*fetch)
}

pub(crate) fn names_at(names: &[Items<Text>], step: usize) -> &[Text]
    ensures { result.now ≡ spec.names_or (slice_get names.now step) }
{
    match at(names, step) {
        None => &[],
        Some(names) => names.as_slice(),
    }
}

// ---- what stands at a trail

/// What a step found.
pub(crate) fn found_there<'a>(r: &Reader<'a>, trail: &[Spot<'a>], step: u32) -> Option<&'a Found>
    ensures { option_map (λ f. f.now) result ≡ reading.found_by r.now.fetched.now
        (trail_of trail.now) step (spec.way_or (slice_get r.now.ways.now step)) }
{
    match r.ways.get(step as usize) {
        None => None,
        Some(way) => found_by(r.fetched, trail, step, *way),
    }
}

fn tree_in<'a>(trail: &[Spot<'a>], fetch: Option<u32>) -> Option<&'a RowTree>
    ensures { option_map (λ t. t.now) result ≡ spec.tree_in (trail_of trail.now) fetch }
{
    match fetch {
        None => None,
        Some(fetch) => tree_on(trail, fetch),
    }
}

/// The row that the step at a place is.
pub(crate) fn tree_there<'a>(r: &Reader<'a>, trail: &[Spot<'a>], i: u32) -> Option<&'a RowTree>
    ensures { option_map (λ t. t.now) result ≡ spec.tree_in (trail_of trail.now)
        (named.item_at r.now.steps.now i) }
{
    tree_in(trail, item_at(r.steps, i as usize))
}

pub(crate) fn rows_found(found: Option<&Found>) -> &[RowTree]
    ensures { result.now ≡
        (out-Found (reading.found_or (option_map (λ f. f.now) found.entry))).rows }
{
    match found {
        None => &[],
        Some(found) => found.rows.as_slice(),
    }
}

pub(crate) fn first_tree(rows: &[RowTree]) -> Option<&RowTree>
    ensures { option_map (λ t. t.now) result ≡ reading.first_tree rows.now }
{
    rows.first()
}

pub(crate) fn last_tree(rows: &[RowTree]) -> Option<&RowTree>
    ensures { option_map (λ t. t.now) result ≡ spec.last_tree rows.now }
{
    rows.last()
}
