//! What was found where a walk over places stands.

ghost use Rattle.std.specs.Prelude.{◌≡◌, Some, option_map, slice_get};
ghost use Rattle.batch_execute.specs.Reading as spec;
ghost use Rattle.batch_execute.specs.Trails.{trail_of};

use crate::fetched::Fetched;
use crate::way::Way;
use sqlite_items::at;
use stmt_tree::{Found, RowTree};

/// A row of a fetch at which a walk stands, with what was found below it.
#[derive(Clone, Copy, Drop)]
pub struct Spot<'a> {
    pub step: u32,
    pub tree: &'a RowTree,
}

/// The last row of a fetch on a trail.
pub fn tree_on<'a>(trail: &[Spot<'a>], step: u32) -> Option<&'a RowTree>
    ensures { option_map (λ t. t.now) result ≡ spec.tree_on (trail_of trail.now) step }
{
    let mut left = trail.len();
    'left: while left > 0 {
        left -= 1;
        let spot = trail[left];
        if spot.step == step {
            return Some(spot.tree);
        }
    }
    None
}

fn first_found(fetched: Option<&Fetched>) -> Option<&Found>
    ensures { option_map (λ f. f.now) result ≡ spec.first_found
        (spec.fetched_or (option_map (λ x. x.now) fetched.entry)).found }
{
    match fetched {
        None => None,
        Some(fetched) => fetched.found().first(),
    }
}

fn found_for_row<'a>(fetched: Option<&'a Fetched>, tree: Option<&RowTree>) -> Option<&'a Found>
    ensures { option_map (λ f. f.now) result ≡ spec.found_for_row
        (spec.fetched_or (option_map (λ x. x.now) fetched.entry))
        (option_map (λ t. t.now) tree.entry) }
{
    match tree {
        None => None,
        Some(tree) => match fetched {
            None => None,
            Some(fetched) => fetched.find(tree.cells.as_slice()),
        },
    }
}

fn found_below(tree: Option<&RowTree>, child: usize) -> Option<&Found>
    ensures { option_map (λ f. f.now) result ≡
        spec.found_below (option_map (λ t. t.now) tree.entry) child }
{
    match tree {
        None => None,
        Some(tree) => at(tree.children.as_slice(), child),
    }
}

/// What a step found that is come by in this way, at a trail.
pub fn found_by<'a>(
    fetched: &'a [Fetched],
    trail: &[Spot<'a>],
    step: u32,
    way: Way,
) -> Option<&'a Found>
    ensures { option_map (λ f. f.now) result ≡
        spec.found_by fetched.now (trail_of trail.now) step way }
{
    match way {
        Way::Other => None,
        Way::Once => first_found(fetched.get(step as usize)),
        Way::Sent(above) => found_for_row(fetched.get(step as usize), tree_on(trail, above)),
        Way::Read(above, child) => found_below(tree_on(trail, above), child),
    }
}
