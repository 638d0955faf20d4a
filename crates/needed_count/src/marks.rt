//! The marks of places: under which mutation field a place stands, and the number of its path of row fields.

ghost use Rattle.std.specs.Prelude.{◌≡◌};
ghost use Rattle.needed_count.specs.Walk as spec;

use crate::fields::{does_of, is_mutation};
use pg_base::Schema;
use place_tree::Place;
use sqlite_items::at;

/// The mutation field under which a place stands, if one, by its number among the places, and the number of the path
/// of row fields down to the place, if it has one. Two places have one signature where they have one mark.
#[derive(Clone, Copy, PartialEq, Eq, Hash)]
pub(crate) struct Mark {
    pub root: Option<usize>,
    pub path: Option<usize>,
}

const NO_MARK: Mark = Mark {
    root: None,
    path: None,
};

/// The mark of the place above, where it is among those before.
pub(crate) fn mark_above(marks: &[Mark], parent: Option<u32>) -> Mark
    ensures { result ≡ spec.mark_above marks.now parent }
{
    let Some(parent) = parent else {
        return NO_MARK;
    };
    match at(marks, parent as usize) {
        None => NO_MARK,
        Some(mark) => *mark,
    }
}

pub(crate) fn root_at(
    schema: &Schema,
    number: usize,
    place: &Place,
    above: Option<usize>,
) -> Option<usize>
    ensures { result ≡ spec.root_at schema.now number place.now above }
{
    if is_mutation(does_of(schema, place)) {
        return Some(number);
    }
    above
}
