//! One walk over the places of a tree, which numbers their paths.

ghost use Rattle.std.specs.Prelude.{◌≡◌, IfOk, OnOk, length};
ghost use Rattle.needed_count.specs.Walk as spec;

use crate::fields::{does_of, is_row_field};
use crate::marks::{Mark, mark_above, root_at};
use crate::needs::needs_own;
use crate::words::{Word, path_words};
use indexmap::IndexSet;
use pg_base::{Base, Memory, Schema, Sequence, Vars};
use place_tree::Place;
use sqlite_items::Items;
use std::alloc::Global;
use std::marker::Model;

/// The distinct paths of row fields so far, the mark of each place so far, and the distinct marks of the places that
/// need a statement of their own.
#[derive(Drop)]
pub(crate) struct Walk {
    paths: IndexSet<Sequence<Word>>,
    marks: Items<Mark>,
    own: IndexSet<Mark>,
}

impl Model for Walk {
    ghost use Rattle.needed_count.specs.Walk.{Walked};

    ghost Value = { Walked };

    ghost view = { λ w. record { paths = w.paths.keys; marks = w.marks; own = w.own.keys } };
}

/// The number of a path that is put to others.
fn put_path(paths: &mut IndexSet<Sequence<Word>>, key: Sequence<Word>) -> Result<usize, Memory>
    ensures number { IfOk result (λ number. number ≡ spec.number_in paths.old.keys key) }
    ensures paths { OnOk result (paths.new.keys ≡ spec.with_path paths.old.keys key) }
{
    let (number, _) = paths.insert_full(key)?;
    Ok(number)
}

/// The number of a place's path, which is put to others where the place is a row field.
fn path_at(
    alloc: Global,
    schema: &Schema,
    paths: &mut IndexSet<Sequence<Word>>,
    place: &Place,
    above: Option<usize>,
) -> Result<Option<usize>, Memory>
    ensures number { IfOk result
        (λ path. path ≡ spec.path_at schema.now paths.old.keys place.now above) }
    ensures paths { OnOk result
        (paths.new.keys ≡ spec.paths_at schema.now paths.old.keys place.now above) }
{
    if !is_row_field(does_of(schema, place)) {
        return Ok(above);
    }
    let key = path_words(alloc, above, place)?;
    let number = put_path(paths, key)?;
    Ok(Some(number))
}

fn put_mark(own: &mut IndexSet<Mark>, mark: Mark) -> Result<(), Memory>
    ensures { OnOk result (own.new.keys ≡ spec.with_mark own.old.keys mark) }
{
    own.insert(mark)?;
    Ok(())
}

/// Keeps the mark of a place that needs a statement of its own.
fn put_own(own: &mut IndexSet<Mark>, mark: Mark, needs: bool) -> Result<(), Memory>
    ensures { OnOk result (own.new.keys ≡ spec.own_with needs own.old.keys mark) }
{
    if needs {
        return put_mark(own, mark);
    }
    Ok(())
}

impl Walk {
    pub(crate) fn new(alloc: Global) -> Walk
        ensures { result ≡ spec.not_walked }
    {
        Walk {
            paths: IndexSet::new(alloc),
            marks: Items::new(alloc),
            own: IndexSet::new(alloc),
        }
    }

    /// One place more.
    pub(crate) fn add(
        &mut self,
        alloc: Global,
        base: &Base,
        vars: &Vars,
        place: &Place,
    ) -> Result<(), Memory>
        ensures { OnOk result
            (self.new ≡ spec.walked_with base.now vars.now self.old place.now) }
    {
        let above = mark_above(self.marks.as_slice(), place.parent);
        let needs = needs_own(alloc, base, vars, place, above.path)?;
        let root = root_at(base.schema(), self.marks.len(), place, above.root);
        let path = path_at(alloc, base.schema(), &mut self.paths, place, above.path)?;
        let mark = Mark { root, path };
        self.marks.push(mark)?;
        put_own(&mut self.own, mark, needs)?;
        Ok(())
    }

    /// How many distinct places need a statement of their own.
    pub(crate) fn count(&self) -> u64
        ensures { result ≡ length self.now.own }
    {
        self.own.len() as u64
    }
}
