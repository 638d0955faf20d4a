//! What a statement found.

ghost use Rattle.std.specs.Prelude.{◌≡◌, [], length, option_map, slice_get};
ghost use Rattle.std.specs.List.Sorted.{IsBinarySearchResult, IsSearchInRange};
ghost use Rattle.rel_model.specs.Ordered as ordered;
ghost use Rattle.batch_execute.specs.Fetched.{AreAscending};
ghost use Rattle.batch_execute.specs.Reading as spec;

use pg_base::Cell;
use rel_model::{By, compare_row_values};
use sqlite_items::{Items, at};
use std::alloc::Global;
use std::cmp::Ordering;
use std::marker::Model;
use stmt_tree::{Found, Key};

/// What a statement found for each of its keys, in their order, which ascends. Of a step that was sent no statement
/// there is none.
#[derive(Drop)]
pub struct Fetched {
    order: Items<By>,
    keys: Items<Key>,
    found: Items<Found>,
}

impl Model for Fetched {
    ghost use Rattle.std.specs.Coded.{codes};
    ghost use Rattle.stmt_tree.specs.contracts.found.Found as found_type;
    ghost use Rattle.batch_execute.specs.Fetched.{FetchedParts, AreAscending};

    ghost Value = { FetchedParts };

    ghost coded = { Prim.hlevel (codes, found_type.the_row.coded) };

    ghost view = { λ x. record { order = x.order; keys = x.keys; found = x.found } };

    ghost invariant = { λ x. AreAscending x.order x.keys };
}

/// How a key stands to the cells of a row.
fn compare_key(order: &[By], cells: &[Cell], key: &Key) -> Ordering
    ensures { result ≡
        ordered.cells_order order.now key.now.cells (ordered.cells_by order.now cells.now) }
{
    compare_row_values(order, cells, key.cells.as_slice()).reverse()
}

fn search(order: &[By], cells: &[Cell], keys: &[Key]) -> Result<usize, usize>
    ensures within { IsSearchInRange result (length keys.now) }
    ensures place { IsBinarySearchResult (λ k. ordered.cells_order order.now k.cells
        (ordered.cells_by order.now cells.now)) keys.now result }
{
    keys.binary_search_by(|key| compare_key(order, cells, key))
}

/// What was found for the key that a row's cells are.
fn look_up<'a>(order: &[By], keys: &[Key], found: &'a [Found], cells: &[Cell]) -> Option<&'a Found>
    requires { AreAscending order.now keys.now }
    ensures { option_map (λ f. f.now) result
        ≡ spec.looked_up order.now cells.now keys.now found.now }
{
    match search(order, cells, keys) {
        Ok(place) => at(found, place),
        Err(_) => None,
    }
}

impl Fetched {
    pub(crate) fn of(order: Items<By>, keys: Items<Key>, found: Items<Found>) -> Fetched
        requires { AreAscending order keys }
        ensures { result ≡ record { order = order; keys = keys; found = found } }
    {
        Fetched { order, keys, found }
    }

    /// Nothing.
    pub(crate) fn none(alloc: Global) -> Fetched
        ensures { result ≡ spec.unasked }
    {
        Fetched {
            order: Items::new(alloc),
            keys: Items::new(alloc),
            found: Items::new(alloc),
        }
    }

    /// What was found for each key, in their order.
    pub fn found(&self) -> &[Found]
        ensures { result.now ≡ self.now.found }
    {
        self.found.as_slice()
    }

    /// What was found for the key that a row's cells are.
    pub fn find(&self, cells: &[Cell]) -> Option<&Found>
        ensures { option_map (λ f. f.now) result ≡
            spec.looked_up self.now.order cells.now self.now.keys self.now.found }
    {
        look_up(
            self.order.as_slice(),
            self.keys.as_slice(),
            self.found.as_slice(),
            cells,
        )
    }
}
