//! Execution over lists of rows: what each place gives, and how many rows it visits.

ghost use Rattle.std.specs.Prelude.{◌≡◌, ◌&&◌, IfOk, Some};
ghost use Rattle.place_tree.specs.Exec as spec;
ghost use Rattle.place_tree.specs.Fields as fields;
ghost use Rattle.place_tree.specs.Fetch as fetching;
ghost use Rattle.place_tree.specs.Fold.{same_place};

use crate::fetching::{fetch_error, fetch_of};
use crate::fields::{by_field, stand_cells};
use crate::finding::found_by;
use crate::lookups::field_of;
use pg_base::{Base, Does, Memory, Schema, Vars};
use place_tree::{Answer, Asker, Coster, Fetch, Place, Stand};
use rel_model::Tables;
use std::alloc::Global;

/// The tables as lists of rows, with what a request asks of them.
#[derive(Clone, Copy, Drop)]
pub(crate) struct Lists<'a> {
    pub base: &'a Base,
    pub tables: &'a Tables,
    pub vars: &'a Vars,
    pub places: &'a [Place],
}

/// What a row field gives: its error, or what it finds.
fn row_field(
    alloc: Global,
    lists: &Lists<'_>,
    place: &Place,
    fetch: Fetch,
    stand: &Stand,
) -> Result<Answer<Stand>, Memory>
    ensures { IfOk result (λ answer. answer ≡ spec.row_field lists.now.tables.now
        (fetching.error_with lists.now.base.now lists.now.vars.now place.now (Some fetch)) fetch
        (spec.stand_cells stand.now)) }
{
    match fetch_error(alloc, lists.base, lists.vars, place, &fetch)? {
        Some(message) => Ok(Answer::Fails(message)),
        None => {
            let answer = found_by(alloc, lists.tables, fetch, stand_cells(stand))?;
            Ok(answer)
        }
    }
}

#[tactic(auto, unfolding(place_tree::specs::Exec::resolved, place_tree::specs::Fetch::argument_error))]
fn resolved(
    alloc: Global,
    lists: &Lists<'_>,
    place: &Place,
    stand: &Stand,
) -> Result<Answer<Stand>, Memory>
    ensures { IfOk result (λ answer. answer ≡ spec.resolved lists.now.base.now
        lists.now.tables.now lists.now.vars.now lists.now.places.now place.now stand.now) }
{
    match fetch_of(alloc, lists.base, lists.vars, place)? {
        None => {
            let answer = by_field(alloc, lists.base, lists.vars, lists.places, place, stand)?;
            Ok(answer)
        }
        Some(fetch) => {
            let answer = row_field(alloc, lists, place, fetch, stand)?;
            Ok(answer)
        }
    }
}

impl Asker for Lists<'_> {
    ghost use Rattle.place_tree.specs.Exec as spec;

    type State = Stand;

    ghost asked = { λ lists number place state. spec.resolved lists.base.now lists.tables.now
        lists.vars.now lists.places.now place state };

    fn ask(
        &self,
        alloc: Global,
        number: u32,
        place: &Place,
        state: &Stand,
    ) -> Result<Answer<Stand>, Memory> {
        let answer = resolved(alloc, self, place, state)?;
        Ok(answer)
    }
}

// ---- visited rows

/// What the field of a place does.
pub fn does_of(schema: &Schema, place: &Place) -> Option<Does>
    ensures { result ≡ fields.does_of schema.now place.now }
{
    match field_of(schema, place) {
        None => None,
        Some(field) => Some(field.does),
    }
}

fn is_row_field(does: Option<Does>) -> bool
    ensures { result ≡ fields.is_row_field does }
{
    match does {
        None => false,
        Some(does) => asks_rows(does),
    }
}

fn asks_rows(does: Does) -> bool
    ensures { result ≡ fields.is_row_field (Some does) }
{
    match does {
        Does::Forward(_, _) => true,
        Does::Backward(_, _) => true,
        Does::All(_) => true,
        Does::ByKey(_, _) => true,
        Does::Column(_, _) => false,
        Does::Create(_) => false,
        Does::Update(_, _) => false,
        Does::Delete(_, _) => false,
        Does::Nodes => false,
        Does::Edges => false,
        Does::PageInfo => false,
        Does::Total => false,
        Does::Node => false,
        Does::Cursor => false,
        Does::HasNext => false,
        Does::HasPrevious => false,
        Does::Start => false,
        Does::End => false,
        Does::ClientId => false,
        Does::Payload => false,
    }
}

fn shows_rows(does: Option<Does>) -> bool
    ensures { result ≡ spec.shows_rows does }
{
    match does {
        None => false,
        Some(does) => shows(does),
    }
}

fn shows(does: Does) -> bool
    ensures { result ≡ spec.shows_rows (Some does) }
{
    match does {
        Does::Nodes => true,
        Does::Edges => true,
        Does::PageInfo => true,
        Does::Column(_, _) => false,
        Does::Forward(_, _) => false,
        Does::Backward(_, _) => false,
        Does::All(_) => false,
        Does::ByKey(_, _) => false,
        Does::Create(_) => false,
        Does::Update(_, _) => false,
        Does::Delete(_, _) => false,
        Does::Total => false,
        Does::Node => false,
        Does::Cursor => false,
        Does::HasNext => false,
        Does::HasPrevious => false,
        Does::Start => false,
        Does::End => false,
        Does::ClientId => false,
        Does::Payload => false,
    }
}

fn is_under(place: &Place, number: u32) -> bool
    ensures { result ≡ same_place place.now.parent (Some number) }
{
    match place.parent {
        None => false,
        Some(above) => above == number,
    }
}

/// Whether a place stands below the one with this number, and shows rows.
fn shows_under(schema: &Schema, place: &Place, number: u32) -> bool
    ensures { result ≡ (same_place place.now.parent (Some number)
        && spec.shows_rows (fields.does_of schema.now place.now)) }
{
    if !is_under(place, number) {
        return false;
    }
    shows_rows(does_of(schema, place))
}

/// Whether nodes, edges or pageInfo stands below the place with this number.
pub fn needs_rows(schema: &Schema, places: &[Place], number: u32) -> bool
    ensures { result ≡ spec.needs_rows schema.now places.now number }
{
    for place in places {
        if shows_under(schema, place, number) {
            return true;
        }
    }
    false
}

fn rows_at(shown: bool, stand: &Stand) -> u64
    ensures { result ≡ spec.rows_at shown stand.now }
{
    match stand {
        Stand::Root => 0,
        Stand::AtRow(_) => 1,
        Stand::AtList(listed) => {
            if shown {
                listed.to.saturating_sub(listed.from)
            } else {
                0
            }
        }
        Stand::AtEdge(_) => 0,
        Stand::AtPayload(_) => 0,
    }
}

fn rows_in(shown: bool, answer: &Answer<Stand>) -> u64
    ensures { result ≡ spec.rows_in shown answer.now }
{
    match answer {
        Answer::Shows(_) => 0,
        Answer::Fails(_) => 0,
        Answer::One(stand) => rows_at(shown, stand),
        Answer::Many(_) => 0,
    }
}

/// How many rows a place visits, by what it gives.
fn cost(
    schema: &Schema,
    places: &[Place],
    number: u32,
    place: &Place,
    answer: &Answer<Stand>,
) -> u64
    ensures { result ≡ spec.cost schema.now places.now number place.now answer.now }
{
    if !is_row_field(does_of(schema, place)) {
        return 0;
    }
    rows_in(needs_rows(schema, places, number), answer)
}

impl Coster for Lists<'_> {
    ghost use Rattle.place_tree.specs.Exec as spec;

    ghost costs = { λ lists number place answer.
        spec.cost lists.base.now.schema lists.places.now number place answer };

    fn cost(&self, number: u32, place: &Place, answer: &Answer<Stand>) -> u64 {
        cost(self.base.schema(), self.places, number, place, answer)
    }
}
