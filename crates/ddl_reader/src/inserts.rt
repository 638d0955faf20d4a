//! The INSERTs of a script, in little room.

ghost use Rattle.std.specs.Prelude.{◌≡◌, [], ◌∷◌, ◌++◌, length, IsTrue, IfSome, OnOk};
ghost use Rattle.ddl_reader.specs.Inserts.{moved, inserts_in, AreFirsts, IsLike};

use crate::statement::InsertStatement;
use pg_base::{Memory, Pos, Text};
use sqlite_items::{Items, at};
use std::alloc::Global;
use std::marker::Model;

/// How many of the first INSERTs a new one is compared with.
const MOST_COMPARED: usize = 16;

/// An INSERT that names the same table and columns as a first one.
#[derive(Clone, Copy)]
pub(crate) struct InsertPlace {
    /// The place of the first one.
    pub(crate) first: usize,
    /// Where its table's name stands.
    pub(crate) pos: Pos,
}

/// INSERTs in their order, which contracts see as the list of them. Of those that name the same table and columns the
/// first alone is kept whole, if it is one of the last such ones.
#[derive(Drop)]
pub(crate) struct Inserts {
    pub(crate) firsts: Items<InsertStatement>,
    pub(crate) places: Items<InsertPlace>,
}

impl Model for Inserts {
    ghost use Rattle.std.specs.Prelude.{List};
    ghost use Rattle.ddl_reader.specs.declared.statement.InsertStatement.{InsertStatement};
    ghost use Rattle.ddl_reader.specs.Inserts.{inserts_in, AreFirsts};

    ghost Value = { List InsertStatement };

    ghost view = { λ inserts. inserts_in inserts.firsts inserts.places };

    ghost invariant = { λ inserts. AreFirsts inserts.firsts inserts.places };
}

impl Inserts {
    pub(crate) fn new(alloc: Global) -> Inserts
        ensures { result ≡ [] }
    {
        Inserts {
            firsts: Items::new(alloc),
            places: Items::new(alloc),
        }
    }

    pub(crate) fn len(&self) -> usize
        ensures { result ≡ length self.now }
    {
        self.places.len()
    }

    /// One INSERT more, at the end.
    pub(crate) fn push(&mut self, insert: InsertStatement) -> Result<(), Memory>
        ensures { OnOk result (self.new ≡ self.old ++ insert ∷ []) }
    {
        push_into(&mut self.firsts, &mut self.places, insert)
    }
}

fn are_same(xs: &[Text], ys: &[Text]) -> bool
    ensures { IsTrue result → xs.now ≡ ys.now }
{
    xs == ys
}

fn are_same_columns(xs: &Option<Items<Text>>, ys: &Option<Items<Text>>) -> bool
    ensures { IsTrue result → xs.now ≡ ys.now }
{
    match xs {
        None => match ys {
            None => true,
            Some(_) => false,
        },
        Some(xs) => match ys {
            None => false,
            Some(ys) => are_same(xs.as_slice(), ys.as_slice()),
        },
    }
}

/// Whether both name the same table and columns.
fn name_the_same(first: &InsertStatement, insert: &InsertStatement) -> bool
    ensures { IsTrue result → moved first.now insert.now.table.pos ≡ insert.now }
{
    if first.table.text != insert.table.text {
        return false;
    }
    are_same_columns(&first.columns, &insert.columns)
}

/// Whether the first INSERT at the place names the same.
fn is_like(firsts: &[InsertStatement], insert: &InsertStatement, place: usize) -> bool
    ensures { IsTrue result → IsLike firsts.now insert.now place }
{
    let Some(first) = at(firsts, place) else {
        return false;
    };
    name_the_same(first, insert)
}

/// The place of one of the last first INSERTs that names the same.
fn place_like(firsts: &[InsertStatement], insert: &InsertStatement) -> Option<usize>
    ensures { IfSome result (IsLike firsts.now insert.now) }
{
    let mut place = firsts.len();
    for _turn in 0..MOST_COMPARED {
        if place == 0 {
            return None;
        }
        place -= 1;
        if is_like(firsts, insert, place) {
            return Some(place);
        }
    }
    None
}

/// One INSERT more, which names what the first one at the place names.
fn push_like(
    firsts: &[InsertStatement],
    places: &mut Items<InsertPlace>,
    insert: &InsertStatement,
    first: usize,
) -> Result<(), Memory>
    requires like { IsLike firsts.now insert.now first }
    requires firsts { AreFirsts firsts.now places.old }
    ensures kept { AreFirsts firsts.now places.new }
    ensures more { OnOk result
        (inserts_in firsts.now places.new ≡ inserts_in firsts.now places.old ++ insert.now ∷ []) }
{
    places.push(InsertPlace {
        first,
        pos: insert.table.pos,
    })?;
    Ok(())
}

/// One INSERT more, as a first one.
fn push_first(
    firsts: &mut Items<InsertStatement>,
    places: &mut Items<InsertPlace>,
    insert: InsertStatement,
) -> Result<(), Memory>
    requires { AreFirsts firsts.old places.old }
    ensures kept { AreFirsts firsts.new places.new }
    ensures more { OnOk result
        (inserts_in firsts.new places.new ≡ inserts_in firsts.old places.old ++ insert ∷ []) }
{
    let place = InsertPlace {
        first: firsts.len(),
        pos: insert.table.pos,
    };
    firsts.push(insert)?;
    let Err(error) = places.push(place) else {
        return Ok(());
    };
    let _gone = firsts.pop();
    Err(error)
}

/// One INSERT more.
fn push_into(
    firsts: &mut Items<InsertStatement>,
    places: &mut Items<InsertPlace>,
    insert: InsertStatement,
) -> Result<(), Memory>
    requires { AreFirsts firsts.old places.old }
    ensures kept { AreFirsts firsts.new places.new }
    ensures more { OnOk result
        (inserts_in firsts.new places.new ≡ inserts_in firsts.old places.old ++ insert ∷ []) }
{
    match place_like(firsts.as_slice(), &insert) {
        Some(first) => push_like(firsts.as_slice(), places, &insert, first),
        None => push_first(firsts, places, insert),
    }
}
