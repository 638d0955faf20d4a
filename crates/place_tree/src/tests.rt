ghost use Rattle.std.specs.Prelude.{ℕ, pos, Bool, true, false, ◌==◌, ◌∷◌, [], if◌then◌else◌};

use super::*;
use gql_input::{ArgMember, ArgValue};
use pg_base::{Memory, Pos, Text};
use sqlite_items::Items;
use std::alloc::Global;
use std::test::Fail;

/// Shows its state at each place below another one; at the root it gives one state, or for the place at 2 a list of
/// two.
struct Counting {
    one: u32,
}

impl Asker for Counting {
    ghost use Rattle.std.specs.Prelude.{pos, ◌==◌, ◌∷◌, [], if◌then◌else◌, Some, None};
    ghost use Rattle.place_tree.specs.Counting.{counted};

    type State = u32;

    ghost asked = { λ counting number place state. counted counting.one number place.parent state };

    fn ask(
        &self,
        alloc: Global,
        number: u32,
        place: &Place,
        state: &u32,
    ) -> Result<Answer<u32>, Memory> {
        match place.parent {
            Some(_) => Ok(Answer::Shows(Leaf::Int(i64::from(*state)))),
            None => {
                if number == 2 {
                    let mut states = Items::new(alloc);
                    states.push(1)?;
                    states.push(2)?;
                    Ok(Answer::Many(states))
                } else {
                    Ok(Answer::One(self.one))
                }
            }
        }
    }
}

impl Coster for Counting {
    ghost costs = { λ counting number place answer. 1 };

    fn cost(&self, _number: u32, _place: &Place, _answer: &Answer<u32>) -> u64 {
        1
    }
}

fn place(alloc: Global, parent: Option<u32>, key: &str) -> Result<Place, Memory> {
    Ok(Place {
        parent,
        key: Text::of(alloc, key)?,
        ty: 0,
        field: 0,
        args: Items::new(alloc),
        pos: Pos { line: 1, column: 1 },
    })
}

fn places(alloc: Global) -> Result<Items<Place>, Memory> {
    let mut places = Items::new(alloc);
    places.push(place(alloc, None, "a")?)?;
    places.push(place(alloc, Some(0), "b")?)?;
    places.push(place(alloc, None, "c")?)?;
    places.push(place(alloc, Some(2), "d")?)?;
    Ok(places)
}

/// The text that the places of four keys give, which cost five.
const WRITTEN: &[u8] = br#""a":{"b":7},"c":[{"d":1},{"d":2}]"#;

#[test]
fn members_are_written_in_the_order_of_the_places(rt: HostRuntime) -> Result<(), Fail> {
    let places = places(rt.alloc())?;
    let mut events = Vec::new(rt.alloc());
    let few = places.as_slice();
    if few.len() < 100 {
        put_members(
            rt.alloc(),
            &Counting { one: 7 },
            few,
            0,
            None,
            &0,
            &mut events,
        )?;
    }
    let mut text = Vec::new(rt.alloc());
    put_events(&mut text, events.as_slice())?;
    assert_eq!(rt; text.as_slice(), WRITTEN);
    Ok(())
}

#[test]
fn places_are_visited_while_enough_is_left(rt: HostRuntime) -> Result<(), Fail> {
    let places = places(rt.alloc())?;
    let few = places.as_slice();
    for enough in [5, 4] {
        let mut left = enough;
        let mut events = Vec::new(rt.alloc());
        if few.len() < 100 {
            let visited = visit_members(
                rt.alloc(),
                &Counting { one: 7 },
                few,
                0,
                None,
                &0,
                &mut left,
                &mut events,
            );
            assert_eq!(rt; visited.is_ok(), enough == 5);
        }
        if enough == 5 {
            let mut text = Vec::new(rt.alloc());
            put_events(&mut text, events.as_slice())?;
            assert_eq!(rt; text.as_slice(), WRITTEN);
        }
    }
    Ok(())
}

#[test]
fn lists_and_objects_are_alike_item_by_item(rt: HostRuntime) -> Result<(), Fail> {
    let mut values = Vec::new(rt.alloc());
    for number in [1, 1, 2] {
        let mut items = Items::new(rt.alloc());
        items.push(ArgValue::Int(number))?;
        let mut members = Items::new(rt.alloc());
        members.push(ArgMember {
            name: Text::of(rt.alloc(), "a")?,
            value: ArgValue::List(items),
        })?;
        values.push(ArgValue::Object(members))?;
    }
    let like = values.as_slice().first().ok_or("no value")?;
    for (i, value) in values.as_slice().iter().enumerate() {
        assert_eq!(rt; is_alike(like, value), i < 2);
    }
    Ok(())
}
