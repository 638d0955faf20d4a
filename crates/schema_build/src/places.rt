//! Where types stand in the schema.

ghost use Rattle.std.specs.Prelude.{◌≡◌, ◌<◌, ◌^◌, length, vec_len, IfOk};
ghost use Rattle.pg_base.specs.Roles.{place_of};
ghost use Rattle.schema_build.specs.Places.{AreFound};

use crate::marks::Marks;
use pg_base::{Memory, Role};
use std::alloc::Global;
use std::collections::HashMap;
use std::marker::Model;

// The types of a schema in their order, by what they are for. The place of each is found by its marks.
#[derive(Drop)]
pub(crate) struct Places {
    roles: Vec<Role>,
    places: HashMap<Marks, u32>,
}

impl Model for Places {
    ghost use Rattle.std.specs.Prelude.{List};
    ghost use Rattle.pg_base.specs.declared.role.Role.{Role as TypeRole};
    ghost use Rattle.schema_build.specs.Places.{AreFound};

    ghost Value = { List TypeRole };

    ghost view = { λ p. p.roles.items };

    ghost invariant = { λ p. AreFound p.roles.items p.places };
}

impl Places {
    pub(crate) fn of(alloc: Global, roles: Vec<Role>) -> Result<Places, Memory>
        requires { vec_len roles < 2 ^ 32 }
        ensures { IfOk result (λ places. places ≡ roles.items) }
    {
        let places = places_of(alloc, roles.as_slice())?;
        Ok(Places { roles, places })
    }

    pub(crate) fn roles(&self) -> &[Role]
        ensures { result.now ≡ self.now }
    {
        self.roles.as_slice()
    }

    // The place of the type, past the last where there is none such.
    pub(crate) fn of_role(&self, role: Role) -> u32
        ensures { result ≡ place_of self.now role }
    {
        match self.places.get(&Marks::of(role)) {
            None => self.roles.len() as u32,
            Some(place) => *place,
        }
    }
}

// The last places first, so that of several the first stays.
fn places_of(alloc: Global, roles: &[Role]) -> Result<HashMap<Marks, u32>, Memory>
    requires { length roles.now < 2 ^ 32 }
    ensures { IfOk result (λ places. AreFound roles.now places) }
{
    let mut places = HashMap::with_capacity(alloc, roles.len())?;
    let mut place = roles.len();
    while place > 0 {
        place -= 1;
        places.insert(Marks::of(roles[place]), place as u32)?;
    }
    Ok(places)
}
