//! What tells the types of a schema apart.

ghost use Rattle.std.specs.Prelude.{◌≡◌};
ghost use Rattle.schema_build.specs.Places.{marks_of};

use pg_base::Role;

// A number for what a type is for, and the places of its table or enum and of its key.
#[derive(Clone, Copy, PartialEq, Eq, Hash)]
pub(crate) struct Marks {
    purpose: u32,
    table: u32,
    key: u32,
}

impl Marks {
    fn new(purpose: u32, table: u32, key: u32) -> Marks
        ensures { result ≡ record { purpose = purpose; table = table; key = key } }
    {
        Marks {
            purpose,
            table,
            key,
        }
    }

    pub(crate) fn of(role: Role) -> Marks
        ensures { result ≡ marks_of role }
    {
        match role {
            Role::BigInt => Marks::new(0, 0, 0),
            Role::Cursor => Marks::new(1, 0, 0),
            Role::PageInfo => Marks::new(2, 0, 0),
            Role::Query => Marks::new(3, 0, 0),
            Role::Mutation => Marks::new(4, 0, 0),
            Role::Enum(place) => Marks::new(5, place, 0),
            Role::Row(table) => Marks::new(6, table, 0),
            Role::Connection(table) => Marks::new(7, table, 0),
            Role::Edge(table) => Marks::new(8, table, 0),
            Role::Order(table) => Marks::new(9, table, 0),
            Role::Condition(table) => Marks::new(10, table, 0),
            Role::Input(table) => Marks::new(11, table, 0),
            Role::Patch(table) => Marks::new(12, table, 0),
            Role::CreateInput(table) => Marks::new(13, table, 0),
            Role::CreatePayload(table) => Marks::new(14, table, 0),
            Role::UpdatePayload(table) => Marks::new(15, table, 0),
            Role::DeletePayload(table) => Marks::new(16, table, 0),
            Role::UpdateInput(table, key) => Marks::new(17, table, key),
            Role::DeleteInput(table, key) => Marks::new(18, table, key),
        }
    }
}
