//! Why a catalog has no schema.

use crate::Text;

/// Where a name stands in the schema of a catalog.
#[derive(Clone, Copy, Debug, PartialEq, Eq)]
pub enum Origin {
    /// Int, String or Boolean, which stand in no list.
    BuiltIn,
    /// The type at a place.
    Type(u32),
    /// A field, an input field or a case: the place of its type, and its own place there.
    Field(u32, u32),
    /// An argument: the places of its type and its field, and its own place there.
    Argument(u32, u32, u32),
}

/// Why a catalog has no schema.
#[derive(Debug, Drop)]
pub enum BuildFault {
    /// Two names meet. The owner is the type that has both, and none where they are the names of types.
    NamesMeet {
        owner: Option<Text>,
        name: Text,
        earlier: Origin,
        later: Origin,
    },
    /// What would be a name of the schema is none of GraphQL, or begins with `__`.
    NotAName(Text),
    /// The object types have more fields than the limit.
    TooManyFields,
    /// The type has no field, input field or case.
    NoFields(Text),
    Memory,
}
