//! Documents of a shape.

use pg_base::Memory;
use std::alloc::Global;

/// What the documents ask for.
#[derive(Clone, Copy)]
pub enum Shape {
    /// One field at the root.
    One,
    /// Forty places, which take one statement.
    Forty,
    /// Two thousand places, with 500 equal fetches at the root.
    Equal,
    /// As many places, with 500 different fetches.
    Different,
}

impl Shape {
    /// The shape of a name; any other is `One`.
    pub fn named(name: &str) -> Shape {
        match name {
            "forty" => Shape::Forty,
            "equal" => Shape::Equal,
            "different" => Shape::Different,
            _ => Shape::One,
        }
    }

    /// How many fields at the root there are.
    fn fields(self) -> u32 {
        match self {
            Shape::One => 1,
            Shape::Forty => 5,
            Shape::Equal | Shape::Different => 500,
        }
    }

    /// The field at the root of a number.
    fn field(self, alloc: Global, number: u32) -> Result<String, Memory> {
        match self {
            Shape::One => format!(in alloc; " allUsers {{ totalCount }}"),
            Shape::Forty => format!(in alloc;
                " f{number}: allUsers {{ nodes {{ name id postsByAuthorId {{ nodes {{ title id }} }} }} }}"
            ),
            Shape::Equal => format!(in alloc; " f{number}: allUsers {{ nodes {{ name id }} }}"),
            Shape::Different => format!(in alloc;
                " f{number}: allUsers(first: {number}) {{ nodes {{ name id }} }}"
            ),
        }
    }
}

/// A document of a shape, with a number in the name of its operation.
fn document_of(alloc: Global, shape: Shape, number: u32) -> Result<String, Memory> {
    let mut document = format!(in alloc; "query Q{number} {{")?;
    for field in 0..shape.fields() {
        let field = shape.field(alloc, field)?;
        document.push_str(field.as_str())?;
    }
    document.push_str(" }")?;
    Ok(document)
}

/// So many documents of a shape, which differ in the names of their operations.
pub fn documents_of(alloc: Global, shape: Shape, count: u32) -> Result<Vec<String>, Memory> {
    let mut documents = Vec::new(alloc);
    for number in 0..count {
        let document = document_of(alloc, shape, number)?;
        documents.push(document)?;
    }
    Ok(documents)
}
