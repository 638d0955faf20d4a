//! Paths into the variables of a request.

ghost use Rattle.std.specs.Prelude.{◌≡◌, IfOk};
ghost use Rattle.plan_constraints.specs.Same as same;

use pg_base::{Memory, Text};
use std::alloc::Global;

/// A part of a path: the field of an object by its name, or the item of a list by its place. The first part of a path
/// is the name of a variable.
#[derive(Drop)]
pub enum Part {
    Name(Text),
    Index(u32),
}

impl Part {
    pub fn copy(&self, alloc: Global) -> Result<Part, Memory>
        ensures { IfOk result (λ copy. copy ≡ self.now) }
    {
        match self {
            Part::Name(name) => Ok(Part::Name(name.copy(alloc)?)),
            Part::Index(place) => Ok(Part::Index(*place)),
        }
    }

    /// Whether both are the same part.
    pub fn is_same(&self, other: &Part) -> bool
        ensures { result ≡ same.same_part self.now other.now }
    {
        match self {
            Part::Name(name) => match other {
                Part::Name(of_other) => *name == *of_other,
                Part::Index(_) => false,
            },
            Part::Index(place) => match other {
                Part::Name(_) => false,
                Part::Index(of_other) => *place == *of_other,
            },
        }
    }
}
