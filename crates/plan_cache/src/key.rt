//! What a plan is kept under.

ghost use Rattle.std.specs.Prelude.{◌≡◌, ◌↔◌, IsTrue, option_map};
ghost use Rattle.plan_cache.specs.Shelf as spec;

use pg_base::{Blob, Text, Vars};
use plan_constraints::{Constraint, holds};
use sqlite_items::Items;

/// What a plan is kept under: the text of its document, the name of its operation as it was given, and the constraints
/// on the variables with which it may serve.
#[derive(Drop)]
pub struct ShelfKey {
    pub text: Blob,
    pub operation: Option<Text>,
    pub constraints: Items<Constraint>,
}

fn is_named(kept: &Option<Text>, asked: Option<&Text>) -> bool
    ensures { IsTrue result ↔ (kept.now ≡ option_map (λ name. name.now) asked.entry) }
{
    match kept {
        None => asked.is_none(),
        Some(name) => match asked {
            None => false,
            Some(wanted) => *name == *wanted,
        },
    }
}

impl ShelfKey {
    /// Whether a look for these finds it. Texts of other lengths are told apart by these.
    pub(crate) fn answers(&self, text: &[u8], operation: Option<&Text>, vars: &Vars) -> bool
        ensures { IsTrue result ↔ spec.Answers
            (spec.asked_for text.now (option_map (λ name. name.now) operation.entry) vars.now)
            (spec.key_of self.now.text self.now.operation self.now.constraints) }
    {
        if self.text.bytes() != text {
            return false;
        }
        is_named(&self.operation, operation) && holds(self.constraints.as_slice(), vars)
    }
}
