//! What a plan is looked for with.

use pg_base::{Text, Vars};

/// What a plan is looked for with, of the request that it is to answer.
#[derive(Clone, Copy, Drop)]
pub struct Wanted<'a> {
    /// The text of the document.
    pub text: &'a [u8],
    /// The name of the operation, where one was given.
    pub operation: Option<&'a Text>,
    /// The values of the operation's variables.
    pub vars: &'a Vars,
}
