//! What the words of a command ask for.

/// What a request names: the files of the script and of the document, and where they are given the operation and the
/// file of the variables.
#[derive(Clone, Copy)]
pub struct Request<'a> {
    pub script: &'a str,
    pub document: &'a str,
    pub operation: Option<&'a str>,
    pub variables: Option<&'a str>,
}

/// A command, with the names of its files.
#[derive(Clone, Copy)]
pub enum Command<'a> {
    /// `check SCRIPT`
    Check(&'a str),
    /// `schema SCRIPT`
    Schema(&'a str),
    /// `query SCRIPT DOC [--operation NAME] [--variables FILE]`
    Query(Request<'a>),
    /// `explain SCRIPT DOC [--operation NAME] [--variables FILE]`
    Explain(Request<'a>),
}
