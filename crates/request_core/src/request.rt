//! What is asked of a script's rows.

/// A request: a document, and beside it what its sender names.
#[derive(Clone, Copy)]
pub struct Request<'a> {
    /// The bytes of the document.
    pub document: &'a [u8],
    /// The name of the operation, where one is named.
    pub operation: Option<&'a str>,
    /// The bytes that spell the variables, where some are given.
    pub variables: Option<&'a [u8]>,
}
