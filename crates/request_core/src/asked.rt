//! What is asked of a house.

use pg_base::{Blob, Text};
use serde_json::Value as Json;

/// What is asked of a house: the text of a document, and what its sender gives beside it.
#[derive(Drop)]
pub struct Asked {
    /// The bytes of the document.
    pub query: Blob,
    /// The name of the operation, where one is named.
    pub operation: Option<Text>,
    /// The values of the variables: an object, or null, which has no members.
    pub variables: Json,
}
