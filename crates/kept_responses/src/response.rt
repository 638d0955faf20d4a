//! What a request is answered by.

use pg_base::Blob;
use planned_response::RespondFault;

/// The response to a query, or why there is none, and whether a plan was made for it.
#[derive(Drop)]
pub struct KeptResponse {
    /// The text of the response.
    pub answer: Result<Blob, RespondFault>,
    /// Whether a plan was made, and none found.
    pub planned: bool,
}
