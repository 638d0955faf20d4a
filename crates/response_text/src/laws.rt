//! Laws of responses. The bodies are empty; the contracts are the laws.

ghost use Rattle.std.specs.Prelude.{◌≡◌};
ghost use Rattle.place_tree.specs.Response.{Members, response_text};
ghost use Rattle.place_tree.specs.Events.{member_events};
ghost use Rattle.response_text.specs.Responses.{events_response};

/// The text of the events of a response's data is the response.
#[tactic(auto, using(crate::proofs::Whole::response_same))]
pub fn events_give_the_response()
    ensures { (data_ : Members) → events_response (member_events data_) ≡ response_text data_ }
{}
