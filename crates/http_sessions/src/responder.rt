//! Who answers the bodies of a session.

ghost use Rattle.std.specs.Prelude.{◌≡◌, ◌≤◌, ℕ, List};
ghost use Rattle.http_sessions.specs.declared.reply.Reply.{Reply};
ghost use Rattle.http_sessions.specs.ReplyText.{IsReplyStatus};

use crate::reply::Reply;

/// Answers bodies, one after the other.
pub trait Responder {
    /// The version of the data that was seen last.
    ghost front: { Self → ℕ };
    /// What a responder may reply to a body, and the responder afterwards.
    ghost responds: { Self → List ℕ → Reply → Self → Type 0 };

    /// Answers one body. The version never falls.
    fn respond(&mut self, body: &[u8]) -> Reply
        ensures step { responds self.old body.now result self.new }
        ensures front { front self.new ≡ result.front }
        ensures rises { front self.old ≤ front self.new }
        ensures status { IsReplyStatus result.status };

    /// The version of the data that was seen last.
    fn front(&self) -> u64
        ensures { result ≡ front self.now };
}
