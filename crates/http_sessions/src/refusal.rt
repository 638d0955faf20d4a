//! What a head is refused for.

ghost use Rattle.std.specs.Prelude.{◌≡◌};
ghost use Rattle.http_sessions.specs.ReplyText as spec;

/// The first test that a head fails (RFC 9110, section 15.5 and 15.6).
#[derive(Clone, Copy, Debug)]
pub enum Refusal {
    HeadTooLarge,
    BadHead,
    NotFound,
    MethodNotAllowed,
    NotImplemented,
    LengthRequired,
    BadLength,
    BodyTooLarge,
}

impl Refusal {
    /// The status of the reply.
    pub fn status(self) -> u16
        ensures { result ≡ spec.status_of self }
    {
        match self {
            Refusal::HeadTooLarge => 431,
            Refusal::BadHead => 400,
            Refusal::NotFound => 404,
            Refusal::MethodNotAllowed => 405,
            Refusal::NotImplemented => 501,
            Refusal::LengthRequired => 411,
            Refusal::BadLength => 400,
            Refusal::BodyTooLarge => 413,
        }
    }

    /// The body of the reply.
    pub fn body(self) -> &'static [u8]
        ensures { result.now ≡ spec.refusal_body self }
    {
        match self {
            Refusal::HeadTooLarge => b"{\"errors\":[{\"message\":\"head too large\"}]}",
            Refusal::BadHead => b"{\"errors\":[{\"message\":\"bad head\"}]}",
            Refusal::NotFound => b"{\"errors\":[{\"message\":\"not found\"}]}",
            Refusal::MethodNotAllowed => b"{\"errors\":[{\"message\":\"method not allowed\"}]}",
            Refusal::NotImplemented => b"{\"errors\":[{\"message\":\"not implemented\"}]}",
            Refusal::LengthRequired => b"{\"errors\":[{\"message\":\"length required\"}]}",
            Refusal::BadLength => b"{\"errors\":[{\"message\":\"bad length\"}]}",
            Refusal::BodyTooLarge => b"{\"errors\":[{\"message\":\"body too large\"}]}",
        }
    }
}
