//! A body that is a list with a limit, and its two jobs.
use turn_cell::{Job, TurnBody};

/// A list of at most `limit` numbers.
#[derive(Drop)]
pub struct Numbers {
    pub items: Vec<u64>,
    pub limit: usize,
}

impl TurnBody for Numbers {
    ghost use Rattle.std.specs.Prelude.{◌≡◌};
    ghost use Rattle.server_tests.specs.Lists.{last_same};

    type Entry = u64;

    type Fixed = usize;

    ghost fixed = { λ b. b.limit };

    ghost stands = { λ b l. b.items.items ≡ l };

    ghost last = { λ b l x y p q. last_same b.items.items l x y p q };
}

/// There is no room.
#[derive(Drop)]
pub struct Full;

/// Appends a number where there is room, and answers its place.
#[derive(Drop)]
pub struct Append {
    pub value: u64,
}

impl Job<Numbers> for Append {
    ghost use Rattle.std.specs.Prelude.{is_ok};
    ghost use Rattle.server_tests.specs.Lists.{appends};

    type Out = Result<usize, Full>;

    ghost needs = { λ job f. Unit {0} };

    ghost adds = { λ out. is_ok out };

    ghost does = { λ job f before out after. appends job.value f before out after };

    fn run(self, body: &mut Numbers) -> Result<usize, Full> {
        let place = body.items.len();
        if place >= body.limit || body.items.push(self.value).is_err() {
            return Err(Full);
        }
        Ok(place)
    }

    fn added(out: &Result<usize, Full>) -> bool {
        out.is_ok()
    }
}

/// Tells the length, and adds nothing.
#[derive(Drop)]
pub struct Look;

impl Job<Numbers> for Look {
    ghost use Rattle.std.specs.Prelude.{◌≡◌, length, false};

    type Out = usize;

    ghost needs = { λ job f. Unit {0} };

    ghost adds = { λ out. false };

    ghost does = { λ job f before out after. (out ≡ length before) × (after ≡ before) };

    fn run(self, body: &mut Numbers) -> usize {
        body.items.len()
    }

    fn added(_out: &usize) -> bool {
        false
    }
}
