//! A body that keeps no list: the sum of what was added, and how many numbers that were.
use turn_cell::{Job, TurnBody};

/// It stands for each list with this sum and this length.
#[derive(Drop)]
pub struct Tally {
    pub total: u64,
    pub count: u64,
}

impl TurnBody for Tally {
    ghost use Rattle.std.specs.Prelude.{◌≡◌, length};
    ghost use Rattle.std.specs.List.{sum};
    ghost use Rattle.server_tests.specs.Lists.{last_added};

    type Entry = u64;

    type Fixed = ();

    ghost fixed = { λ b. tt };

    ghost stands = { λ b l. (b.total ≡ sum l) × (b.count ≡ length l) };

    ghost last = { λ b l x y p q. last_added b.total l x y p.0 q.0 };
}

/// The sum would pass 2^64 - 1.
#[derive(Drop)]
pub struct TooLarge;

/// Adds a number, and answers the sum.
#[derive(Drop)]
pub struct Add {
    pub amount: u64,
}

impl Job<Tally> for Add {
    ghost use Rattle.std.specs.Prelude.{is_ok};
    ghost use Rattle.server_tests.specs.Lists.{adds_up};

    type Out = Result<u64, TooLarge>;

    ghost needs = { λ job f. Unit {0} };

    ghost adds = { λ out. is_ok out };

    ghost does = { λ job f before out after. adds_up job.amount before out after };

    fn run(self, body: &mut Tally) -> Result<u64, TooLarge> {
        if body.count == u64::MAX || u64::MAX - body.total < self.amount {
            return Err(TooLarge);
        }
        body.total += self.amount;
        body.count += 1;
        Ok(body.total)
    }

    fn added(out: &Result<u64, TooLarge>) -> bool {
        out.is_ok()
    }
}
