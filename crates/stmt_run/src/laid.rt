//! Lists of rows that were laid out.

ghost use Rattle.std.specs.Prelude.{◌≡◌, ◌++◌, ◌==◌, ◌&&◌, ℕ, IfOk, OnOk, IfSome, Some, [], ◌∷◌, slice_get};

use pg_base::Memory;
use std::alloc::Global;
use std::marker::Model;

/// The numbers of a key's list, and the number of its rows that are asked for.
#[derive(Clone, Copy, Drop)]
pub(crate) struct Shape {
    pub total: u64,
    pub from: u64,
    pub to: u64,
    pub count: usize,
}

/// What was laid out of grouped rows from one place up to another: the numbers of their list, and from which place on the
/// rows that are asked for stand among all.
#[derive(Clone, Copy, Drop)]
pub(crate) struct Laid {
    pub from: usize,
    pub to: usize,
    pub shape: Shape,
    pub begin: usize,
}

/// What was laid out so far, found by the place at which it begins. Contracts see it as a list.
#[derive(Drop)]
pub(crate) struct LaidGroups {
    groups: Vec<Laid>,
    numbers: Vec<usize>,
}

impl Model for LaidGroups {
    ghost use Rattle.std.specs.Prelude.{List};
    ghost use Rattle.stmt_run.specs.declared.laid.Laid.{Laid as LaidParts};

    ghost Value = { List LaidParts };

    ghost view = { λ known. known.groups.items };
}

/// Whether these are the rows from one place up to another.
fn is_between(laid: &Laid, from: usize, to: usize) -> bool
    ensures { result ≡ ((laid.now.from == from) && (laid.now.to == to)) }
{
    laid.from == from && laid.to == to
}

impl LaidGroups {
    /// Nothing yet of this number of grouped rows.
    pub fn new(alloc: Global, rows: usize) -> Result<LaidGroups, Memory>
        ensures { IfOk result (λ known. known ≡ []) }
    {
        let numbers = vec![in alloc; 0usize; rows]?;
        Ok(LaidGroups {
            groups: Vec::new(alloc),
            numbers,
        })
    }

    /// What was laid out from one place up to another, where it is known.
    pub fn find(&self, from: usize, to: usize) -> Option<Laid>
        ensures from { IfSome result (λ l. l.from ≡ from) }
        ensures to { IfSome result (λ l. l.to ≡ to) }
        ensures known { IfSome result (λ l. (n : ℕ) × (slice_get self.now n ≡ Some l)) }
    {
        let number = *self.numbers.get(from)?;
        let laid = *self.groups.get(number)?;
        if is_between(&laid, from, to) {
            return Some(laid);
        }
        None
    }

    pub fn keep(&mut self, laid: Laid) -> Result<(), Memory>
        ensures { OnOk result (self.new ≡ self.old ++ laid ∷ []) }
    {
        let number = self.groups.len();
        self.groups.push(laid)?;
        if laid.from < laid.to {
            if laid.from < self.numbers.len() {
                self.numbers[laid.from] = number;
            }
        }
        Ok(())
    }
}
