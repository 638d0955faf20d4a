//! What lies in a cell, and what is done with it.
ghost use Rattle.std.specs.Prelude.{◌≡◌, ◌++◌, ◌∷◌, [], List, Bool, MatchBool};

/// What lies in a cell. It keeps its entries as it likes, and the cell keeps who made them.
pub trait TurnBody {
    type Entry;

    type Fixed;

    /// What no job changes.
    ghost fixed: { Self → Self.Fixed };

    /// The body stands for this list of entries.
    ghost stands: { Self → List Self.Entry → Type 0 };

    /// A body tells the last entry: of the lists that go on from l by one entry, it stands for one at most.
    ghost last: { (b : Self) (l : List Self.Entry) (x y : Self.Entry)
        → stands b (l ++ x ∷ []) → stands b (l ++ y ∷ []) → x ≡ y };
}

/// What is done in one turn. It adds one entry at most.
/// A job takes what it changes by value and gives it back in its answer: `does` sees the job as it was given.
pub trait Job<B: TurnBody> {
    type Out;

    /// The condition, over the job and what is fixed.
    ghost needs: { Self → B.Fixed → Type 0 };

    /// Whether the answer tells that an entry was added.
    ghost adds: { Self.Out → Bool };

    /// Of the job as given, what is fixed, the list before, the answer and the list after.
    ghost does: { Self → B.Fixed → List B.Entry → Self.Out → List B.Entry → Type 0 };

    /// Does it: whatever list the body stood for, it stands for the list after, and `does` holds of both.
    fn run(self, body: &mut B) -> Self::Out
        requires stands { (l : List B.Entry) × B.stands body.old l }
        requires needs { needs self (B.fixed body.old) }
        ensures fixed { B.fixed body.new ≡ B.fixed body.old }
        ensures event { (l : List B.Entry) → B.stands body.old l → MatchBool (adds result)
            ((e : B.Entry) × B.stands body.new (l ++ e ∷ [])
            × does self (B.fixed body.old) l result (l ++ e ∷ []))
            (B.stands body.new l × does self (B.fixed body.old) l result l) };

    /// Whether an entry was added.
    fn added(out: &Self::Out) -> bool
        ensures { result ≡ adds out.now };
}
