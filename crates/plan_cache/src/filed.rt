//! What is kept.

ghost use Rattle.std.specs.Prelude.{ℕ, List, Option};
ghost use Rattle.pg_base.specs.Base.{BaseParts};
ghost use Rattle.plan_constraints.specs.declared.constraint.Constraint.{Constraint};

/// A plan that may be kept: it has a base, and what it is kept under. There is nothing to call.
pub trait Filed {
    /// The base whose schema it serves.
    ghost base: { Self → BaseParts };
    /// The text of the document that it was made for.
    ghost text: { Self → List ℕ };
    /// The name of the operation as it was given, if one was.
    ghost operation: { Self → Option (List ℕ) };
    /// The constraints on the variables with which it may serve.
    ghost constraints: { Self → List Constraint };
}
