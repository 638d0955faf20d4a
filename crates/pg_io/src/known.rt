//! What the adapters know of the things that they wrap.

ghost use Rattle.std.specs.Prelude.{ℕ, List, Option};

/// The bytes of the reader or writer that an adapter wraps, where it knows them: those that the reader has left, those
/// that the writer holds. A real one knows nothing.
pub trait Known {
    ghost known: { Self → Option (List ℕ) };
}

/// The bytes of the files of an opener, by their names, where it knows them. The system knows nothing.
pub trait KnownFiles {
    ghost known: { Self → List ℕ → Option (List ℕ) };
}
