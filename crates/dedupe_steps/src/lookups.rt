//! What stands in lists, with a value for places where nothing does.

ghost use Rattle.std.specs.Prelude.{◌≡◌, None, slice_get, unwrap_or};
ghost use Rattle.dedupe_steps.specs.Numbered as numbered;

/// The number at a place, and 0 past the end.
pub(crate) fn number_at(numbers: &[u32], place: usize) -> u32
    ensures { result ≡ numbered.at numbers.now place }
{
    match numbers.get(place) {
        Some(number) => *number,
        None => 0,
    }
}

/// What is told at a place, and nothing past the end.
pub(crate) fn told_at(told: &[Option<u32>], place: usize) -> Option<u32>
    ensures { result ≡ unwrap_or (slice_get told.now place) None }
{
    match told.get(place) {
        Some(number) => *number,
        None => None,
    }
}
