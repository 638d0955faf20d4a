//! Texts as `str`.

ghost use Rattle.std.specs.Prelude.{◌≡◌};

use pg_base::Text;
use std::str::from_utf8;

pub(crate) fn as_str(text: &Text) -> &str
    ensures { result.now ≡ text.now }
{
    match from_utf8(text.bytes()) {
        Ok(text) => text,
        Err(_) => unreachable!(),
    }
}
