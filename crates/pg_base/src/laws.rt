//! Laws of the definitions: functions that do nothing, each with a law as its contract.

ghost use Rattle.std.specs.Prelude.{◌≡◌, [], ◌∷◌, codes};
ghost use Rattle.pg_base.specs.Limits as spec;
ghost use Rattle.pg_base.specs.Pos.{at, position_after};

use crate::limits;

/// The limits of the code, in the order of their definitions, are the numbers there.
pub fn limits_are_defined() -> [usize; 24]
    ensures { result ≡ spec.limits }
{
    [
        limits::MOST_SCRIPT_BYTES,
        limits::MOST_DOCUMENT_BYTES,
        limits::MOST_VARIABLES_BYTES,
        limits::MOST_TABLES,
        limits::MOST_ENUMS,
        limits::MOST_COLUMNS,
        limits::MOST_CASES,
        limits::MOST_CONSTRAINTS,
        limits::MOST_KEY_COLUMNS,
        limits::MOST_NAME_BYTES,
        limits::MOST_ROWS,
        limits::MOST_TEXT_BYTES,
        limits::MOST_FIELDS,
        limits::MOST_TOKENS,
        limits::MOST_OPEN_BRACKETS,
        limits::MOST_PLACES,
        limits::MOST_VISITED_ROWS,
        limits::MOST_RESPONSE_BYTES,
        limits::MOST_HEAD_BYTES,
        limits::MOST_HEAD_LINES,
        limits::MOST_BODY_BYTES,
        limits::MOST_REPLIES,
        limits::MOST_ENTRIES,
        limits::MOST_PLANS,
    ]
}

/// Positions of what stands after texts: each line's end counts once, each character once.
#[tactic(auto, unfolding(crate::specs::Pos::counter_after))]
pub fn positions_of_texts()
    ensures empty { position_after [] ≡ at 1 1 }
    ensures after_the_last_byte { position_after (codes "abc") ≡ at 1 4 }
    ensures lf { position_after (97 ∷ 10 ∷ []) ≡ at 2 1 }
    ensures after_lf { position_after (97 ∷ 10 ∷ 98 ∷ 99 ∷ []) ≡ at 2 3 }
    ensures two_lf { position_after (10 ∷ 10 ∷ 98 ∷ []) ≡ at 3 2 }
    ensures cr { position_after (97 ∷ 13 ∷ []) ≡ at 2 1 }
    ensures after_cr { position_after (97 ∷ 13 ∷ 98 ∷ []) ≡ at 2 2 }
    ensures cr_lf { position_after (97 ∷ 13 ∷ 10 ∷ []) ≡ at 2 1 }
    ensures after_cr_lf { position_after (97 ∷ 13 ∷ 10 ∷ 98 ∷ []) ≡ at 2 2 }
    ensures cr_cr_lf { position_after (97 ∷ 13 ∷ 13 ∷ 10 ∷ 98 ∷ []) ≡ at 3 2 }
    ensures cr_lf_lf { position_after (97 ∷ 13 ∷ 10 ∷ 10 ∷ []) ≡ at 3 1 }
    ensures lf_cr { position_after (97 ∷ 10 ∷ 13 ∷ 98 ∷ []) ≡ at 3 2 }
    ensures cr_apart_from_lf { position_after (13 ∷ 97 ∷ 10 ∷ []) ≡ at 3 1 }
    ensures control { position_after (97 ∷ 9 ∷ 12 ∷ 0 ∷ []) ≡ at 1 5 }
    ensures two_bytes { position_after (0xc3 ∷ 0xa9 ∷ 98 ∷ []) ≡ at 1 3 }
    ensures three_bytes { position_after (0xe2 ∷ 0x82 ∷ 0xac ∷ 98 ∷ []) ≡ at 1 3 }
    ensures four_bytes { position_after (0xf0 ∷ 0x9f ∷ 0x98 ∷ 0x80 ∷ 98 ∷ []) ≡ at 1 3 }
    ensures character_after_cr { position_after (13 ∷ 0xc3 ∷ 0xa9 ∷ 10 ∷ 98 ∷ []) ≡ at 3 2 }
{}
