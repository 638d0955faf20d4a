//! Texts that take little room where they are short.

ghost use Rattle.std.specs.Prelude.{◌≡◌, ◌≤◌, length, IfOk};
ghost use Rattle.std.specs.Str.{IsUtf8};

use pg_base::{Memory, Text};
use sqlite_items::Boxed;
use std::alloc::Global;
use std::marker::Model;

/// The most bytes that are kept in place.
const MOST_SHORT: usize = 14;

/// A few bytes, kept in place.
#[derive(Drop)]
pub(crate) struct ShortBytes {
    count: u8,
    bytes: [u8; 14],
}

impl Model for ShortBytes {
    ghost use Rattle.std.specs.Prelude.{ℕ, List, ◌≤◌, take};

    ghost Value = { List ℕ };

    ghost view = { λ short. take short.count short.bytes };

    ghost invariant = { λ short. short.count ≤ 14 };
}

impl ShortBytes {
    fn of(bytes: &[u8]) -> ShortBytes
        requires { length bytes.now ≤ 14 }
        ensures { result ≡ bytes.now }
    {
        let mut kept = [0u8; 14];
        kept[..bytes.len()].copy_from_slice(bytes);
        ShortBytes {
            count: bytes.len() as u8,
            bytes: kept,
        }
    }

    fn as_slice(&self) -> &[u8]
        ensures { result.now ≡ self.now }
    {
        &self.bytes[..self.count as usize]
    }
}

/// The bytes of a text, in place where they are few.
#[derive(Drop)]
pub(crate) enum KeptText {
    Short(ShortBytes),
    Long(Boxed<Text>),
}

/// A text, which contracts see as the list of its bytes. The rows of a script have many short ones, and these take no
/// memory of their own.
#[derive(Drop)]
pub struct CompactText {
    kept: KeptText,
}

impl Model for CompactText {
    ghost use Rattle.std.specs.Prelude.{ℕ, List};
    ghost use Rattle.std.specs.Str.{IsUtf8};
    ghost use Rattle.ddl_reader.specs.Compact.{kept_bytes};

    ghost Value = { List ℕ };

    ghost view = { λ text. kept_bytes text.kept };

    ghost invariant = { λ text. IsUtf8 (kept_bytes text.kept) };
}

impl CompactText {
    /// The same text, in little room.
    pub(crate) fn of(alloc: Global, text: Text) -> Result<CompactText, Memory>
        ensures { IfOk result (λ compact. compact ≡ text) }
    {
        if text.bytes().len() <= MOST_SHORT {
            return Ok(CompactText {
                kept: KeptText::Short(ShortBytes::of(text.bytes())),
            });
        }
        let long = Boxed::new(alloc, text)?;
        Ok(CompactText {
            kept: KeptText::Long(long),
        })
    }

    pub fn bytes(&self) -> &[u8]
        ensures value { result.now ≡ self.now }
        ensures utf8 { IsUtf8 self.now }
    {
        match &self.kept {
            KeptText::Short(short) => short.as_slice(),
            KeptText::Long(long) => long.get().bytes(),
        }
    }

    /// The text with its bytes in an allocation.
    pub fn to_text(&self, alloc: Global) -> Result<Text, Memory>
        ensures { IfOk result (λ text. text ≡ self.now) }
    {
        let bytes = Vec::from_slice(alloc, self.bytes())?;
        Ok(Text::of_bytes(bytes))
    }
}
