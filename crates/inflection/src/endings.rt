//! The endings of words in lower case.

ghost use Rattle.std.specs.Prelude.{◌≡◌, ◌++◌, ◌&&◌, nat_lt, map, option_map};
ghost use Rattle.std.specs.List.{list_any};
ghost use Rattle.std.specs.Str.{bytes_eq};
ghost use Rattle.name_rules.specs.Inflection.{ends_in, char_count, is_consonant, ends_in_consonant_y, regular_singular, regular_plural};
ghost use Rattle.inflection.specs.Number.{ending_of, regular_of, irregular_of, old_end, new_end};
ghost use Rattle.inflection.specs.Views.{irregular_view, ending_view};

use crate::number::Number;

/// How many bytes go at the end of a word, and what comes in their place.
#[derive(Clone, Copy)]
pub(crate) struct Ending {
    pub(crate) cut: usize,
    pub(crate) added: &'static [u8],
}

/// A word's front that singular and plural share, and what follows it in each.
struct Irregular {
    front: &'static [u8],
    one: &'static [u8],
    many: &'static [u8],
}

const UNCOUNTED: [&[u8]; 5] = [b"equipment", b"information", b"series", b"species", b"news"];

const IRREGULAR: [Irregular; 10] = [
    Irregular {
        front: b"pe",
        one: b"rson",
        many: b"ople",
    },
    Irregular {
        front: b"child",
        one: b"",
        many: b"ren",
    },
    Irregular {
        front: b"m",
        one: b"an",
        many: b"en",
    },
    Irregular {
        front: b"wom",
        one: b"an",
        many: b"en",
    },
    Irregular {
        front: b"movie",
        one: b"",
        many: b"s",
    },
    Irregular {
        front: b"cookie",
        one: b"",
        many: b"s",
    },
    Irregular {
        front: b"cache",
        one: b"",
        many: b"s",
    },
    Irregular {
        front: b"status",
        one: b"",
        many: b"es",
    },
    Irregular {
        front: b"bus",
        one: b"",
        many: b"es",
    },
    Irregular {
        front: b"alias",
        one: b"",
        many: b"es",
    },
];

const SAME: Ending = Ending { cut: 0, added: b"" };

impl Irregular {
    fn old_end(&self, number: Number) -> &'static [u8]
        ensures { result.now ≡ old_end number (irregular_view self.now) }
    {
        match number {
            Number::Singular => self.many,
            Number::Plural => self.one,
        }
    }

    fn new_end(&self, number: Number) -> &'static [u8]
        ensures { result.now ≡ new_end number (irregular_view self.now) }
    {
        match number {
            Number::Singular => self.one,
            Number::Plural => self.many,
        }
    }
}

pub(crate) fn ending_of(word: &[u8], number: Number) -> Ending
    ensures { ending_view result ≡ ending_of number word.now }
{
    if is_one_of(word, &UNCOUNTED) {
        return SAME;
    }
    match irregular_ending(&IRREGULAR, word, number) {
        Some(ending) => ending,
        None => regular_ending(word, number),
    }
}

fn is_one_of(word: &[u8], words: &[&[u8]]) -> bool
    ensures { result ≡ list_any (λ other. bytes_eq word.now other.now) words.now }
{
    words.iter().any(|other| word == *other)
}

fn irregular_ending(words: &[Irregular], word: &[u8], number: Number) -> Option<Ending>
    ensures { option_map ending_view result
        ≡ irregular_of number word.now (map irregular_view words.now) }
{
    for entry in words {
        let old = entry.old_end(number);
        if is_joined(word, entry.front, old) {
            let added = entry.new_end(number);
            let cut = old.len();
            return Some(Ending { cut, added });
        }
    }
    None
}

fn is_joined(word: &[u8], front: &[u8], end: &[u8]) -> bool
    ensures { result ≡ bytes_eq word.now (front.now ++ end.now) }
{
    match word.strip_prefix(front) {
        Some(rest) => rest == end,
        None => false,
    }
}

fn regular_ending(word: &[u8], number: Number) -> Ending
    ensures { ending_view result ≡ regular_of number word.now }
{
    match number {
        Number::Singular => regular_singular(word),
        Number::Plural => regular_plural(word),
    }
}

#[tactic(auto, unfolding(name_rules::specs::Inflection::regular_singular))]
fn regular_singular(word: &[u8]) -> Ending
    ensures { ending_view result ≡ regular_singular word.now }
{
    if is_longer_with_end(word, b"ies", 4) {
        return Ending {
            cut: 3,
            added: b"y",
        };
    }
    if ends_in_one_of(word, &[b"sses", b"shes", b"ches", b"xes"]) {
        return Ending { cut: 2, added: b"" };
    }
    if ends_in_one_of(word, &[b"ss", b"us", b"is"]) {
        return SAME;
    }
    if is_longer_with_end(word, b"s", 1) {
        return Ending { cut: 1, added: b"" };
    }
    SAME
}

#[tactic(auto, unfolding(name_rules::specs::Inflection::regular_plural))]
fn regular_plural(word: &[u8]) -> Ending
    ensures { ending_view result ≡ regular_plural word.now }
{
    if ends_in_consonant_y(word) {
        return Ending {
            cut: 1,
            added: b"ies",
        };
    }
    if ends_in_one_of(word, &[b"s", b"x", b"z", b"ch", b"sh"]) {
        return Ending {
            cut: 0,
            added: b"es",
        };
    }
    Ending {
        cut: 0,
        added: b"s",
    }
}

fn is_longer_with_end(word: &[u8], end: &[u8], than: usize) -> bool
    ensures { result ≡ (ends_in word.now end.now && nat_lt than (char_count word.now)) }
{
    word.ends_with(end) && char_count(word) > than
}

fn ends_in_one_of(word: &[u8], ends: &[&[u8]]) -> bool
    ensures { result ≡ list_any (λ end. ends_in word.now end.now) ends.now }
{
    ends.iter().any(|end| word.ends_with(end))
}

fn ends_in_consonant_y(word: &[u8]) -> bool
    ensures { result ≡ ends_in_consonant_y word.now }
{
    word.ends_with(b"y") && word.len() > 1 && is_consonant(word[word.len() - 2])
}

fn is_consonant(byte: u8) -> bool
    ensures { result ≡ is_consonant byte }
{
    byte.is_ascii_lowercase() && !matches!(byte, b'a' | b'e' | b'i' | b'o' | b'u')
}

// In UTF-8 each character has one byte that continues no other.
fn char_count(word: &[u8]) -> usize
    ensures { result ≡ char_count word.now }
{
    word.iter()
        .filter(|byte| **byte < 128 || **byte >= 192)
        .count()
}
