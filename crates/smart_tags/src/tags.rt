//! The tags of a comment.

ghost use Rattle.std.specs.Prelude.{◌≡◌, ◌∷◌, IfOk, IfSome, unwrap_or, option_copied};
ghost use Rattle.std.specs.List.{filter_map, slice_split, join_with_byte};
ghost use Rattle.std.specs.Str.{IsUtf8};
ghost use Rattle.smart_tags.specs.Lines.{lines, is_tag, tag_lines, other_lines, description_of};
ghost use Rattle.smart_tags.specs.Tags.{is_space, tags_of, first_value, is_on, setting, last_or, behavior_words};

use crate::parts::{break_len, first_line, first_word};
use pg_base::{Memory, Tags, Text};
use std::alloc::Global;

/// The tags of a comment, and its description: what stands after the lines in front that begin with `@`.
pub fn read_tags(alloc: Global, text: &Text) -> Result<Tags, Memory>
    ensures { IfOk result (λ tags. tags ≡ tags_of text.now) }
{
    let bytes = text.bytes();
    Ok(Tags {
        name: value_text(alloc, bytes, b"name")?,
        field_name: value_text(alloc, bytes, b"fieldName")?,
        foreign_field_name: value_text(alloc, bytes, b"foreignFieldName")?,
        deprecated: value_text(alloc, bytes, b"deprecated")?,
        description: description(alloc, bytes)?,
        behavior: [
            stays_on(bytes, b"select"),
            stays_on(bytes, b"list"),
            stays_on(bytes, b"connection"),
            stays_on(bytes, b"insert"),
            stays_on(bytes, b"update"),
            stays_on(bytes, b"delete"),
            stays_on(bytes, b"order"),
            stays_on(bytes, b"filter"),
        ],
    })
}

/// The value of the first tag with the word.
fn value_text(alloc: Global, text: &[u8], word: &[u8]) -> Result<Option<Text>, Memory>
    requires { IsUtf8 text.now }
    ensures { IfOk result (λ value. value ≡ first_value word.now (tag_lines (lines text.now))) }
{
    match find_value(text, word) {
        Some(value) => Ok(Some(Text::of_bytes(Vec::from_slice(alloc, value)?))),
        None => Ok(None),
    }
}

fn find_value<'a>(text: &'a [u8], word: &[u8]) -> Option<&'a [u8]>
    requires { IsUtf8 text.now }
    ensures value { option_copied result ≡ first_value word.now (tag_lines (lines text.now)) }
    ensures utf8 { IfSome result (λ value. IsUtf8 value.now) }
{
    let mut rest = text;
    'tags: while begins_tag(rest) {
        let (tag, others) = first_line(&rest[1..]);
        let (named, value) = first_word(tag);
        if named == word {
            return Some(value);
        }
        rest = others;
    }
    None
}

fn begins_tag(text: &[u8]) -> bool
    ensures { result ≡ is_tag text.now }
{
    !text.is_empty() && text[0] == b'@'
}

/// Whether the tags leave a thing on.
fn stays_on(text: &[u8], thing: &[u8]) -> bool
    ensures { result ≡ is_on thing.now (tag_lines (lines text.now)) }
{
    let mut on = true;
    let mut rest = text;
    'tags: while begins_tag(rest) {
        let (tag, others) = first_line(&rest[1..]);
        on = after_tag(tag, thing, on);
        rest = others;
    }
    on
}

/// Whether a thing is on after a tag, of which this stands after the at sign.
fn after_tag(tag: &[u8], thing: &[u8], on: bool) -> bool
    ensures { result ≡ last_or on (filter_map (setting thing.now) (behavior_words (64 ∷ tag.now))) }
{
    let (named, words) = first_word(tag);
    if named == b"behavior".as_slice() {
        after_words(words, thing, on)
    } else {
        on
    }
}

fn after_words(words: &[u8], thing: &[u8], on: bool) -> bool
    ensures { result ≡ last_or on
        (filter_map (setting thing.now) (slice_split is_space words.now)) }
{
    let mut after = on;
    let mut rest = words;
    'words: while !rest.is_empty() {
        let (word, others) = first_word(rest);
        after = after_word(word, thing, after);
        rest = others;
    }
    after
}

fn after_word(word: &[u8], thing: &[u8], on: bool) -> bool
    ensures { result ≡ unwrap_or (setting thing.now word.now) on }
{
    if word.is_empty() || &word[1..] != thing {
        return on;
    }
    match word[0] {
        b'+' => true,
        b'-' => false,
        _ => on,
    }
}

/// What stands after the tags, with LF for each end of a line, unless nothing does.
fn description(alloc: Global, text: &[u8]) -> Result<Option<Text>, Memory>
    requires { IsUtf8 text.now }
    ensures { IfOk result (λ description. description ≡ description_of (lines text.now)) }
{
    let joined = joined_lines(alloc, after_tags(text))?;
    if joined.is_empty() {
        Ok(None)
    } else {
        Ok(Some(Text::of_bytes(joined)))
    }
}

fn after_tags(text: &[u8]) -> &[u8]
    requires { IsUtf8 text.now }
    ensures joined { join_with_byte 10 (other_lines (lines text.now))
        ≡ join_with_byte 10 (lines result.now) }
    ensures utf8 { IsUtf8 result.now }
{
    let mut rest = text;
    'tags: while begins_tag(rest) {
        let (_, others) = first_line(&rest[1..]);
        rest = others;
    }
    rest
}

/// The lines, joined by LF.
fn joined_lines(alloc: Global, text: &[u8]) -> Result<Vec<u8>, Memory>
    ensures { IfOk result (λ joined. joined.items ≡ join_with_byte 10 (lines text.now)) }
{
    let mut joined = Vec::new(alloc);
    for (at, byte) in text.iter().enumerate() {
        if break_len(text, at) == 2 {
            continue;
        }
        joined.push(*byte)?;
    }
    Ok(joined)
}
