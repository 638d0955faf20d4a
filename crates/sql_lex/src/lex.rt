//! The first token of a text from a place on.

ghost use Rattle.std.specs.Prelude.{◌≡◌, ◌≤◌, ◌<◌, ◌+◌, false, length, drop, take, slice_index, IfOk, MatchResult};
ghost use Rattle.pg_base.specs.Pos.{start, counter_after};
ghost use Rattle.sql_lex.specs.Bytes.{is_digit, after_run};
ghost use Rattle.sql_lex.specs.Laws.{StandsIn};
ghost use Rattle.sql_lex.specs.Grammar.{IsSpelling};
ghost use Rattle.sql_lex.specs.Value.{spelling};
ghost use Rattle.sql_lex.specs.Offsets.{IsHaltIn, IsFound, is_plain_kind_of, stop_of};
ghost use Rattle.sql_lex.specs.Separators.{after_separators};
ghost use Rattle.sql_lex.specs.Quoted.{after_quoted};
ghost use Rattle.sql_lex.specs.Lex.{first_token, token_at, word_at, name_at, string_at, number_at, token_after, fault_at, answer, bad_byte};

use crate::bytes::{
    digits_end, is_blank, is_digit, is_escape_mark, is_sign, is_word_start, stands_at, word_end,
};
use crate::quoted::quoted_end;
use crate::separators::separators_end;
use crate::token::{Halt, LexFault, Piece, Token, TokenKind};
use pg_base::PosCounter;

/// The first token of the text from a place on, or why there is none.
pub fn next(text: &[u8], at: usize) -> Result<Token, LexFault>
    requires { at ≤ length text.now }
    ensures token { result ≡ first_token text.now at }
    ensures stands { IfOk result (StandsIn text.now at) }
    ensures spelling { IfOk result (λ token. IsSpelling token.kind (spelling text.now token)) }
{
    let place = PosCounter::start().pass_all(&text[..at]);
    match next_from(text, at, place) {
        Ok((token, _)) => Ok(token),
        Err(fault) => Err(fault),
    }
}

/// The same for a reader that knows the line and the column of its place, and is told those after the token.
///
/// What it costs is measured, not promised: blanks and the bytes of a word, a number or a sign are looked at once, the
/// bytes of comments, names and strings three times. A fault counts its position from the start of the text.
pub fn next_from(text: &[u8], at: usize, place: PosCounter) -> Result<(Token, PosCounter), LexFault>
    requires within { at ≤ length text.now }
    requires place { place ≡ counter_after start (take at text.now) }
    ensures token { MatchResult result (λ read. first_token text.now at ≡ Ok read.0)
        (λ fault. first_token text.now at ≡ Err fault) }
    ensures stands { IfOk result (λ read. StandsIn text.now at read.0) }
    ensures spelling { IfOk result
        (λ read. IsSpelling read.0.kind (spelling text.now read.0)) }
    ensures place { IfOk result
        (λ read. read.1 ≡ counter_after start (take read.0.«to» text.now)) }
{
    let (from, front) = after_blanks(text, at, place);
    match token_from(text, from) {
        Ok(piece) => token_of(text, from, front, piece),
        Err(halt) => Err(halted(text, from, halt)),
    }
}

/// After the blanks from a place on, which don't change the token that follows.
fn after_blanks(text: &[u8], from: usize, place: PosCounter) -> (usize, PosCounter)
    requires within { from ≤ length text.now }
    requires place { place ≡ counter_after start (take from text.now) }
    ensures from { from ≤ result.0 }
    ensures within { result.0 ≤ length text.now }
    ensures place { result.1 ≡ counter_after start (take result.0 text.now) }
    ensures same { first_token text.now from ≡ first_token text.now result.0 }
{
    let mut at = from;
    let mut counter = place;
    'blanks: while at < text.len() {
        let byte = text[at];
        if !is_blank(byte) {
            return (at, counter);
        }
        counter = counter.pass(byte);
        at += 1;
    }
    (at, counter)
}

/// The token of a piece that was found from a place on.
fn token_of(
    text: &[u8],
    at: usize,
    place: PosCounter,
    piece: Piece,
) -> Result<(Token, PosCounter), LexFault>
    requires within { at ≤ length text.now }
    requires place { place ≡ counter_after start (take at text.now) }
    requires found { IsFound text.now at (token_after (after_separators (drop at text.now)))
        (Ok piece) }
    ensures token { MatchResult result (λ read. first_token text.now at ≡ Ok read.0)
        (λ fault. first_token text.now at ≡ Err fault) }
    ensures place { IfOk result
        (λ read. read.1 ≡ counter_after start (take read.0.«to» text.now)) }
{
    if piece.from == at && is_plain_kind(piece.kind) {
        let token = placed(piece, place);
        return Ok((token, place.pass_plain(&text[piece.from..piece.to])));
    }
    match std::str::from_utf8(&text[at..piece.to]) {
        Ok(_) => {
            let front = place.pass_all(&text[at..piece.from]);
            let token = placed(piece, front);
            Ok((token, front.pass_all(&text[piece.from..piece.to])))
        }
        Err(fault) => Err(fault_of(text, LexFault::NOT_UTF8, at + fault.valid_up_to())),
    }
}

/// A token that begins where the counter stands.
fn placed(piece: Piece, place: PosCounter) -> Token
    ensures { result ≡ record {
      kind = piece.kind;
      from = piece.from;
      «to» = piece.«to»;
      pos = place.pos;
    } }
{
    Token {
        kind: piece.kind,
        from: piece.from,
        to: piece.to,
        pos: place.pos,
    }
}

/// Whether tokens of this kind are of ASCII without line ends.
fn is_plain_kind(kind: TokenKind) -> bool
    ensures { result ≡ is_plain_kind_of kind }
{
    match kind {
        TokenKind::Word | TokenKind::Number | TokenKind::Sign(_) => true,
        TokenKind::Quoted | TokenKind::Str | TokenKind::EscStr | TokenKind::End => false,
    }
}

/// The fault of a text that cannot be read on from a place.
fn halted(text: &[u8], at: usize, halt: Halt) -> LexFault
    requires within { at ≤ length text.now }
    requires halt { IsHaltIn text.now halt }
    ensures { answer text.now (bad_byte text.now at) (Err (stop_of text.now halt)) ≡ Err result }
{
    let bad = first_bad_byte(text, at);
    if bad < halt.unread {
        fault_of(text, LexFault::NOT_UTF8, bad)
    } else {
        fault_of(text, halt.which, halt.stands)
    }
}

/// The place of the first byte that belongs to no character.
fn first_bad_byte(text: &[u8], at: usize) -> usize
    requires { at ≤ length text.now }
    ensures value { result ≡ bad_byte text.now at }
    ensures within { result ≤ length text.now }
{
    match std::str::from_utf8(&text[at..]) {
        Ok(_) => text.len(),
        Err(fault) => at + fault.valid_up_to(),
    }
}

fn fault_of(text: &[u8], which: u8, at: usize) -> LexFault
    requires { at ≤ length text.now }
    ensures { result ≡ fault_at which text.now at }
{
    LexFault {
        which,
        pos: PosCounter::start().pass_all(&text[..at]).pos,
    }
}

/// The token after the separators.
fn token_from(text: &[u8], at: usize) -> Result<Piece, Halt>
    requires { at ≤ length text.now }
    ensures { IsFound text.now at (token_after (after_separators (drop at text.now))) result }
{
    let from = separators_end(text, at)?;
    token_there(text, from)
}

/// The token that begins there.
fn token_there(text: &[u8], from: usize) -> Result<Piece, Halt>
    requires { from ≤ length text.now }
    ensures { IsFound text.now from (token_at (drop from text.now)) result }
{
    if from == text.len() {
        return piece(TokenKind::End, from, from);
    }
    let byte = text[from];
    if is_word_start(byte) {
        word_there(text, from)
    } else if byte == b'"' {
        name_there(text, from)
    } else if byte == b'\'' {
        string_there(text, from)
    } else if is_digit(byte) {
        number_there(text, from)
    } else if is_sign(byte) {
        piece(TokenKind::Sign(byte), from, from + 1)
    } else {
        Err(Halt::stray(from))
    }
}

/// A string without escapes.
fn string_there(text: &[u8], from: usize) -> Result<Piece, Halt>
    requires { from < length text.now }
    ensures { IsFound text.now from (string_at TokenKind.Str (drop from text.now)
        (after_quoted (drop from text.now) false 39 (drop (from + 1) text.now))) result }
{
    let to = quoted_end(text, from, from + 1, b'\'', false)?;
    piece(TokenKind::Str, from, to)
}

/// A word, or a string with escapes.
fn word_there(text: &[u8], from: usize) -> Result<Piece, Halt>
    requires { from < length text.now }
    ensures { IsFound text.now from (word_at (slice_index text.now from)
        (drop (from + 1) text.now)) result }
{
    if is_escape_mark(text[from]) && stands_at(text, from + 1, b'\'') {
        let to = quoted_end(text, from, from + 2, b'\'', true)?;
        return piece(TokenKind::EscStr, from, to);
    }
    piece(TokenKind::Word, from, word_end(text, from + 1))
}

/// A quoted name, which is not empty.
fn name_there(text: &[u8], from: usize) -> Result<Piece, Halt>
    requires { from < length text.now }
    ensures { IsFound text.now from (name_at (slice_index text.now from)
        (drop (from + 1) text.now) (after_quoted (drop from text.now) false 34
        (drop (from + 1) text.now))) result }
{
    let to = quoted_end(text, from, from + 1, b'"', false)?;
    if to == from + 2 {
        return Err(Halt::stray(from));
    }
    piece(TokenKind::Quoted, from, to)
}

/// A number, directly after which no word begins.
fn number_there(text: &[u8], from: usize) -> Result<Piece, Halt>
    requires { from < length text.now }
    ensures { IsFound text.now from (number_at (drop from text.now) (after_run is_digit
        (drop (from + 1) text.now))) result }
{
    let to = digits_end(text, from + 1);
    if to < text.len() && is_word_start(text[to]) {
        return Err(Halt::stray(to));
    }
    piece(TokenKind::Number, from, to)
}

fn piece(kind: TokenKind, from: usize, to: usize) -> Result<Piece, Halt>
    ensures { result ≡ Ok (record { kind = kind; from = from; «to» = «to» }) }
{
    Ok(Piece { kind, from, to })
}
