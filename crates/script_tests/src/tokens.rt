//! What the lexical structure says of short scripts and of long tokens.

use pg_base::{PosCounter, Text};
use sql_lex::{LexFault, Token, TokenKind, name_text, next, next_from, string_text, word_text};
use std::alloc::Global;
use std::process::Abort;
use std::test::Fail;

/// What a script's first token is, as a letter, its first and its last offset and its position, or the number and the
/// position of its fault: SCRIPT => RESULT, where `~` is LF, `^` CR, `?` U+0000 and `%` a byte that is no character.
const FIRST_TOKENS: &str = " => . 0 0 1:1
 \t => . 2 2 1:3
CREATE TABLE => w 0 6 1:1
^~  _x9$ => w 4 7 2:3
^^~~x => w 4 5 4:1
--é^~--~x => w 9 10 3:1
-- only => . 7 7 1:8
/* a /* b */ c */x => w 17 18 1:18
/*/**/*/ é => 3 1:10
/**/- => - 4 5 1:5
-- é~'é' => s 6 10 2:1
/* é */ a => w 9 10 1:9
\"a\"\"b\"c => q 0 6 1:1
\"\" => 3 1:1
\"\"\"\" => q 0 4 1:1
'' => s 0 2 1:1
'it''s~'  => s 0 8 1:1
'\\n' => s 0 4 1:1
e'\\'\\\\' => e 0 7 1:1
E 'x' => w 0 1 1:1
12; => n 0 2 1:1
12a => 3 1:3
1_ => 3 1:2
a.b => w 0 1 1:1
$1 => $ 0 1 1:1
é => 3 1:1
 'abc => 1 1:2
~\"abc => 1 2:1
E'abc => 1 1:1
'abc'' => 1 1:1
 /* x /* */ => 2 1:2
/* a */ /* => 2 1:9
'a?b => 3 1:3
\"a?\" => 3 1:3
/* ? */ => 3 1:4
-- ?~ => 3 1:4
? => 3 1:1
\u{b} => 3 1:1
\u{7f} => 3 1:1
e'\\a' => 3 1:3
e'\\ => 3 1:3
'é% => 4 1:3
/*%*/ => 4 1:3
--%~ => 4 1:3
% => 4 1:1
x% => w 0 1 1:1
'?% => 3 1:2";

fn letter(kind: TokenKind) -> u8 {
    match kind {
        TokenKind::Word => b'w',
        TokenKind::Quoted => b'q',
        TokenKind::Str => b's',
        TokenKind::EscStr => b'e',
        TokenKind::Number => b'n',
        TokenKind::Sign(sign) => sign,
        TokenKind::End => b'.',
    }
}

/// The bytes of a script of the table.
fn script_of(alloc: Global, row: &str) -> Result<Vec<u8>, Fail> {
    let mut script = Vec::new(alloc);
    for byte in row.as_bytes() {
        script.push(match *byte {
            b'~' => b'\n',
            b'^' => b'\r',
            b'?' => 0,
            b'%' => 0xff,
            other => other,
        })?;
    }
    Ok(script)
}

fn shown(alloc: Global, first: Result<Token, LexFault>) -> Result<String, Fail> {
    match first {
        Ok(token) => {
            let (line, column) = (token.pos.line, token.pos.column);
            let kind = char::from(letter(token.kind));
            Ok(format!(in alloc; "{kind} {} {} {line}:{column}", token.from, token.to)?)
        }
        Err(fault) => {
            Ok(format!(in alloc; "{} {}:{}", fault.which, fault.pos.line, fault.pos.column)?)
        }
    }
}

#[test]
fn first_tokens_and_faults_are_those_of_the_table(rt: HostRuntime) -> Result<(), Fail> {
    for row in FIRST_TOKENS.lines() {
        let (script, wanted) = row.split_once(" => ").ok_or("no row")?;
        let text = script_of(rt.alloc(), script)?;
        let told = shown(rt.alloc(), next(text.as_slice(), 0))?;
        assert_eq!(rt; told.as_str(), wanted);
    }
    Ok(())
}

/// The kinds of a text's tokens, one after the other, as a reader asks for them.
fn kinds_of(rt: &(impl Abort + AllocGlobal), text: &[u8]) -> Result<Vec<u8>, Fail> {
    let mut kinds = Vec::new(rt.alloc());
    let mut at = 0;
    let mut counter = PosCounter::start();
    for turn in 0..text.len() {
        match next_from(text, at, counter) {
            Ok((token, after)) => {
                kinds.push(letter(token.kind))?;
                at = token.to;
                counter = after;
                if at >= text.len() {
                    return Ok(kinds);
                }
            }
            Err(_) => return Ok(kinds),
        }
    }
    Ok(kinds)
}

/// What the first token of the text spells.
fn spelled(alloc: Global, text: &[u8]) -> Result<Text, Fail> {
    match next(text, 0) {
        Ok(token) => match token.kind {
            TokenKind::Word => Ok(word_text(alloc, text, token)?),
            TokenKind::Quoted => Ok(name_text(alloc, text, token)?),
            TokenKind::Str | TokenKind::EscStr => Ok(string_text(alloc, text, token)?),
            TokenKind::Number | TokenKind::Sign(_) | TokenKind::End => Ok(Text::of(alloc, "")?),
        },
        Err(_) => Ok(Text::of(alloc, "fault")?),
    }
}

/// What tokens stand for, in the same spelling.
const VALUES: &str = " Not_Null9  => not_null9
\"Not \"\"é\"\"\" => Not \"é\"
'it''s\\n é' => it's\\n é
E'it''s\\n\\t\\\\\\' é' => it's~\t\\' é
'' => ";

#[test]
fn tokens_stand_for_what_the_table_says(rt: HostRuntime) -> Result<(), Fail> {
    for row in VALUES.lines() {
        let (script, wanted) = row.split_once(" => ").ok_or("no row")?;
        let text = script_of(rt.alloc(), script)?;
        let value = spelled(rt.alloc(), text.as_slice())?;
        let wanted = script_of(rt.alloc(), wanted)?;
        assert_eq!(rt; value.bytes(), wanted.as_slice());
    }
    Ok(())
}

/// A token of 100 kB between these.
fn long_token(alloc: Global, opening: &[u8], closing: &[u8]) -> Result<Vec<u8>, Fail> {
    let mut text = Vec::from_slice(alloc, opening)?;
    text.extend_from_slice(vec![in alloc; b'a'; 100_000]?.as_slice())?;
    text.extend_from_slice(closing)?;
    Ok(text)
}

#[test]
fn long_tokens_are_read(rt: HostRuntime) -> Result<(), Fail> {
    for quote in ["", "\"", "'"] {
        let text = long_token(rt.alloc(), quote.as_bytes(), quote.as_bytes())?;
        assert_eq!(rt;
            spelled(rt.alloc(), text.as_slice())?.bytes().len(),
            100_000
        );
    }
    let text = long_token(rt.alloc(), b"E'".as_slice(), b"\\n'".as_slice())?;
    assert_eq!(rt;
        spelled(rt.alloc(), text.as_slice())?.bytes().len(),
        100_001
    );
    Ok(())
}

#[test]
fn a_reader_asks_for_token_after_token(rt: HostRuntime) -> Result<(), Fail> {
    let text = "COMMENT ON \"my \"\"é\"\"\"\r\nIS E'it\\'s' 'x''y';";
    let kinds = kinds_of(&rt, text.as_bytes())?;
    assert_eq!(rt; kinds.as_slice(), b"wwqwes;".as_slice());
    Ok(())
}
