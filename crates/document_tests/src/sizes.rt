use gql_lex::{TOKEN_LIMIT, lex};
use gql_reader::{ReadFault, read_document};
use std::alloc::Global;
use std::test::Fail;

/// The number, line and column of a text's fault, or zeros where it has none.
fn fault_of(alloc: Global, bytes: &[u8]) -> (u8, u32, u32) {
    match read_document(alloc, bytes) {
        Err(ReadFault::At { which, pos }) => (which, pos.line, pos.column),
        Ok(_) => (0, 0, 0),
        Err(ReadFault::Memory) => (9, 0, 0),
    }
}

/// A part, `count` times the middle, and another part.
fn repeated(
    alloc: Global,
    begin: &str,
    middle: &str,
    count: u32,
    end: &str,
) -> Result<Vec<u8>, Fail> {
    let mut text = Vec::from_slice(alloc, begin.as_bytes())?;
    for _ in 0..count {
        text.extend_from_slice(middle.as_bytes())?;
    }
    text.extend_from_slice(end.as_bytes())?;
    Ok(text)
}

/// A field whose argument is `lists` lists within each other.
fn nested(alloc: Global, lists: u32) -> Result<Vec<u8>, Fail> {
    let mut text = repeated(alloc, "{a(b:", "[", lists, "")?;
    for _ in 0..lists {
        text.push(b']')?;
    }
    text.extend_from_slice(b")}")?;
    Ok(text)
}

#[test]
fn limits_are_64_brackets_and_8192_tokens(rt: HostRuntime) -> Result<(), Fail> {
    let alloc = rt.alloc();
    assert_eq!(rt; fault_of(alloc, b"{ a \xff }"), (1, 1, 5));
    assert_eq!(rt; fault_of(alloc, nested(alloc, 62)?.as_slice()), (0, 0, 0));
    assert_eq!(rt; fault_of(alloc, nested(alloc, 63)?.as_slice()), (3, 1, 68));
    let all = repeated(alloc, "{", "a ", 8190, "}")?;
    assert_eq!(rt; fault_of(alloc, all.as_slice()), (0, 0, 0));
    let more = repeated(alloc, "{", "a ", 8191, "}")?;
    assert_eq!(rt; fault_of(alloc, more.as_slice()), (4, 1, 16384));
    Ok(())
}

/// Each call that allocates, on about 100 kB: one long string, and as many tokens as there may be.
#[test]
fn long_documents_are_read(rt: HostRuntime) -> Result<(), Fail> {
    let alloc = rt.alloc();
    let string = repeated(alloc, "{ a(b: \"", "0123456789", 10_000, "\") }")?;
    assert_eq!(rt; fault_of(alloc, string.as_slice()), (0, 0, 0));
    let block = repeated(alloc, "{ a(b: \"\"\"", "01234567\n ", 10_000, "\"\"\") }")?;
    assert_eq!(rt; fault_of(alloc, block.as_slice()), (0, 0, 0));
    let wide = repeated(alloc, "{", "elevenbytes ", 8190, "}")?;
    assert_eq!(rt; fault_of(alloc, wide.as_slice()), (0, 0, 0));
    let lexed = lex(alloc, wide.as_slice())?;
    assert_eq!(rt; lexed.tokens.len(), TOKEN_LIMIT);
    Ok(())
}
