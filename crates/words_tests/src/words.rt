//! The words of commands.

use command_words::{Command, Request, WordsFault, read_words};
use std::alloc::Global;
use std::test::Fail;

/// Words, each line with the command that they are, its parts marked, or `bad words`.
const WORDS: &str = "\
check t.sql => check t.sql
schema t.sql => schema t.sql
query t.sql q.graphql => query t.sql q.graphql
explain t.sql q.graphql => explain t.sql q.graphql
query t.sql q.graphql --operation A => query t.sql q.graphql operation A
query t.sql q.graphql --variables v.json => query t.sql q.graphql variables v.json
query t.sql q.graphql --variables=v.json => query t.sql q.graphql variables v.json
query t.sql q.graphql --variables v.json --operation A => query t.sql q.graphql operation A variables v.json
query --operation A t.sql q.graphql => query t.sql q.graphql operation A
query t.sql --operation=A q.graphql => query t.sql q.graphql operation A
explain --variables=a=b t.sql q.graphql => explain t.sql q.graphql variables a=b
query t.sql q.graphql --operation= => query t.sql q.graphql operation ()
query t.sql q.graphql --operation - => query t.sql q.graphql operation -
query - - => query - -
check -- -t.sql => check -t.sql
query t.sql -- --operation => query t.sql --operation
query --operation A -- -a -b => query -a -b operation A
check t.sql -- => check t.sql
check check => check check
 => bad words
- => bad words
t.sql => bad words
check => bad words
Check t.sql => bad words
check t.sql t.sql => bad words
check -t.sql => bad words
check t.sql --operation A => bad words
query t.sql => bad words
query t.sql q.graphql more => bad words
query t.sql q.graphql --operation => bad words
query t.sql q.graphql --operation -A => bad words
query t.sql q.graphql --operation -- A => bad words
query t.sql q.graphql --operation A --operation A => bad words
query t.sql q.graphql --variables=a --variables b => bad words
query t.sql q.graphql --oper A => bad words
query t.sql q.graphql -o A => bad words
--operation A query t.sql q.graphql => bad words
-- check t.sql => bad words
help => bad words
check --help => bad words
check t.sql -h => bad words
--version => bad words
session t.sql => bad words";

/// ` NAME VALUE`, with `()` for no bytes.
fn put(shown: &mut String, part: &str) -> Result<(), Fail> {
    shown.push(' ')?;
    shown.push_str(if part.is_empty() { "()" } else { part })?;
    Ok(())
}

fn put_request(shown: &mut String, name: &str, request: &Request) -> Result<(), Fail> {
    shown.push_str(name)?;
    put(shown, request.script)?;
    put(shown, request.document)?;
    if let Some(operation) = request.operation {
        put(shown, "operation")?;
        put(shown, operation)?;
    }
    if let Some(variables) = request.variables {
        put(shown, "variables")?;
        put(shown, variables)?;
    }
    Ok(())
}

fn shown(alloc: Global, words: &str) -> Result<String, Fail> {
    let mut given = Vec::new(alloc);
    for word in words.split_ascii_whitespace() {
        given.push(String::from_str(alloc, word)?)?;
    }
    let mut shown = String::new(alloc);
    match read_words(alloc, given.as_slice()) {
        Ok(Command::Check(script)) => {
            shown.push_str("check")?;
            put(&mut shown, script)?;
        }
        Ok(Command::Schema(script)) => {
            shown.push_str("schema")?;
            put(&mut shown, script)?;
        }
        Ok(Command::Query(request)) => put_request(&mut shown, "query", &request)?,
        Ok(Command::Explain(request)) => put_request(&mut shown, "explain", &request)?,
        Err(WordsFault::BadWords) => shown.push_str("bad words")?,
        Err(WordsFault::Memory) => shown.push_str("out of memory")?,
    }
    Ok(shown)
}

#[test]
fn words_are_read(rt: HostRuntime) -> Result<(), Fail> {
    for line in WORDS.lines() {
        let (words, due) = line.split_once(" => ").ok_or("no row")?;
        let given = shown(rt.alloc(), words)?;
        assert_eq!(rt; given.as_str(), due, "{words}");
    }
    Ok(())
}
