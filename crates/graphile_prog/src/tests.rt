//! Rows of the commands over files and sinks in memory.

ghost use Rattle.std.specs.Prelude.{ℕ, List};
ghost use Rattle.pg_io.specs.Files.{Untold};

use crate::run::run_once;
use crate::status::Status;
use pg_base::{Blob, Memory, Text};
use pg_io::{FileFault, Files, MemFile, MemFiles, MemSink, MemSource};
use sqlite_items::Items;
use std::alloc::{AllocError, Global};
use std::test::Fail;

const SCRIPT: &str =
    "CREATE TABLE t (id integer PRIMARY KEY, s text); INSERT INTO t VALUES (2, 'b'), (1, NULL);";

const DOCUMENT: &str = "{ allTs { nodes { s id } } }";

/// Words, a script and a document (a dot for those above), the calls of files and sink that fail, and a status with what
/// is written, `$` in place of a line feed.
const ROWS: &str = r#"
query t.sql q.graphql | . | . |  |  => Done {"data":{"allTs":{"nodes":[{"s":"b","id":2},{"s":null,"id":1}]}}}$
check t.sql | . | . |  |  => Done ok$
check t.sql |  | . |  |  => ScriptRefused schema fault 4: Query$
 | . | . |  |  => BadWords bad words$
 | . | . |  | 1 => BadWords 
query t.sql | . | . |  |  => BadWords bad words$
check t.sql q.graphql | . | . |  |  => BadWords bad words$
check -t.sql | . | . |  |  => BadWords bad words$
schema | . | . |  |  => BadWords bad words$
query -t.sql q.graphql | . | . |  |  => BadWords bad words$
query t.sql q.graphql | CREATE TABLE | . |  |  => ScriptRefused script fault 2 at 1:13$
query t.sql q.graphql | CREATE TABLE | { | 2 |  => ScriptRefused script fault 2 at 1:13$
query t.sql none | CREATE TABLE | . |  |  => ScriptRefused script fault 2 at 1:13$
check t.sql | CREATE TABLE t (id uuid); | . |  |  => ScriptRefused script fault 3 at 1:20: uuid$
check t.sql | CREATE TABLE t (id uuid); | . |  | 1 => ScriptRefused 
check t.sql | CREATE TABLE t (id integer PRIMARY KEY, a_b text, "aB" text); | . |  |  => ScriptRefused schema fault 1: T.aB$
schema t.sql | CREATE TABLE t (id integer PRIMARY KEY); INSERT INTO t VALUES (1), (1); | . |  |  => ScriptRefused rows fault 4 at 1:68: t_pkey$
schema t.sql | CREATE TABLE t (a text); COMMENT ON TABLE t IS '@behavior -insert -filter -order -list'; | . |  |  => Done scalar BigInt$$scalar Cursor$$type PageInfo {$  hasNextPage: Boolean!$  hasPreviousPage: Boolean!$  startCursor: Cursor$  endCursor: Cursor$}$$type T {$  a: String$}$$type TsConnection {$  edges: [TsEdge!]!$  pageInfo: PageInfo!$  totalCount: Int!$}$$type TsEdge {$  cursor: Cursor!$  node: T!$}$$enum TsOrderBy {$  NATURAL$}$$type Query {$  allTs(first: Int, last: Int, offset: Int, before: Cursor, after: Cursor, orderBy: [TsOrderBy!]): TsConnection$}$
query t.sql q.graphql | CREATE TABLE n (id bigint PRIMARY KEY, s text); INSERT INTO n VALUES (-9223372036854775808, E'a"\\\t'); | { allNs { nodes { id s } } } |  |  => Done {"data":{"allNs":{"nodes":[{"id":"-9223372036854775808","s":"a\"\\\t"}]}}}$
query t.sql q.graphql | CREATE TABLE t (id serial PRIMARY KEY, s text DEFAULT 'd', n integer); INSERT INTO t (n) VALUES (1); INSERT INTO t VALUES (5, DEFAULT, NULL); INSERT INTO t (s) VALUES (NULL); | { allTs { nodes { id s n } } } |  |  => Done {"data":{"allTs":{"nodes":[{"id":1,"s":"d","n":1},{"id":5,"s":"d","n":null},{"id":6,"s":null,"n":null}]}}}$
query t.sql q.graphql | CREATE TYPE e AS ENUM ('x-y'); CREATE TABLE "T" (b boolean, c e); INSERT INTO "T" VALUES (true, 'x-y'), (NULL, NULL); | { allTs { nodes { c __typename b } } } |  |  => Done {"data":{"allTs":{"nodes":[{"c":"X_Y","__typename":"T","b":true},{"c":null,"__typename":"T","b":null}]}}}$
query t.sql q.graphql | . |  |  |  => Done {"errors":[{"message":"document syntax fault","locations":[{"line":1,"column":1}]}]}$
query t.sql q.graphql | . | { % |  |  => Done {"errors":[{"message":"document lexical fault","locations":[{"line":1,"column":3}]}]}$
query t.sql q.graphql | . | { allTs { nodes { x } } } |  |  => Done {"errors":[{"message":"rule 5.3.1: field selections","locations":[{"line":1,"column":19}]}]}$
query t.sql q.graphql | . | { allTs { nodes { s s } } } |  |  => Done {"data":{"allTs":{"nodes":[{"s":"b"},{"s":null}]}}}$
query t.sql q.graphql | . | query Q { a: allTs(first: 1) { totalCount nodes { s @skip(if: true) id } } } |  |  => Done {"data":{"a":{"totalCount":2,"nodes":[{"id":2}]}}}$
query t.sql q.graphql | . | { allTs(first: -1) { totalCount } } |  |  => Done {"errors":[{"message":"first is negative","locations":[{"line":1,"column":3}],"path":["allTs"]}],"data":{"allTs":null}}$
query t.sql q.graphql | . | mutation { deleteTById(input: {id: 1}) { t { id } } } |  |  => Done {"errors":[{"message":"mutations are not built"}]}$
explain t.sql q.graphql | CREATE TABLE users (id serial PRIMARY KEY, name text NOT NULL); CREATE TABLE posts (id serial PRIMARY KEY, author_id integer REFERENCES users, title text NOT NULL); | { allUsers { nodes { name postsByAuthorId(first: 2) { nodes { title } totalCount } } } } |  |  => Done needs 2$fetch users by - nodes 1$fetch posts by author_id nodes 1$layers 3$steps 7$
explain t.sql q.graphql | . | { |  |  => Done {"errors":[{"message":"document syntax fault","locations":[{"line":1,"column":2}]}]}$
explain t.sql q.graphql | . | mutation { deleteTById(input: {id: 1}) { t { id } } } |  |  => Done {"errors":[{"message":"mutations are not built"}]}$
explain t.sql none | . | . |  |  => FileFault file fault$
explain t.sql | . | . |  |  => BadWords bad words$
explain t.sql -q.graphql | . | . |  |  => BadWords bad words$
query t.sql q.graphql --variables none | . | { |  |  => FileFault file fault$
query t.sql none --variables none | . | { |  |  => FileFault file fault$
query t.sql q.graphql --variables | . | . |  |  => BadWords bad words$
query t.sql q.graphql --operation -A | . | . |  |  => BadWords bad words$
query --variables=none t.sql -- q.graphql | . | . |  |  => FileFault file fault$
query t.sql q.graphql --variables none --operation A | . | . |  |  => FileFault file fault$
query t.sql q.graphql --operation=A | . | . |  |  => Done {"errors":[{"message":"no such operation"}]}$
query t.sql q.graphql --operation A --operation A | . | . |  |  => BadWords bad words$
check t.sql --operation A | . | . |  |  => BadWords bad words$
check -- t.sql | . | . |  |  => Done ok$
check --help | . | . |  |  => BadWords bad words$
query t.sql q.graphql | . | . | 1 |  => FileFault file fault$
query t.sql q.graphql | . | . | 2 |  => FileFault file fault$
query t.sql none | . | . |  |  => FileFault file fault$
query t.sql q.graphql | . | . |  | 2 => WriteFault {"data":{"allTs":{"nodes":[{"s":"b","id":2},{"s":null,"id":1}]}}}"#;

/// Tables for requests.
const BLOG: &str = "
CREATE TABLE users (id serial PRIMARY KEY, name text NOT NULL, email text UNIQUE);
INSERT INTO users (name, email) VALUES ('Ann', 'ann@x'), ('Bob', NULL);";

/// Options, a document, the file of variables, and a refusal: its message and where it stands.
const REFUSALS: &str = r#"
 | fragment F on User { id } |  => rule 5.5.1.4: fragments must be used at 1,1
 | { allUsers(first: 2147483648) { totalCount } } |  => rule 5.6.1: values of correct type at 1,19
 | query($n: Int!) { allUsers(first: $n) { totalCount } } |  => variable $n: missing at 1,7
--variables v.json | query($n: Int!) { allUsers(first: $n) { totalCount } } | null => variable $n: missing at 1,7
--variables v.json | query($n: Int!) { allUsers(first: $n) { totalCount } } | {"n": null} => variable $n: null at 1,7
--variables v.json | query($n: Int!) { allUsers(first: $n) { totalCount } } | {"n": "1"} => variable $n: wrong kind at 1,7
--variables v.json | query($n: Int!) { allUsers(first: $n) { totalCount } } | {"n": 2147483648} => variable $n: out of range at 1,7
--variables v.json | query($c: UserCondition) { allUsers(condition: $c) { totalCount } } | {"c": {"id": 1, "z": 1}} => variable $c: unknown input field at 1,7
--variables v.json | { | [] => bad request body
--variables v.json | { | {"n": 1 => bad request body
--variables v.json | { | {} => document syntax fault at 1,2
--operation B | query A { allUsers { x } } |  => rule 5.3.1: field selections at 1,22
--operation B | query A($n: Int!) { allUsers(first: $n) { totalCount } } |  => no such operation
 | query A { allUsers { totalCount } } query B { allUsers { totalCount } } |  => no such operation
--operation B --variables v.json | query A { allUsers { totalCount } } query B($n: Int!) { allUsers(first: $n) { totalCount } } | {"n": true} => variable $n: wrong kind at 1,45"#;

/// What a run wrote, and how it ended.
#[derive(Drop)]
struct Ended {
    written: Vec<u8>,
    status: Status,
}

/// The number of the call that is to fail, as a list.
fn failing(alloc: Global, call: &str) -> Result<Vec<u64>, Memory> {
    let number = match call {
        "1" => 1u64,
        "2" => 2,
        _ => 0,
    };
    Vec::from_slice(alloc, &[number])
}

fn run(
    alloc: Global,
    words: &str,
    files: &mut impl Files,
    sink_fault: &str,
) -> Result<Ended, Memory> {
    let mut given = Vec::new(alloc);
    for word in words.split_ascii_whitespace() {
        given.push(String::from_str(alloc, word)?)?;
    }
    let mut source = MemSource::of(Blob::of(Vec::new(alloc)), Vec::new(alloc));
    let mut sink = MemSink::of(alloc, failing(alloc, sink_fault)?);
    let status = run_once(alloc, given.as_slice(), files, &mut source, &mut sink);
    Ok(Ended {
        written: Vec::from_slice(alloc, sink.bytes())?,
        status,
    })
}

fn file_of(alloc: Global, name: &str, text: &str) -> Result<MemFile, Memory> {
    Ok(MemFile {
        name: Text::of(alloc, name)?,
        bytes: Blob::of(Vec::from_slice(alloc, text.as_bytes())?),
    })
}

/// The files `t.sql` and `q.graphql`.
fn files_of(alloc: Global, script: &str, document: &str, fault: &str) -> Result<MemFiles, Memory> {
    let mut held = Items::new(alloc);
    held.push(file_of(alloc, "t.sql", script)?)?;
    held.push(file_of(alloc, "q.graphql", document)?)?;
    Ok(MemFiles::of(alloc, held, failing(alloc, fault)?))
}

/// The files of a request.
fn asking_files(alloc: Global, document: &str, variables: &str) -> Result<MemFiles, Memory> {
    let mut held = Items::new(alloc);
    held.push(file_of(alloc, "t.sql", BLOG)?)?;
    held.push(file_of(alloc, "q.graphql", document)?)?;
    held.push(file_of(alloc, "v.json", variables)?)?;
    Ok(MemFiles::of(alloc, held, Vec::new(alloc)))
}

/// The response of a refusal, with its line feed: a message, and where it stands, if that follows.
fn refusal_of(alloc: Global, refusal: &str) -> Result<String, Memory> {
    match refusal.split_once(" at ") {
        None => format!(in alloc; "Done {{\"errors\":[{{\"message\":\"{refusal}\"}}]}}$"),
        Some((message, place)) => {
            let (line, column) = place.split_once(",").unwrap_or(("", ""));
            format!(in alloc;
                "Done {{\"errors\":[{{\"message\":\"{message}\",\"locations\":[{{\"line\":{line},\"column\":{column}}}]}}]}}$"
            )
        }
    }
}

fn name_of(status: &Status) -> &'static str {
    match status {
        Status::Done => "Done ",
        Status::BadWords => "BadWords ",
        Status::ScriptRefused(_) => "ScriptRefused ",
        Status::FileFault => "FileFault ",
        Status::WriteFault => "WriteFault ",
        Status::TooLarge => "TooLarge ",
        Status::Memory => "Memory ",
    }
}

/// A status, a space, and what was written, `$` in place of a line feed.
fn shown(alloc: Global, ended: &Ended) -> Result<Vec<u8>, Memory> {
    let mut shown = Vec::from_slice(alloc, name_of(&ended.status).as_bytes())?;
    for byte in ended.written.as_slice() {
        shown.push(if *byte == b'\n' { b'$' } else { *byte })?;
    }
    Ok(shown)
}

fn text_or<'a>(text: &'a str, known: &'a str) -> &'a str {
    if text == "." { known } else { text }
}

#[test]
fn each_status_has_its_row(rt: HostRuntime) -> Result<(), Fail> {
    let alloc = rt.alloc();
    for row in ROWS.trim().lines() {
        let (input, wanted) = row.split_once(" => ").ok_or("no arrow")?;
        let (words, input) = input.split_once(" | ").ok_or("no script")?;
        let (script, input) = input.split_once(" | ").ok_or("no document")?;
        let (document, faults) = input.split_once(" | ").ok_or("no faults")?;
        let (file_fault, sink_fault) = faults.split_once(" | ").ok_or("no sink")?;
        let script = text_or(script, SCRIPT);
        let document = text_or(document, DOCUMENT);
        let mut files = files_of(alloc, script, document, file_fault)?;
        let ended = run(alloc, words, &mut files, sink_fault)?;
        assert_eq!(rt;
            shown(alloc, &ended)?.as_slice(),
            wanted.as_bytes(),
            "{row}"
        );
    }
    Ok(())
}

#[test]
fn requests_are_refused_in_order(rt: HostRuntime) -> Result<(), Fail> {
    let alloc = rt.alloc();
    for row in REFUSALS.trim_start_matches('\n').lines() {
        let (input, wanted) = row.split_once(" => ").ok_or("no arrow")?;
        let (options, input) = input.split_once(" | ").ok_or("no document")?;
        let (document, variables) = input.split_once(" | ").ok_or("no variables")?;
        let words = format!(in alloc; "query t.sql q.graphql {options}")?;
        let mut files = asking_files(alloc, document, variables)?;
        let ended = run(alloc, words.as_str(), &mut files, "")?;
        assert_eq!(rt;
            shown(alloc, &ended)?.as_slice(),
            refusal_of(alloc, wanted)?.as_bytes(),
            "{row}"
        );
    }
    Ok(())
}

/// The opening, and then the piece n times.
fn repeated(alloc: Global, opening: &str, piece: &str, n: usize) -> Result<Vec<u8>, Memory> {
    let mut text = Vec::from_slice(alloc, opening.as_bytes())?;
    for _ in 0..n {
        text.extend_from_slice(piece.as_bytes())?;
    }
    Ok(text)
}

/// A document's opening and a piece n times, and the response to it.
const SIZES: [(&str, &str, usize, &str); 4] = [
    (
        "{ allTs { nodes { id } } }",
        " ",
        65_510,
        r#"Done {"data":{"allTs":{"nodes":[{"id":2},{"id":1}]}}}$"#,
    ),
    (
        "{ allTs { nodes { id } } }",
        " ",
        65_511,
        "TooLarge too large$",
    ),
    (
        "",
        "{a",
        65,
        r#"Done {"errors":[{"message":"document too deep","locations":[{"line":1,"column":129}]}]}$"#,
    ),
    (
        "{",
        "a ",
        8192,
        r#"Done {"errors":[{"message":"document has too many tokens","locations":[{"line":1,"column":16384}]}]}$"#,
    ),
];

#[test]
fn deep_long_and_large_documents_are_refused(rt: HostRuntime) -> Result<(), Fail> {
    let alloc = rt.alloc();
    for (opening, piece, n, wanted) in SIZES {
        let document = repeated(alloc, opening, piece, n)?;
        let document = str::from_utf8(document.as_slice()).map_err(|_| "no text")?;
        let mut files = files_of(alloc, SCRIPT, document, "")?;
        let ended = run(alloc, "query t.sql q.graphql", &mut files, "")?;
        assert_eq!(rt;
            shown(alloc, &ended)?.as_slice(),
            wanted.as_bytes(),
            "{wanted}"
        );
    }
    Ok(())
}

/// Spaces behind `{}` in a file of variables, and how the request ends.
const VARIABLES: [(usize, &str); 2] = [
    (1_048_574, r#"Done {"data":{"allUsers":{"totalCount":2}}}$"#),
    (1_048_575, "TooLarge too large$"),
];

#[test]
fn large_variables_are_refused(rt: HostRuntime) -> Result<(), Fail> {
    let alloc = rt.alloc();
    for (n, wanted) in VARIABLES {
        let variables = repeated(alloc, "{}", " ", n)?;
        let variables = str::from_utf8(variables.as_slice()).map_err(|_| "no text")?;
        let mut files = asking_files(alloc, "{ allUsers { totalCount } }", variables)?;
        let words = "query t.sql q.graphql --variables v.json";
        let ended = run(alloc, words, &mut files, "")?;
        assert_eq!(rt;
            shown(alloc, &ended)?.as_slice(),
            wanted.as_bytes(),
            "{wanted}"
        );
    }
    Ok(())
}

/// Files for which there is never memory.
#[derive(Drop)]
struct NoMemory;

impl Files for NoMemory {
    ghost file = { λ _ _. Untold };

    ghost faults = { λ _ _. 0 };

    fn read_file(&mut self, _: Global, _: &str, _: usize) -> Result<Blob, FileFault> {
        Err(FileFault::Memory(AllocError))
    }
}

#[test]
fn memory_that_runs_out_has_its_line(rt: HostRuntime) -> Result<(), Fail> {
    let ended = run(rt.alloc(), "query t.sql q.graphql", &mut NoMemory, "")?;
    let shown = shown(rt.alloc(), &ended)?;
    assert_eq!(rt; shown.as_slice(), b"Memory out of memory$".as_slice());
    Ok(())
}
