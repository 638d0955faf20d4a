//! Stores that count statements, and stores that fail.

ghost use Rattle.std.specs.Prelude.{IfOk};
ghost use Rattle.std.specs.Arc.{arc_value};
ghost use Rattle.request_core.specs.Load.{IsUsable};
ghost use Rattle.request_core.specs.Spent.{MayRespond};

use crate::asking::loaded;
use crate::opening::{answer_over, opened};
use gql_vectors::BLOG;
use needed_count::needed;
use pg_base::Vars;
use place_tree::Tree;
use request_core::{Loaded, Prepared, Request, prepare};
use sqlite_items::Items;
use std::alloc::Global;
use std::marker::Brand;
use std::sync::ledger::Blank;
use std::test::Fail;
use stmt_run::{FaultyRows, MemRows};
use stmt_tree::Rows;

/// Documents, with the numbers of statements that they need, and that they take.
const SENT: &str = r##"
{ __typename } => 0 0
{ allUsers { totalCount } } => 1 1
{ allUsers { nodes { name } pageInfo { hasNextPage } } } => 1 1
{ allUsers { nodes { name postsByAuthorId { nodes { title commentsByPostId { nodes { body } } } } } } } => 1 1
{ allUsers { nodes { name postsByAuthorId(first: 2) { nodes { title } totalCount } } } } => 2 2
{ allPosts { nodes { title userByAuthorId { name } } } } => 1 1
{ a: allUsers { nodes { name } } b: allUsers { totalCount } } => 1 1
{ a: allUsers { totalCount } b: allPosts { totalCount } } => 2 2
{ a: allUsers(first: 1) { totalCount } b: allUsers(first: 2) { totalCount } } => 2 2
{ a: allUsers(first: 1) { totalCount } b: allUsers(first: 1) { nodes { id } } } => 1 1
query($a: Int = 1, $b: Int = 1) { a: allUsers(first: $a) { totalCount } b: allUsers(first: $b) { totalCount } } => 2 2
query($a: Int = 1) { a: allUsers(first: $a) { totalCount } b: allUsers(first: $a) { nodes { id } } } => 1 1
{ a: allUsers(orderBy: [ID_ASC]) { totalCount } b: allUsers(orderBy: [ID_DESC]) { totalCount } } => 2 2
{ a: allUsers(orderBy: NATURAL) { totalCount } b: allUsers(orderBy: [NATURAL]) { totalCount } } => 1 1
{ a: allUsers(condition: {name: "Ann"}) { totalCount } b: allUsers(condition: {name: "Bob"}) { totalCount } } => 2 2
{ a: allUsers { totalCount } b: allUsers(first: null) { totalCount } } => 2 1
{ allUsers(first: -1) { totalCount } } => 1 0
{ userById(id: 9) { postsByAuthorId { totalCount } } } => 1 1
{ userById(id: 9) { postsByAuthorId(first: 1) { totalCount } } } => 2 1
{ userById(id: 1) { postsByAuthorId(first: 1) { totalCount } } } => 2 2
{ a: userById(id: 1) { name } b: userById(id: 2) { name } c: userById(id: 1) { email } } => 2 2
{ postById(id: 1) { userByAuthorId { postsByAuthorId(last: 1) { nodes { title } } } } } => 2 2
{ postById(id: 4) { userByAuthorId { postsByAuthorId(last: 1) { nodes { title } } } } } => 2 1
{ allUsers { nodes { a: postsByAuthorId { totalCount } b: postsByAuthorId { nodes { id } } } } } => 1 1
{ allUsers { nodes { a: postsByAuthorId(first: 1) { totalCount } b: postsByAuthorId(first: 1) { nodes { id } } } } } => 2 2
{ allUsers { nodes { a: postsByAuthorId(first: 1) { totalCount } b: postsByAuthorId(offset: 1) { totalCount } } } } => 3 3
{ allUsers { edges { node { postsByAuthorId(first: 1) { totalCount } } } nodes { postsByAuthorId(first: 1) { totalCount } } } } => 2 2
{ allUsers { nodes { postsByAuthorId(first: 1) { nodes { commentsByPostId(first: 1) { totalCount } } } } } } => 3 3
{ allUsers { nodes { postsByAuthorId(first: 1) { nodes { commentsByPostId { totalCount } } } } } } => 2 2
{ allUsers { nodes { postsByAuthorId(first: null) { totalCount } } } } => 1 1
{ allUsers { nodes { postsByAuthorId(first: -1) { totalCount } } } } => 2 1
{ allPosts { nodes { userByAuthorId { postsByAuthorId { nodes { userByAuthorId { name } } } } } } } => 1 1
{ commentById(id: 1) { postByPostId { userByAuthorId { name } } } } => 1 1
"##;

/// A document that takes two statements.
const TWO: &str =
    "{ allUsers { nodes { name postsByAuthorId(first: 2) { nodes { title } totalCount } } } }";

/// Its response where a call fails, and after that.
const AGAIN: &str = r##"{"errors":[{"message":"storage fault"}]}
{"data":{"allUsers":{"nodes":[{"name":"Ann","postsByAuthorId":{"nodes":[{"title":"A1"},{"title":"A2"}],"totalCount":3}},{"name":"Bob","postsByAuthorId":{"nodes":[{"title":"B1"}],"totalCount":1}}]}}}"##;

fn request_of(document: &str) -> Request<'_> {
    Request {
        document: document.as_bytes(),
        operation: None,
        variables: None,
    }
}

/// The number of statements that a document takes.
fn sent_for(alloc: Global, over: &Loaded, document: &str) -> Result<u64, Fail>
    requires { IsUsable (arc_value over.now.base) over.now.tables }
{
    let at = opened(alloc, over)?;
    let mut rows = MemRows::new(alloc);
    let request = request_of(document);
    let _answer = answer_over::<MemRows, Brand>(
        alloc,
        over,
        request,
        &at,
        &mut rows,
        Blank::new(1),
    )?;
    Ok(rows.sent())
}

/// What a document asks for.
#[derive(Drop)]
pub(crate) struct Wanted {
    pub tree: Tree,
    pub vars: Vars,
}

/// What a query asks for that isn't refused before it is executed.
pub(crate) fn tree_for(alloc: Global, over: &Loaded, document: &str) -> Result<Wanted, Fail>
    requires { IsUsable (arc_value over.now.base) over.now.tables }
    ensures { IfOk result (λ w. MayRespond (arc_value over.now.base) w.tree w.vars) }
{
    match prepare(alloc, &over.base, request_of(document))? {
        Prepared::Accepted(tree, vars) => Ok(Wanted { tree, vars }),
        Prepared::Refused(_) => Err("refused".into()),
    }
}

/// The number of statements that a document needs.
fn needed_for(alloc: Global, over: &Loaded, document: &str) -> Result<u64, Fail>
    requires { IsUsable (arc_value over.now.base) over.now.tables }
{
    let wanted = tree_for(alloc, over, document)?;
    Ok(needed(alloc, &over.base, &wanted.vars, &wanted.tree)?)
}

/// Nothing where a row tells the numbers of its document's statements, else the row and the numbers.
fn miscounted(alloc: Global, over: &Loaded, row: &str) -> Result<String, Fail>
    requires { IsUsable (arc_value over.now.base) over.now.tables }
{
    let (document, told) = row.split_once(" => ").ok_or("no arrow")?;
    let sent = sent_for(alloc, over, document)?;
    let needed = needed_for(alloc, over, document)?;
    let came = format!(in alloc; "{needed} {sent}")?;
    if came.as_str() == told {
        return Ok(String::new(alloc));
    }
    Ok(format!(in alloc; "\n{row}\n  came: {came}")?)
}

/// The responses to a document over a store of which the call of a number fails, asked twice.
fn asked_twice(alloc: Global, over: &Loaded, failing: u64) -> Result<String, Fail>
    requires { IsUsable (arc_value over.now.base) over.now.tables }
{
    let at = opened(alloc, over)?;
    let mut calls = Items::new(alloc);
    calls.push(failing)?;
    let mut rows = FaultyRows::new(MemRows::new(alloc), calls);
    let request = request_of(TWO);
    let first = answer_over::<FaultyRows, Brand>(
        alloc,
        over,
        request,
        &at,
        &mut rows,
        Blank::new(1),
    )?;
    let second = answer_over::<FaultyRows, Brand>(
        alloc,
        over,
        request,
        &at,
        &mut rows,
        Blank::new(1),
    )?;
    let first = str::from_utf8(first.bytes()).map_err(|_| "no text")?;
    let second = str::from_utf8(second.bytes()).map_err(|_| "no text")?;
    Ok(format!(in alloc; "{first}\n{second}")?)
}

#[test]
fn a_query_sends_few_statements(rt: HostRuntime) -> Result<(), Fail> {
    let alloc = rt.alloc();
    let over = loaded(alloc, BLOG)?;
    let mut told = String::new(alloc);
    for row in SENT.trim().lines() {
        let row = miscounted(alloc, &over, row)?;
        told.push_str(row.as_str())?;
    }
    assert_eq!(rt; told.as_str(), "");
    Ok(())
}

#[test]
fn a_store_that_fails_is_asked_again(rt: HostRuntime) -> Result<(), Fail> {
    let alloc = rt.alloc();
    let over = loaded(alloc, BLOG)?;
    let first = asked_twice(alloc, &over, 0)?;
    assert_eq!(rt; first.as_str(), AGAIN);
    let second = asked_twice(alloc, &over, 1)?;
    assert_eq!(rt; second.as_str(), AGAIN);
    Ok(())
}
