use crate::sample::sample_schema;
use gql_nodes::RuleError;
use gql_reader::read_document;
use gql_validate::check_shapes;
use pg_base::Schema;
use std::alloc::Global;
use std::test::Fail;

/// Documents over the table of users, in the order of the rules: valid, or the number of the rule and where its first
/// node stands.
const TEXTS: &str = "\
{ __typename } type A { a: Int } => 1 at 1:16
query A { __typename } query A { __typename } => 2 at 1:24
query A { __typename } query B { __typename } query A { __typename } => 2 at 1:47
query A { __typename } fragment A on Query { __typename } => valid
{ __typename } query A { __typename } => 3 at 1:1
query A { __typename } { __typename } => 3 at 1:24
subscription { __typename } => 4 at 1:1
query A { __typename } subscription B { __typename } => 4 at 1:24
mutation { __typename } => valid
{ nope } => 5 at 1:3
{ allUsers { nodes { id nope } } } => 5 at 1:25
{ ... { nope } } => 5 at 1:9
{ ... on User { nope: id other } } => 5 at 1:26
fragment F on Nope { a } => valid
{ a: __typename a: allUsers { totalCount } } => 6 at 1:17
{ allUsers(first: 1) { totalCount } allUsers(first: 2) { totalCount } } => 6 at 1:37
{ allUsers(first: 1) { totalCount } allUsers { totalCount } } => 6 at 1:37
{ allUsers(first: 1, offset: 2) { totalCount } allUsers(offset: 2, first: 1) { totalCount } } => valid
{ allUsers(condition: {id: 1, name: \"x\"}) { totalCount } allUsers(condition: {name: \"x\", id: 1}) { totalCount } } => valid
{ allUsers(condition: {id: 1}) { totalCount } allUsers(condition: {id: 1, name: \"x\"}) { totalCount } } => 6 at 1:47
{ allUsers(orderBy: [ID_ASC, NAME_ASC]) { totalCount } allUsers(orderBy: [NAME_ASC, ID_ASC]) { totalCount } } => 6 at 1:56
{ allUsers(orderBy: [ID_ASC]) { totalCount } allUsers(orderBy: [ID_ASC, NAME_ASC]) { totalCount } } => 6 at 1:46
{ allUsers(orderBy: [ID_ASC, NAME_ASC]) { totalCount } allUsers(orderBy: [ID_ASC]) { totalCount } } => 6 at 1:56
{ allUsers { nodes { a: id } } allUsers { nodes { a: name } } } => 6 at 1:32
{ allUsers { nodes { a: id a: name } } } => 6 at 1:28
{ allUsers { totalCount } allUsers { x: totalCount x: nodes { id } } } => 6 at 1:27
{ allUsers allUsers { nodes { a: id a: name } } } => 6 at 1:37
{ ...F ...G } fragment F on Query { a: __typename } fragment G on Query { a: allUsers { totalCount } } => 6 at 1:75
{ ...F } fragment F on Query { a: __typename ...F a: allUsers { totalCount } } => 6 at 1:51
{ ...F } fragment F on Query { a: __typename ...G } fragment G on Query { a: allUsers { ...H } ...F } fragment H on UsersConnection { totalCount } => 6 at 1:75
{ ... { a: __typename } ... on Query { a: allUsers { totalCount } } } => 6 at 1:40
{ ...F } fragment F on Nope { a: b a: c } => valid
{ a: __typename ... on User { a: id } } => valid
{ allUsers } => 7 at 1:3
{ allUsers { totalCount { a } } } => 7 at 1:14
{ __typename { a } } => 7 at 1:3
{ allUsers(nope: 1) { totalCount } } => 8 at 1:12
{ __typename @skip(if: true, unless: false) } => 8 at 1:30
{ __typename @nope(a: 1) } => valid
{ allUsers(first: 1, first: 1) { totalCount } } => 9 at 1:22
{ __typename @nope(a: 1, a: 1) } => 9 at 1:26
{ userById { id } } => 10 at 1:3
{ userById(id: null) { id } } => 10 at 1:3
query Q($v: Int!) { userById(id: $v) { id } } => valid
{ __typename @skip } => 10 at 1:14
query Q($v: Int = 1 @include) { __typename } => 10 at 1:21
{ allUsers(nope: 1) { nope } } => 5 at 1:23
{ userById { id } allUsers(first: 1, first: 2) { totalCount } } => 9 at 1:38
subscription { a } query A { nope } query A { nope } => 2 at 1:37
schema { query: Query } => 1 at 1:1
extend type Query { a: Int } { __typename } => 1 at 1:1
{ __typename } \"what A is\" type A { a: Int } => 1 at 1:16
query A { __typename } query B { __typename } query B { __typename } query A { __typename } => 2 at 1:47
query A { __typename } mutation A { __typename } => 2 at 1:24
{ __typename } { __typename } => 3 at 1:1
subscription S { allUsers { totalCount } } fragment F on Query { __typename } => 4 at 1:1
mutation { allUsers { totalCount } } => 5 at 1:12
{ allUsers { pageInfo { next } } } => 5 at 1:25
{ ...F } fragment F on User { id age } => 5 at 1:34
{ ... on Nope { nope } nope } => 5 at 1:24
{ nope { nope } } => 5 at 1:3
{ __typename: allUsers { totalCount } __typename } => 6 at 1:39
query ($a: Int) { allUsers(first: $a) { totalCount } allUsers(first: 1) { totalCount } } => 6 at 1:54
query ($a: Int, $b: Int) { allUsers(first: $a) { totalCount } allUsers(first: $b) { totalCount } } => 6 at 1:63
query ($a: Int) { allUsers(first: $a) { totalCount } allUsers(first: $a) { totalCount } } => valid
{ allUsers(condition: {name: \"a\"}) { totalCount } allUsers(condition: {name: \"\"\"a\"\"\"}) { totalCount } } => valid
{ allUsers(first: 1) { totalCount } allUsers(first: 1e0) { totalCount } } => 6 at 1:37
{ allUsers(first: null) { totalCount } allUsers { totalCount } } => 6 at 1:40
{ allUsers(orderBy: [NATURAL]) { totalCount } allUsers(orderBy: NATURAL) { totalCount } } => 6 at 1:47
{ allUsers(orderBy: NATURAL) { totalCount } allUsers(orderBy: \"NATURAL\") { totalCount } } => 6 at 1:45
{ allUsers(condition: {id: 1}) { totalCount } allUsers(condition: {id: 2}) { totalCount } } => 6 at 1:47
{ ...F ...G } fragment G on Query { a: __typename } fragment F on Query { a: allUsers { totalCount } } => 6 at 1:75
{ allUsers { ...F } ...G } fragment F on UsersConnection { a: totalCount } fragment G on Query { allUsers { nodes { id } a: nodes { id } } } => 6 at 1:98
{ u: userById(id: 1) { ... { ... { a: id } } } u: userById(id: 1) { ... { a: name } } } => 6 at 1:48
{ u: userById(id: 1) { a: id } u: userById(id: 1) { a: id } u: userById(id: 1) { a: name } } => 6 at 1:61
{ u: userById(id: 1) { b: id } ...F ...G } fragment F on Query { u: userById(id: 1) { b: name } } fragment G on Query { u: userById(id: 1) { b: id } } => 6 at 1:66
{ u: userById(id: 1) { ...F a: id } v: userById(id: 1) { ...F a: name } } fragment F on User { name } => valid
{ a: userById(id: 1) { ...F x: id } b: userById(id: 2) { ...F x: name } } fragment F on User { id name } => valid
{ a: userById(id: 1) { ...F x: id } a: userById(id: 1) { ...F x: name x: id } } fragment F on User { id name } => 6 at 1:37
{ ...A ...B } fragment A on Query { ...B x: __typename } fragment B on Query { ...A x: __typename } => valid
{ ...A } fragment A on Query { ...B x: __typename } fragment B on Query { ...A x: allUsers { totalCount } } => 6 at 1:80
{ allUsers { nodes { id { x } } } } => 7 at 1:22
{ allUsers { nodes } } => 7 at 1:14
{ ... on User { name { length } } } => 7 at 1:17
mutation { createUser(input: {}) } => 7 at 1:12
{ userById(id: 1, name: \"a\") { id } } => 8 at 1:19
{ __typename @include(unless: true) } => 8 at 1:23
{ allUsers(limit: 1, size: 2) { totalCount } } => 8 at 1:12
{ allUsers(first: 1, last: 1, last: 2, first: 3) { totalCount } } => 9 at 1:31
{ __typename @skip(if: true, if: true) } => 9 at 1:30
{ __typename @include(if: null) } => 10 at 1:14
mutation { createUser { clientMutationId } } => 10 at 1:12
{ ...F @skip } fragment F on Query { __typename } => 10 at 1:8";

fn outcome_of(alloc: Global, schema: &Schema, text: &str) -> Result<String, Fail> {
    let mut outcome = String::new(alloc);
    match read_document(alloc, text.as_bytes()) {
        Err(_) => outcome.push_str("unread")?,
        Ok(document) => match check_shapes(alloc, schema, &document) {
            Ok(()) => outcome.push_str("valid")?,
            Err(RuleError::Memory) => outcome.push_str("no memory")?,
            Err(RuleError::Fault(fault)) => {
                write!(
                    outcome,
                    "{} at {}:{}",
                    fault.rule, fault.pos.line, fault.pos.column
                )?
            }
        },
    }
    Ok(outcome)
}

#[test]
fn documents_break_their_first_rule(rt: HostRuntime) -> Result<(), Fail> {
    let alloc = rt.alloc();
    let schema = sample_schema(alloc)?;
    for line in TEXTS.lines() {
        let (text, wanted) = line.split_once(" => ").ok_or("no row")?;
        let outcome = outcome_of(alloc, &schema, text)?;
        assert_eq!(rt; outcome.as_str(), wanted);
    }
    Ok(())
}
