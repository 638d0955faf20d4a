//! All rules together: for each a document that breaks it and the same mended, and documents that break several.

use crate::sample::sample_schema;
use gql_nodes::RuleError;
use gql_reader::read_document;
use gql_rules::check_document;
use pg_base::Schema;
use std::alloc::Global;
use std::test::Fail;

/// `DOCUMENT => RESULT => MENDED`: the number of the broken rule with the line and column of its first node, and the same
/// document so that it is valid.
const EACH: &str = "\
{ __typename } type A { a: Int } => 1 at 1:16 => { __typename }
query A { __typename } query A { __typename } => 2 at 1:24 => query A { __typename } query B { __typename }
{ __typename } query A { __typename } => 3 at 1:1 => query B { __typename } query A { __typename }
subscription { __typename } => 4 at 1:1 => query { __typename }
{ allUsers { nodes { nam } } } => 5 at 1:22 => { allUsers { nodes { name } } }
{ a: userById(id: 1) { id } a: userById(id: 2) { id } } => 6 at 1:29 => { a: userById(id: 1) { id } b: userById(id: 2) { id } }
{ allUsers } => 7 at 1:3 => { allUsers { totalCount } }
{ allUsers(limit: 1) { totalCount } } => 8 at 1:12 => { allUsers(first: 1) { totalCount } }
{ allUsers(first: 1, first: 1) { totalCount } } => 9 at 1:22 => { allUsers(first: 1, last: 1) { totalCount } }
{ userById { id } } => 10 at 1:3 => { userById(id: 1) { id } }
{ ...F } fragment F on Query { __typename } fragment F on Query { __typename } => 11 at 1:45 => { ...F ...G } fragment F on Query { __typename } fragment G on Query { __typename }
{ ...F } fragment F on Nope { __typename } => 12 at 1:10 => { ...F } fragment F on Query { __typename }
{ ...F } fragment F on UsersOrderBy { __typename } => 13 at 1:10 => { ...F } fragment F on Query { __typename }
{ __typename } fragment F on Query { __typename } => 14 at 1:16 => { ...F } fragment F on Query { __typename }
{ ...F } => 15 at 1:3 => { ...F } fragment F on Query { __typename }
{ ...F } fragment F on Query { ...F } => 16 at 1:32 => { ...F } fragment F on Query { __typename }
{ allUsers { ...F } } fragment F on User { id } => 17 at 1:14 => { allUsers { nodes { ...F } } } fragment F on User { id }
{ userById(id: \"1\") { id } } => 18 at 1:16 => { userById(id: 1) { id } }
{ allUsers(condition: { age: 1 }) { totalCount } } => 19 at 1:25 => { allUsers(condition: { id: 1 }) { totalCount } }
{ allUsers(condition: { id: 1, id: 1 }) { totalCount } } => 20 at 1:32 => { allUsers(condition: { id: 1 }) { totalCount } }
mutation { createUser(input: { user: { id: 1 } }) { clientMutationId } } => 21 at 1:38 => mutation { createUser(input: { user: { id: 1, name: \"a\" } }) { clientMutationId } }
{ __typename @nope } => 22 at 1:14 => { __typename }
query @skip(if: true) { __typename } => 23 at 1:7 => query { __typename @skip(if: true) }
{ __typename @skip(if: true) @skip(if: true) } => 24 at 1:30 => { __typename @skip(if: true) @include(if: true) }
query ($a: Int, $a: Int) { allUsers(first: $a) { totalCount } } => 25 at 1:17 => query ($a: Int) { allUsers(first: $a) { totalCount } }
query ($a: User) { allUsers(first: $a) { totalCount } } => 26 at 1:8 => query ($a: Int) { allUsers(first: $a) { totalCount } }
{ allUsers(first: $a) { totalCount } } => 27 at 1:19 => query ($a: Int) { allUsers(first: $a) { totalCount } }
query ($a: Int) { __typename } => 28 at 1:8 => query ($a: Int) { allUsers(first: $a) { totalCount } }
query ($a: String) { allUsers(first: $a) { totalCount } } => 29 at 1:38 => query ($a: Int) { allUsers(first: $a) { totalCount } }";

/// `DOCUMENT => RESULT` of documents that break several rules, a later one mostly at an earlier node.
const SEVERAL: &str = "\
fragment F on Query { __typename } { __typename } scalar S => 1 at 1:51
query A { nope } query A { __typename } extend type Query { a: Int } => 1 at 1:41
query A($a: Int) { __typename } query A { __typename } => 2 at 1:33
{ __typename } query A { nope } subscription B { __typename } query A { __typename } => 2 at 1:63
query A { nope } { __typename } => 3 at 1:18
subscription S { __typename } { allUsers } => 3 at 1:31
query A { nope } subscription S { __typename } => 4 at 1:18
{ userById { nope } } => 5 at 1:14
{ allUsers(limit: 1) { totalCount } a: __typename a: allUsers { nope } } => 5 at 1:65
{ allUsers userById(id: 1) { id } userById(id: 2) { id } } => 6 at 1:35
{ userById { id } allUsers(limit: 1) { totalCount } allUsers { totalCount } } => 6 at 1:53
{ allUsers(limit: 1) { totalCount } userById(id: 1) } => 7 at 1:37
{ userById { id } allUsers(limit: 1) { totalCount } } => 8 at 1:28
{ userById { id } allUsers(first: 1, first: 1) { totalCount } } => 9 at 1:38
fragment F on Query { __typename } { userById { id } } => 10 at 1:38
fragment F on Nope { __typename } fragment F on Query { __typename } { ...F } => 11 at 1:35
{ __typename } fragment F on Query { __typename } fragment G on Nope { __typename } => 12 at 1:51
{ __typename } fragment F on Query { __typename } fragment G on UsersOrderBy { __typename } => 13 at 1:51
{ ...G ... on UsersOrderBy { __typename } } => 13 at 1:8
{ ...G } fragment F on Query { __typename } => 14 at 1:10
{ ...F } fragment F on Query { ...F ...G } => 15 at 1:37
{ ... on User { id } ...F } fragment F on Query { ...F } => 16 at 1:51
{ userById(id: true) { id } ... on User { id } } => 17 at 1:29
{ allUsers(condition: { age: 1 }, first: \"x\") { totalCount } } => 18 at 1:42
{ allUsers(condition: { id: 1, id: 1, age: 1 }) { totalCount } } => 19 at 1:39
mutation { createUser(input: { user: { id: 1, id: 1 } }) { clientMutationId } } => 20 at 1:47
mutation @nope { createUser(input: { user: { id: 1 } }) { clientMutationId } } => 21 at 1:44
query @skip(if: true) { __typename @nope } => 22 at 1:36
query A { __typename @skip(if: true) @skip(if: true) } query B @skip(if: true) { __typename } => 23 at 1:64
query ($a: Int, $a: Int) { allUsers(first: $a) { totalCount @skip(if: true) @skip(if: true) } } => 24 at 1:77
query ($b: User, $a: Int, $a: Int) { allUsers(first: $a) { totalCount } } => 25 at 1:27
query ($a: Int, $b: User) { __typename } => 26 at 1:17
query ($b: Int) { allUsers(first: $a) { totalCount } } => 27 at 1:35
{ allUsers(condition: {name: \"é\", age: 1}) { totalCount } } => 19 at 1:35
query A($a: String) { allUsers(first: $a) { totalCount } } query B($b: Int) { __typename } => 28 at 1:68
{ allUsers {\r  nodes { nope } } userById { id } } => 5 at 2:11";

fn outcome_of(alloc: Global, schema: &Schema, text: &str) -> Result<String, Fail> {
    let mut outcome = String::new(alloc);
    let document = read_document(alloc, text.as_bytes())?;
    match check_document(alloc, schema, &document) {
        Ok(()) => outcome.push_str("valid")?,
        Err(RuleError::Memory) => outcome.push_str("no memory")?,
        Err(RuleError::Fault(fault)) => {
            write!(
                outcome,
                "{} at {}:{}",
                fault.rule, fault.pos.line, fault.pos.column
            )?
        }
    }
    Ok(outcome)
}

#[test]
fn each_rule_is_broken_and_mended(rt: HostRuntime) -> Result<(), Fail> {
    let alloc = rt.alloc();
    let schema = sample_schema(alloc)?;
    for line in EACH.lines() {
        let (text, rest) = line.split_once(" => ").ok_or("no row")?;
        let (wanted, mended) = rest.split_once(" => ").ok_or("nothing mended")?;
        let outcome = outcome_of(alloc, &schema, text)?;
        assert_eq!(rt; outcome.as_str(), wanted);
        let outcome = outcome_of(alloc, &schema, mended)?;
        assert_eq!(rt; outcome.as_str(), "valid");
    }
    Ok(())
}

#[test]
fn the_least_broken_rule_is_told(rt: HostRuntime) -> Result<(), Fail> {
    let alloc = rt.alloc();
    let schema = sample_schema(alloc)?;
    for line in SEVERAL.lines() {
        let (text, wanted) = line.split_once(" => ").ok_or("no row")?;
        let outcome = outcome_of(alloc, &schema, text)?;
        assert_eq!(rt; outcome.as_str(), wanted);
    }
    Ok(())
}
