//! Which variables share a plan: those that meet what is noted of the others.

use crate::drafts::{base_of, tree_of};
use gql_input::{coerce_vars, read_variables};
use gql_reader::{Definition, read_document};
use pg_base::{Base, Schema, Vars};
use plan_constraints::holds;
use std::alloc::Global;
use std::test::Fail;
use step_plan::noted;

const SCRIPT: &str = "CREATE TABLE users (id serial PRIMARY KEY, name text NOT NULL, email text);";

/// DOCUMENT | VARIABLES | OTHERS => whether a plan that is made with the variables serves the others.
const PAIRS: &str = r##"
query($n: Int) {allUsers(first: $n) {nodes {name}}} | {"n": 1} | {"n": 2} => shared
query($n: Int) {allUsers(first: $n) {nodes {name}}} | {"n": 1} | {} => apart
query($n: Int) {allUsers(first: $n) {nodes {name}}} | {"n": null} | {} => apart
query($n: Int) {allUsers(first: $n) {nodes {name}}} | {"n": 1} | {"n": null} => apart
query($n: Int = 3) {allUsers(first: $n) {nodes {name}}} | {} | {"n": 7} => shared
query($a: Cursor) {allUsers(after: $a) {totalCount}} | {"a": "x"} | {"a": "y"} => shared
query($x: Boolean!) {allUsers {nodes {name id @include(if: $x)}}} | {"x": true} | {"x": false} => apart
query($x: Boolean!) {allUsers {nodes {name id @include(if: $x)}}} | {"x": true} | {"x": true} => shared
query($s: Boolean = false, $n: Int) {allUsers(first: $n) @skip(if: $s) {totalCount}} | {"n": 1} | {"n": 2, "s": false} => shared
query($s: Boolean = false, $n: Int) {allUsers(first: $n) @skip(if: $s) {totalCount}} | {"s": true} | {"s": true, "n": 1} => shared
query($b: Boolean!, $c: Boolean!) {allUsers @skip(if: $b) @include(if: $c) {totalCount}} | {"b": true, "c": true} | {"b": true, "c": false} => shared
query($b: Boolean!, $c: Boolean!) {allUsers @skip(if: $b) @include(if: $c) {totalCount}} | {"b": false, "c": true} | {"b": false, "c": false} => apart
query($e: String) {allUsers(condition: {email: $e}) {totalCount}} | {} | {"e": null} => apart
query($e: String) {allUsers(condition: {email: $e}) {totalCount}} | {"e": null} | {"e": "a"} => apart
query($e: String) {allUsers(condition: {email: $e}) {totalCount}} | {"e": "a"} | {"e": "b"} => shared
query($c: UserCondition) {allUsers(condition: $c) {totalCount}} | {"c": {"name": "a"}} | {"c": {"name": "b"}} => shared
query($c: UserCondition) {allUsers(condition: $c) {totalCount}} | {"c": {"name": "a"}} | {"c": {"email": "a"}} => apart
query($c: UserCondition) {allUsers(condition: $c) {totalCount}} | {"c": {"name": "a", "email": "b"}} | {"c": {"email": "c", "name": "d"}} => shared
query($c: UserCondition) {allUsers(condition: $c) {totalCount}} | {"c": {"email": "a"}} | {"c": {"email": null}} => apart
query($c: UserCondition) {allUsers(condition: $c) {totalCount}} | {"c": {}} | {"c": null} => apart
query($o: [UsersOrderBy!]) {allUsers(orderBy: $o) {totalCount}} | {"o": ["ID_ASC"]} | {"o": ["ID_DESC"]} => apart
query($o: [UsersOrderBy!]) {allUsers(orderBy: $o) {totalCount}} | {"o": ["ID_ASC"]} | {"o": "ID_ASC"} => shared
query($o: UsersOrderBy!) {allUsers(orderBy: [NAME_ASC, $o]) {totalCount}} | {"o": "ID_ASC"} | {"o": "ID_DESC"} => apart
query($i: Int!) {userById(id: $i) {name}} | {"i": 1} | {"i": 2} => shared
query($i: Int = 1) {userById(id: $i) {name}} | {"i": 1} | {"i": null} => shared
query($n: Int) {__typename allUsers {totalCount}} | {"n": 1} | {} => shared
"##;

/// The values of the variables of a document's first operation.
fn values(alloc: Global, schema: &Schema, document: &str, given: &str) -> Result<Vars, Fail> {
    let Ok(document) = read_document(alloc, document.as_bytes()) else {
        return Err("no document".into());
    };
    let Ok(given) = read_variables(alloc, given.as_bytes()) else {
        return Err("no variables".into());
    };
    let Some(Definition::Operation(operation)) = document.definitions.get(0) else {
        return Err("no operation".into());
    };
    match coerce_vars(alloc, schema, operation, &given) {
        Ok(vars) => Ok(vars),
        Err(_) => Err("no values".into()),
    }
}

/// Whether a plan that is made with the variables serves the others.
fn shares(alloc: Global, base: &Base, asked: &str) -> Result<bool, Fail> {
    let (document, pair) = asked.split_once(" | ").ok_or("no variables")?;
    let (first, other) = pair.split_once(" | ").ok_or("no others")?;
    let first = values(alloc, base.schema(), document, first)?;
    let other = values(alloc, base.schema(), document, other)?;
    let tree = tree_of(alloc, base.schema(), document, &first)?;
    let constraints = noted(alloc, base, &first, &tree)?;
    Ok(holds(constraints.as_slice(), &other))
}

#[test]
fn variables_share_plans(rt: HostRuntime) -> Result<(), Fail> {
    let alloc = rt.alloc();
    let base = base_of(alloc, SCRIPT)?;
    let mut told = String::new(alloc);
    for row in PAIRS.trim().lines() {
        let (asked, due) = row.split_once(" => ").ok_or("no row")?;
        if shares(alloc, &base, asked)? != (due == "shared") {
            told.push_str("\n")?;
            told.push_str(row)?;
        }
    }
    assert_eq!(rt; told.as_str(), "");
    Ok(())
}
