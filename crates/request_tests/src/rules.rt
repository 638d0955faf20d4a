//! Documents that break a rule: the whole response of each, over a blog and a workshop.

use crate::asking::{WHOLE, differences};
use crate::workshop::WORKSHOP;
use gql_vectors::BLOG;
use std::test::Fail;

/// A document for each rule, and the response.
const RULES: &str = r##"
{ allUsers { totalCount } } type T { a: Int } => {"errors":[{"message":"rule 5.1.1: executable definitions","locations":[{"line":1,"column":29}]}]}
query A { allUsers { totalCount } } query A { allPosts { totalCount } } => {"errors":[{"message":"rule 5.2.1.1: unique operation names","locations":[{"line":1,"column":37}]}]}
{ allUsers { totalCount } } query A { allPosts { totalCount } } => {"errors":[{"message":"rule 5.2.2.1: lone anonymous operation","locations":[{"line":1,"column":1}]}]}
subscription { allUsers { totalCount } } => {"errors":[{"message":"rule 5.2.3.1: single root field","locations":[{"line":1,"column":1}]}]}
{ allUsers { nodes { title } } } => {"errors":[{"message":"rule 5.3.1: field selections","locations":[{"line":1,"column":22}]}]}
{ userById(id: 1) { name } userById(id: 2) { name } } => {"errors":[{"message":"rule 5.3.2: field selection merging","locations":[{"line":1,"column":28}]}]}
{ allUsers } => {"errors":[{"message":"rule 5.3.3: leaf field selections","locations":[{"line":1,"column":3}]}]}
{ allUsers { totalCount { id } } } => {"errors":[{"message":"rule 5.3.3: leaf field selections","locations":[{"line":1,"column":14}]}]}
{ userById(id: 1, name: "Ann") { id } } => {"errors":[{"message":"rule 5.4.1: argument names","locations":[{"line":1,"column":19}]}]}
{ allUsers(first: 1, first: 1) { totalCount } } => {"errors":[{"message":"rule 5.4.2: argument uniqueness","locations":[{"line":1,"column":22}]}]}
{ userById { id } } => {"errors":[{"message":"rule 5.4.2.1: required arguments","locations":[{"line":1,"column":3}]}]}
{ ...F } fragment F on Query { allUsers { totalCount } } fragment F on Query { allPosts { totalCount } } => {"errors":[{"message":"rule 5.5.1.1: unique fragment names","locations":[{"line":1,"column":58}]}]}
{ allUsers { totalCount } ... on Users { __typename } } => {"errors":[{"message":"rule 5.5.1.2: fragment spread type existence","locations":[{"line":1,"column":27}]}]}
{ allUsers { totalCount } ... on UsersOrderBy { __typename } } => {"errors":[{"message":"rule 5.5.1.3: fragments on composite types","locations":[{"line":1,"column":27}]}]}
{ allUsers { totalCount } } fragment F on User { id } => {"errors":[{"message":"rule 5.5.1.4: fragments must be used","locations":[{"line":1,"column":29}]}]}
{ ...F } => {"errors":[{"message":"rule 5.5.2.1: fragment spread target defined","locations":[{"line":1,"column":3}]}]}
{ ...F } fragment F on Query { allUsers { totalCount } ...F } => {"errors":[{"message":"rule 5.5.2.2: fragment spreads must not form cycles","locations":[{"line":1,"column":56}]}]}
{ allUsers { ... on Post { id } } } => {"errors":[{"message":"rule 5.5.2.3: fragment spread is possible","locations":[{"line":1,"column":14}]}]}
{ allUsers(first: "1") { totalCount } } => {"errors":[{"message":"rule 5.6.1: values of correct type","locations":[{"line":1,"column":19}]}]}
{ allUsers(condition: {title: "A1"}) { totalCount } } => {"errors":[{"message":"rule 5.6.2: input object field names","locations":[{"line":1,"column":24}]}]}
{ allUsers(condition: {name: "Ann", name: "Ann"}) { totalCount } } => {"errors":[{"message":"rule 5.6.3: input object field uniqueness","locations":[{"line":1,"column":37}]}]}
mutation { createUser(input: {user: {email: "e"}}) { user { id } } } => {"errors":[{"message":"rule 5.6.4: input object required fields","locations":[{"line":1,"column":37}]}]}
{ allUsers @live { totalCount } } => {"errors":[{"message":"rule 5.7.1: directives are defined","locations":[{"line":1,"column":12}]}]}
query @skip(if: true) { allUsers { totalCount } } => {"errors":[{"message":"rule 5.7.2: directives are in valid locations","locations":[{"line":1,"column":7}]}]}
{ allUsers @skip(if: false) @skip(if: false) { totalCount } } => {"errors":[{"message":"rule 5.7.3: directives are unique per location","locations":[{"line":1,"column":29}]}]}
query($n: Int, $n: Int) { allUsers(first: $n) { totalCount } } => {"errors":[{"message":"rule 5.8.1: variable uniqueness","locations":[{"line":1,"column":16}]}]}
query($u: User) { allUsers { totalCount } } => {"errors":[{"message":"rule 5.8.2: variables are input types","locations":[{"line":1,"column":7}]}]}
{ allUsers(first: $n) { totalCount } } => {"errors":[{"message":"rule 5.8.3: all variable uses defined","locations":[{"line":1,"column":19}]}]}
query($n: Int) { allUsers { totalCount } } => {"errors":[{"message":"rule 5.8.4: all variables used","locations":[{"line":1,"column":7}]}]}
query($n: Int) { userById(id: $n) { name } } => {"errors":[{"message":"rule 5.8.5: all variable usages are allowed","locations":[{"line":1,"column":31}]}]}
"##;

/// Documents with fields of one response key that can't be joined, or can, and the responses.
const MERGING: &str = r##"
{ a: allTools(condition: {broken: true}) { totalCount } a: allTools(condition: {broken: false}) { totalCount } } => {"errors":[{"message":"rule 5.3.2: field selection merging","locations":[{"line":1,"column":57}]}]}
{ a: allTools(condition: {broken: null}) { totalCount } a: allTools(condition: {broken: false}) { totalCount } } => {"errors":[{"message":"rule 5.3.2: field selection merging","locations":[{"line":1,"column":57}]}]}
{ allTools(orderBy: [ID_ASC]) { totalCount } allTools(orderBy: [ID_ASC, LABEL_ASC]) { totalCount } } => {"errors":[{"message":"rule 5.3.2: field selection merging","locations":[{"line":1,"column":46}]}]}
{ allTools(orderBy: [ID_ASC, LABEL_ASC]) { totalCount } allTools(orderBy: [ID_ASC]) { totalCount } } => {"errors":[{"message":"rule 5.3.2: field selection merging","locations":[{"line":1,"column":57}]}]}
{ allTools(orderBy: [ID_ASC, LABEL_ASC]) { totalCount } allTools(orderBy: [LABEL_ASC, ID_ASC]) { totalCount } } => {"errors":[{"message":"rule 5.3.2: field selection merging","locations":[{"line":1,"column":57}]}]}
{ allTools(condition: {kind: HAND}) { totalCount } allTools(condition: {kind: HAND, broken: true}) { totalCount } } => {"errors":[{"message":"rule 5.3.2: field selection merging","locations":[{"line":1,"column":52}]}]}
{ allTools(condition: {weight: 3}) { totalCount } allTools(condition: {weight: "3"}) { totalCount } } => {"errors":[{"message":"rule 5.3.2: field selection merging","locations":[{"line":1,"column":51}]}]}
{ allTools(first: 1) { totalCount } allTools { totalCount } } => {"errors":[{"message":"rule 5.3.2: field selection merging","locations":[{"line":1,"column":37}]}]}
query($n: Int, $m: Int) { allTools(first: $n) { totalCount } allTools(first: $m) { totalCount } } => {"errors":[{"message":"rule 5.3.2: field selection merging","locations":[{"line":1,"column":62}]}]}
{ allTools(first: 0) { totalCount } allTools(first: -0) { totalCount } } => {"errors":[{"message":"rule 5.3.2: field selection merging","locations":[{"line":1,"column":37}]}]}
{ allTools { x: totalCount } allTools { x: pageInfo { hasNextPage } } } => {"errors":[{"message":"rule 5.3.2: field selection merging","locations":[{"line":1,"column":30}]}]}
{ allTools(first: 1, condition: {label: "saw", broken: true}) { totalCount } allTools(condition: {broken: true, label: "\u0073aw"}, first: 1) { nodes { id } } } => {"data":{"allTools":{"totalCount":1,"nodes":[{"id":"2"}]}}}
{ allTools(orderBy: [ID_DESC, LABEL_ASC], first: 1) { nodes { id } } ... on Query { allTools(first: 1, orderBy: [ID_DESC LABEL_ASC]) { nodes { kind } } } } => {"data":{"allTools":{"nodes":[{"id":"21","kind":"HAND"}]}}}
"##;

#[test]
fn each_rule_has_its_message(rt: HostRuntime) -> Result<(), Fail> {
    let told = differences(rt.alloc(), BLOG, WHOLE, RULES)?;
    assert_eq!(rt; told.as_str(), "");
    let told = differences(rt.alloc(), WORKSHOP, WHOLE, MERGING)?;
    assert_eq!(rt; told.as_str(), "");
    Ok(())
}
