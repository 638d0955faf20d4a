//! Queries over a blog, and over a few rows of other scripts.

use crate::asking::{Around, WHOLE, differences};
use gql_vectors::{BLOG, FULL_NAME, GROUPS, NO_USERS};
use std::test::Fail;

/// Documents over the blog, their variables and their responses.
const ROWS: &str = r##"
{ allUsers { nodes { name postsByAuthorId { nodes { title commentsByPostId { nodes { body } } } } } } } => {"data":{"allUsers":{"nodes":[{"name":"Ann","postsByAuthorId":{"nodes":[{"title":"A1","commentsByPostId":{"nodes":[{"body":"c1"}]}},{"title":"A2","commentsByPostId":{"nodes":[]}},{"title":"A3","commentsByPostId":{"nodes":[{"body":"c2"}]}}]}},{"name":"Bob","postsByAuthorId":{"nodes":[{"title":"B1","commentsByPostId":{"nodes":[{"body":"c3"}]}}]}}]}}}
{ allUsers { nodes { name postsByAuthorId(first: 2) { nodes { title } totalCount } } } } => {"data":{"allUsers":{"nodes":[{"name":"Ann","postsByAuthorId":{"nodes":[{"title":"A1"},{"title":"A2"}],"totalCount":3}},{"name":"Bob","postsByAuthorId":{"nodes":[{"title":"B1"}],"totalCount":1}}]}}}
{ allPosts { nodes { title userByAuthorId { name } } } } => {"data":{"allPosts":{"nodes":[{"title":"A1","userByAuthorId":{"name":"Ann"}},{"title":"A2","userByAuthorId":{"name":"Ann"}},{"title":"A3","userByAuthorId":{"name":"Ann"}},{"title":"N","userByAuthorId":null},{"title":"B1","userByAuthorId":{"name":"Bob"}}]}}}
{ a: allUsers { nodes { name } } b: allUsers { totalCount } } => {"data":{"a":{"nodes":[{"name":"Ann"},{"name":"Bob"}]},"b":{"totalCount":2}}}
query($e: String) { allUsers(condition: {email: $e}) { nodes { name } } } => {"data":{"allUsers":{"nodes":[{"name":"Ann"},{"name":"Bob"}]}}}
query($e: String) { allUsers(condition: {email: $e}) { nodes { name } } } | {} => {"data":{"allUsers":{"nodes":[{"name":"Ann"},{"name":"Bob"}]}}}
query($e: String) { allUsers(condition: {email: $e}) { nodes { name } } } | {"e": null} => {"data":{"allUsers":{"nodes":[{"name":"Bob"}]}}}
query($e: String) { allUsers(condition: {email: $e}) { nodes { name } } } | {"e": "ann@x"} => {"data":{"allUsers":{"nodes":[{"name":"Ann"}]}}}
query($e: String) { allUsers(condition: {email: $e}) { nodes { name } } } | {"e": "zed"} => {"data":{"allUsers":{"nodes":[]}}}
{ allUsers { nodes { name postsByAuthorId(after: "W1siR19BU0MiXSxbMV0sMV0=") { totalCount } } } } => {"errors":[{"message":"cursor of another order","locations":[{"line":1,"column":27}],"path":["allUsers","nodes",0,"postsByAuthorId"]},{"message":"cursor of another order","locations":[{"line":1,"column":27}],"path":["allUsers","nodes",1,"postsByAuthorId"]}],"data":{"allUsers":{"nodes":[{"name":"Ann","postsByAuthorId":null},{"name":"Bob","postsByAuthorId":null}]}}}
{ allUsers(first: 0) { nodes { id } pageInfo { hasNextPage } } } => {"data":{"allUsers":{"nodes":[],"pageInfo":{"hasNextPage":true}}}}
{ allUsers(first: -1) { totalCount } } => {"errors":[{"message":"first is negative","locations":[{"line":1,"column":3}],"path":["allUsers"]}],"data":{"allUsers":null}}
{ allUsers(first: 2147483648) { totalCount } } => {"errors":[{"message":"rule 5.6.1: values of correct type","locations":[{"line":1,"column":19}]}]}
query($i: Int = 1) { userById(id: $i) { name } } | {"i":null} => {"errors":[{"message":"null for argument id","locations":[{"line":1,"column":22}],"path":["userById"]}],"data":{"userById":null}}
query($i: Int = 1) { userById(id: $i) { name } } => {"data":{"userById":{"name":"Ann"}}}
{ allUsers(orderBy: [EMAIL_DESC]) { nodes { name } } } => {"data":{"allUsers":{"nodes":[{"name":"Bob"},{"name":"Ann"}]}}}
{ allUsers(orderBy: [EMAIL_ASC]) { nodes { name email } } } => {"data":{"allUsers":{"nodes":[{"name":"Ann","email":"ann@x"},{"name":"Bob","email":null}]}}}
query Page($after: Cursor) {~  allPosts(first: 2, after: $after, orderBy: [TITLE_DESC]) {~    nodes { title userByAuthorId { name } }~    pageInfo { hasNextPage endCursor }~  }~} => {"data":{"allPosts":{"nodes":[{"title":"N","userByAuthorId":null},{"title":"B1","userByAuthorId":{"name":"Bob"}}],"pageInfo":{"hasNextPage":true,"endCursor":"W1siVElUTEVfREVTQyJdLFsiQjEiXSw1XQ=="}}}}
query Page($after: Cursor) { allPosts(first: 2, after: $after, orderBy: [TITLE_DESC]) { nodes { title } pageInfo { hasNextPage endCursor } } } | {"after": "W1siVElUTEVfREVTQyJdLFsiQjEiXSw1XQ=="} => {"data":{"allPosts":{"nodes":[{"title":"A3"},{"title":"A2"}],"pageInfo":{"hasNextPage":true,"endCursor":"W1siVElUTEVfREVTQyJdLFsiQTIiXSwyXQ=="}}}}
{ userById(id: 2) { id name email postsByAuthorId { nodes { title } } } } => {"data":{"userById":{"id":2,"name":"Bob","email":null,"postsByAuthorId":{"nodes":[{"title":"B1"}]}}}}
{ userById(id: 3) { id name email postsByAuthorId { nodes { title } } } } => {"data":{"userById":null}}
{ userByEmail(email: "ann@x") { id } none: userByEmail(email: "Ann@x") { id } postById(id: 4) { title userByAuthorId { id } } } => {"data":{"userByEmail":{"id":1},"none":null,"postById":{"title":"N","userByAuthorId":null}}}
{ allComments { nodes { body postByPostId { title userByAuthorId { name postsByAuthorId { totalCount } } } } } } => {"data":{"allComments":{"nodes":[{"body":"c1","postByPostId":{"title":"A1","userByAuthorId":{"name":"Ann","postsByAuthorId":{"totalCount":3}}}},{"body":"c2","postByPostId":{"title":"A3","userByAuthorId":{"name":"Ann","postsByAuthorId":{"totalCount":3}}}},{"body":"c3","postByPostId":{"title":"B1","userByAuthorId":{"name":"Bob","postsByAuthorId":{"totalCount":1}}}}]}}}
{ postById(id: 3) { commentsByPostId { edges { cursor node { body postByPostId { id } } } } } } => {"data":{"postById":{"commentsByPostId":{"edges":[{"cursor":"W1tdLFtdLDJd","node":{"body":"c2","postByPostId":{"id":3}}}]}}}}
{ allPosts(condition: {authorId: null}) { nodes { id authorId } totalCount } } => {"data":{"allPosts":{"nodes":[{"id":4,"authorId":null}],"totalCount":1}}}
{ allPosts(condition: {authorId: 1, title: "A2"}) { nodes { id } totalCount } } => {"data":{"allPosts":{"nodes":[{"id":2}],"totalCount":1}}}
query($x: Boolean!) { allUsers { nodes { name id @include(if: $x) } } } | {"x": true} => {"data":{"allUsers":{"nodes":[{"name":"Ann","id":1},{"name":"Bob","id":2}]}}}
query($x: Boolean!) { allUsers { nodes { name id @include(if: $x) } } } | {"x": false} => {"data":{"allUsers":{"nodes":[{"name":"Ann"},{"name":"Bob"}]}}}
mutation { createUser(input: {user: {name: "Cy"}}) { user { id name } } } => {"errors":[{"message":"mutations are not built"}]}
mutation M { a: createUser(input: {user: {name: "Cy"}}) { user { id } } b: deleteUserById(input: {id: 1}) { user { id } } } => {"errors":[{"message":"mutations are not built"}]}
mutation($n: String!) { createUser(input: {user: {name: $n}}) { user { id } } } => {"errors":[{"message":"mutations are not built"}]}
mutation { createUser(input: {user: {email: "e"}}) { user { id } } } => {"errors":[{"message":"rule 5.6.4: input object required fields","locations":[{"line":1,"column":37}]}]}
"##;

/// The same over a table without rows.
const ROWS_OF_NO_USERS: &str = r##"
{ allUsers { nodes { id } totalCount pageInfo { hasNextPage hasPreviousPage startCursor endCursor } } } => {"data":{"allUsers":{"nodes":[],"totalCount":0,"pageInfo":{"hasNextPage":false,"hasPreviousPage":false,"startCursor":null,"endCursor":null}}}}
{ allUsers(last: 2, orderBy: ID_DESC) { edges { cursor node { id } } totalCount pageInfo { hasNextPage hasPreviousPage startCursor endCursor } } userById(id: 1) { id } } => {"data":{"allUsers":{"edges":[],"totalCount":0,"pageInfo":{"hasNextPage":false,"hasPreviousPage":false,"startCursor":null,"endCursor":null}},"userById":null}}
"##;

/// The same over rows in two groups.
const ROWS_OF_GROUPS: &str = r##"
{ allTs(orderBy: [G_ASC], first: 2) { nodes { id } pageInfo { hasNextPage endCursor } } } => {"data":{"allTs":{"nodes":[{"id":12},{"id":10}],"pageInfo":{"hasNextPage":true,"endCursor":"W1siR19BU0MiXSxbMV0sMV0="}}}}
{ allTs(orderBy: [G_ASC], first: 2, after: "W1siR19BU0MiXSxbMV0sMV0=") { nodes { id } pageInfo { hasNextPage endCursor } } } => {"data":{"allTs":{"nodes":[{"id":11}],"pageInfo":{"hasNextPage":false,"endCursor":"W1siR19BU0MiXSxbMV0sMl0="}}}}
{ allTs(orderBy: [G_DESC], before: "W1siR19ERVNDIl0sWzBdLDNd") { nodes { id g } pageInfo { hasNextPage startCursor } } } => {"data":{"allTs":{"nodes":[{"id":10,"g":1},{"id":11,"g":1}],"pageInfo":{"hasNextPage":true,"startCursor":"W1siR19ERVNDIl0sWzFdLDFd"}}}}
"##;

/// The same over the blog, one of whose columns has another name.
const ROWS_OF_FULL_NAME: &str = r##"
{ userById(id: 1) { fullName __typename } } => {"data":{"userById":{"fullName":"Ann","__typename":"User"}}}
{ allUsers(condition: {fullName: "Bob"}, orderBy: FULL_NAME_DESC) { edges { cursor node { fullName } } } } => {"data":{"allUsers":{"edges":[{"cursor":"W1siRlVMTF9OQU1FX0RFU0MiXSxbIkJvYiJdLDJd","node":{"fullName":"Bob"}}]}}}
"##;

/// Three operations; the part that a row tells is a comment.
const OPERATIONS: Around = Around {
    opening: "query A($n: Int = 1) { allUsers(first: $n) { nodes { ...Who } } }
query B { allPosts(last: 1) { nodes { title userByAuthorId { ...Who } } } }
mutation C { deleteUserById(input: {id: 1}) { user { ...Who } } }
fragment Who on User { name email }
",
    closing: "",
};

/// The name of an operation, and the response to it.
const ROWS_OF_OPERATIONS: &str = r##"
# |  | A => {"data":{"allUsers":{"nodes":[{"name":"Ann","email":"ann@x"}]}}}
# |  | B => {"data":{"allPosts":{"nodes":[{"title":"B1","userByAuthorId":{"name":"Bob","email":null}}]}}}
# |  | C => {"errors":[{"message":"mutations are not built"}]}
# |  | D => {"errors":[{"message":"no such operation"}]}
"##;

#[test]
fn queries_over_a_blog_are_answered(rt: HostRuntime) -> Result<(), Fail> {
    let told = differences(rt.alloc(), BLOG, WHOLE, ROWS)?;
    assert_eq!(rt; told.as_str(), "");
    let told = differences(rt.alloc(), BLOG, OPERATIONS, ROWS_OF_OPERATIONS)?;
    assert_eq!(rt; told.as_str(), "");
    Ok(())
}

#[test]
fn queries_over_other_scripts_are_answered(rt: HostRuntime) -> Result<(), Fail> {
    let told = differences(rt.alloc(), NO_USERS, WHOLE, ROWS_OF_NO_USERS)?;
    assert_eq!(rt; told.as_str(), "");
    let told = differences(rt.alloc(), GROUPS, WHOLE, ROWS_OF_GROUPS)?;
    assert_eq!(rt; told.as_str(), "");
    let renamed = format!(in rt.alloc(); "{BLOG}{FULL_NAME}")?;
    let told = differences(rt.alloc(), renamed.as_str(), WHOLE, ROWS_OF_FULL_NAME)?;
    assert_eq!(rt; told.as_str(), "");
    Ok(())
}
