//! The limits of places, of visited rows and of a response's bytes.

use crate::asking::{WHOLE, differences};
use gql_vectors::BLOG;
use std::test::Fail;

/// Documents of about 60 kB over the blog: 40 users, each a place with 49 below it, and another selection.
const PLACES: &str = r##"
{<<0..40| user_#: userById(id: 1) {<(1..50| another_name_of_user_%: name)> }>> } => {"data":{<<0..1|"user_#":{"another_name_of_user_1":"Ann"<(2..50|,"another_name_of_user_%":"Ann")>}>><<1..40|,"user_#":{"another_name_of_user_1":"Ann"<(2..50|,"another_name_of_user_%":"Ann")>}>>}}
{<<0..40| user_#: userById(id: 1) {<(1..50| another_name_of_user_%: name)> }>> user_7: userById(id: 1) { another_name_of_user_7: name } } => {"data":{<<0..1|"user_#":{"another_name_of_user_1":"Ann"<(2..50|,"another_name_of_user_%":"Ann")>}>><<1..40|,"user_#":{"another_name_of_user_1":"Ann"<(2..50|,"another_name_of_user_%":"Ann")>}>>}}
{<<0..40| user_#: userById(id: 1) {<(1..50| another_name_of_user_%: name)> }>> __typename @skip(if: true) } => {"data":{<<0..1|"user_#":{"another_name_of_user_1":"Ann"<(2..50|,"another_name_of_user_%":"Ann")>}>><<1..40|,"user_#":{"another_name_of_user_1":"Ann"<(2..50|,"another_name_of_user_%":"Ann")>}>>}}
{<<0..40| user_#: userById(id: 1) {<(1..50| another_name_of_user_%: name)> }>> __typename } => {"errors":[{"message":"too many fields"}]}
"##;

/// A table of 200,001 rows, and one of a row that refers to itself.
const MANY_ROWS: &str = "\
CREATE TABLE one (id integer PRIMARY KEY, next integer REFERENCES one);
INSERT INTO one VALUES (1, 1);
CREATE TABLE t (id integer);
INSERT INTO t VALUES <<0..200000|(1), >>(1);
";

/// Documents over these tables.
const VISITS: &str = r##"
{ allTs { nodes { id } } } => {"errors":[{"message":"answer too large"}]}
{ allTs { totalCount } } => {"data":{"allTs":{"totalCount":200001}}}
{ a: allTs(first: 199999) { pageInfo { hasNextPage } } b: allTs(first: 1) { edges { node { id } } } c: allTs { totalCount } } => {"data":{"a":{"pageInfo":{"hasNextPage":true}},"b":{"edges":[{"node":{"id":1}}]},"c":{"totalCount":200001}}}
{ a: allTs(first: 199999) { pageInfo { hasNextPage } } b: allTs(first: 2) { edges { node { id } } } c: allTs { totalCount } } => {"errors":[{"message":"answer too large"}]}
{ a: allTs(first: 199998) { pageInfo { hasNextPage } } b: allTs(first: 2) { nodes { id } edges { node { id } } pageInfo { hasNextPage } } } => {"data":{"a":{"pageInfo":{"hasNextPage":true}},"b":{"nodes":[{"id":1},{"id":1}],"edges":[{"node":{"id":1}},{"node":{"id":1}}],"pageInfo":{"hasNextPage":true}}}}
{ a: allTs(first: 199999) { pageInfo { hasNextPage } } b: oneById(id: 1) { id } } => {"data":{"a":{"pageInfo":{"hasNextPage":true}},"b":{"id":1}}}
{ a: allTs(first: 200000) { pageInfo { hasNextPage } } b: oneById(id: 1) { id } } => {"errors":[{"message":"answer too large"}]}
{ a: allTs(first: 200000) { pageInfo { hasNextPage } } b: oneById(id: 2) { id } c: allTs(first: -1) { nodes { id } } } => {"errors":[{"message":"first is negative","locations":[{"line":1,"column":81}],"path":["c"]}],"data":{"a":{"pageInfo":{"hasNextPage":true}},"b":null,"c":null}}
{ a: allTs(first: 199998) { pageInfo { hasNextPage } } b: oneById(id: 1) { oneByNext { id } } } => {"data":{"a":{"pageInfo":{"hasNextPage":true}},"b":{"oneByNext":{"id":1}}}}
{ a: allTs(first: 199999) { pageInfo { hasNextPage } } b: oneById(id: 1) { oneByNext { id } } } => {"errors":[{"message":"answer too large"}]}
{ a: allTs(first: 199998) { pageInfo { hasNextPage } } b: oneById(id: 1) { onesByNext { nodes { id } } } } => {"data":{"a":{"pageInfo":{"hasNextPage":true}},"b":{"onesByNext":{"nodes":[{"id":1}]}}}}
{ allTs(first: 200000) { nodes { id } } } => {"data":{"allTs":{"nodes":[<<0..199999|{"id":1},>>{"id":1}]}}}
"##;

/// A row with a text of 1,048,566 letters.
const LONG_ROW: &str = "\
CREATE TABLE t (id integer PRIMARY KEY, s text);
INSERT INTO t VALUES (1, '<(0..104856|abcdefghij)>abcdef');
";

/// This text under 64 names, and the key under a name of 39 letters, which makes 67,108,864 bytes, or of 40.
const BYTES: &str = r##"
{ tById(id: 1) {<<10..74| a#: s>> kkkkkkkkkkkkkkkkkkkkkkkkkkkkkkkkkkkkkkk: id } } => {"data":{"tById":{<<10..74|"a#":"<(0..104856|abcdefghij)>abcdef",>>"kkkkkkkkkkkkkkkkkkkkkkkkkkkkkkkkkkkkkkk":1}}}
{ tById(id: 1) {<<10..74| a#: s>> kkkkkkkkkkkkkkkkkkkkkkkkkkkkkkkkkkkkkkkk: id } } => {"errors":[{"message":"answer too large"}]}
"##;

#[test]
fn a_tree_has_up_to_2000_places(rt: HostRuntime) -> Result<(), Fail> {
    let told = differences(rt.alloc(), BLOG, WHOLE, PLACES)?;
    assert_eq!(rt; told.as_str(), "");
    Ok(())
}

#[test]
fn up_to_200_000_rows_are_visited(rt: HostRuntime) -> Result<(), Fail> {
    let told = differences(rt.alloc(), MANY_ROWS, WHOLE, VISITS)?;
    assert_eq!(rt; told.as_str(), "");
    Ok(())
}

#[test]
fn a_response_has_up_to_64_mebibytes(rt: HostRuntime) -> Result<(), Fail> {
    let told = differences(rt.alloc(), LONG_ROW, WHOLE, BYTES)?;
    assert_eq!(rt; told.as_str(), "");
    Ok(())
}
