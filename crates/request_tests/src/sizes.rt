//! Long values and variables.

use crate::asking::{WHOLE, differences};
use gql_vectors::BLOG;
use std::test::Fail;

/// Three rows, one of which has a text of 102,000 letters.
const LONG: &str = "\
CREATE TABLE t (id integer PRIMARY KEY, stu text);
INSERT INTO t VALUES (1, NULL), (2, '<<0..34000|aaa>>'), (3, 'b');
";

/// This text shown, asked for and in a cursor, which is `[["STU_ASC"],["aa .. a"],2]`, and no text in the last one, which
/// is `[["STU_ASC"],[null],1]`.
const ROWS_OF_LONG: &str = r##"
query($s: String, $c: Cursor) { allTs(condition: {stu: $s}, orderBy: [STU_ASC], after: $c) { nodes { id stu } pageInfo { endCursor } } } | {"s": "<<0..34000|aaa>>"} => {"data":{"allTs":{"nodes":[{"id":2,"stu":"<<0..34000|aaa>>"}],"pageInfo":{"endCursor":"W1siU1RVX0FTQyJdLFsi<<0..34000|YWFh>>Il0sMl0="}}}}
query($s: String, $c: Cursor) { allTs(condition: {stu: $s}, orderBy: [STU_ASC], after: $c) { nodes { id stu } pageInfo { endCursor } } } | {"c": "W1siU1RVX0FTQyJdLFsi<<0..34000|YWFh>>Il0sMl0="} => {"data":{"allTs":{"nodes":[{"id":3,"stu":"b"},{"id":1,"stu":null}],"pageInfo":{"endCursor":"W1siU1RVX0FTQyJdLFtudWxsXSwxXQ=="}}}}
"##;

/// Variables of 900 kB.
const VARIABLES: &str = r##"
query($e: String) { allUsers(condition: {email: $e}) { nodes { name } } } | {"e": "<<0..90000|0123456789>>"} => {"data":{"allUsers":{"nodes":[]}}}
query($o: [UsersOrderBy!]) { allUsers(orderBy: $o) { nodes { name } } } | {"o": [<<0..90000|"NATURAL",>>"EMAIL_DESC"]} => {"data":{"allUsers":{"nodes":[{"name":"Bob"},{"name":"Ann"}]}}}
query($i: Int!) { userById(id: $i) { name } } | {"other": [<<0..90000|[11, { }],>>null], "i": 2} => {"data":{"userById":{"name":"Bob"}}}
"##;

#[test]
fn long_texts_and_variables_are_taken(rt: HostRuntime) -> Result<(), Fail> {
    let told = differences(rt.alloc(), LONG, WHOLE, ROWS_OF_LONG)?;
    assert_eq!(rt; told.as_str(), "");
    let told = differences(rt.alloc(), BLOG, WHOLE, VARIABLES)?;
    assert_eq!(rt; told.as_str(), "");
    Ok(())
}
