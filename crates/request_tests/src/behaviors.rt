//! Conditions and orders of a table some of whose columns are left out of them.

use crate::asking::{WHOLE, differences};
use std::test::Fail;

/// Three rows. The first column is in no condition, the second in no order, and the last is no field.
const SCRIPT: &str = "\
CREATE TABLE t (id integer PRIMARY KEY, a text, b text, c boolean);
COMMENT ON COLUMN t.id IS '@behavior -filter';
COMMENT ON COLUMN t.a IS '@behavior -order';
COMMENT ON COLUMN t.c IS '@behavior -select';
INSERT INTO t VALUES (1, 'x', 'y', TRUE), (2, 'y', 'x', FALSE), (3, NULL, 'x', NULL);
";

/// Documents and their responses.
const ROWS: &str = r##"
{ allTs(condition: {a: "x"}) { nodes { id } } } => {"data":{"allTs":{"nodes":[{"id":1}]}}}
{ allTs(condition: {b: "x"}) { nodes { id } } } => {"data":{"allTs":{"nodes":[{"id":2},{"id":3}]}}}
{ allTs(condition: {c: false}) { nodes { id } } } => {"data":{"allTs":{"nodes":[{"id":2}]}}}
{ allTs(condition: {c: null, b: "x", a: null}) { nodes { id a b } } } => {"data":{"allTs":{"nodes":[{"id":3,"a":null,"b":"x"}]}}}
{ allTs(orderBy: [B_ASC]) { edges { cursor node { id } } } } => {"data":{"allTs":{"edges":[{"cursor":"W1siQl9BU0MiXSxbIngiXSwyXQ==","node":{"id":2}},{"cursor":"W1siQl9BU0MiXSxbIngiXSwzXQ==","node":{"id":3}},{"cursor":"W1siQl9BU0MiXSxbInkiXSwxXQ==","node":{"id":1}}]}}}
{ allTs(orderBy: [B_DESC, ID_DESC]) { edges { cursor node { id } } } } => {"data":{"allTs":{"edges":[{"cursor":"W1siQl9ERVNDIiwiSURfREVTQyJdLFsieSIsMV0sMV0=","node":{"id":1}},{"cursor":"W1siQl9ERVNDIiwiSURfREVTQyJdLFsieCIsM10sM10=","node":{"id":3}},{"cursor":"W1siQl9ERVNDIiwiSURfREVTQyJdLFsieCIsMl0sMl0=","node":{"id":2}}]}}}
{ allTs(orderBy: [C_DESC]) { edges { cursor node { id } } } } => {"data":{"allTs":{"edges":[{"cursor":"W1siQ19ERVNDIl0sW251bGxdLDNd","node":{"id":3}},{"cursor":"W1siQ19ERVNDIl0sW3RydWVdLDFd","node":{"id":1}},{"cursor":"W1siQ19ERVNDIl0sW2ZhbHNlXSwyXQ==","node":{"id":2}}]}}}
{ allTs(orderBy: [C_ASC, B_ASC], after: "W1siQ19BU0MiLCJCX0FTQyJdLFtmYWxzZSwieCJdLDJd") { nodes { id b } pageInfo { endCursor } } } => {"data":{"allTs":{"nodes":[{"id":1,"b":"y"},{"id":3,"b":"x"}],"pageInfo":{"endCursor":"W1siQ19BU0MiLCJCX0FTQyJdLFtudWxsLCJ4Il0sM10="}}}}
{ allTs(condition: {id: 1}) { nodes { id } } } => {"errors":[{"message":"rule 5.6.2: input object field names","locations":[{"line":1,"column":21}]}]}
{ allTs(orderBy: [A_ASC]) { nodes { id } } } => {"errors":[{"message":"rule 5.6.1: values of correct type","locations":[{"line":1,"column":19}]}]}
"##;

#[test]
fn columns_are_found_by_their_names(rt: HostRuntime) -> Result<(), Fail> {
    let told = differences(rt.alloc(), SCRIPT, WHOLE, ROWS)?;
    assert_eq!(rt; told.as_str(), "");
    Ok(())
}
