//! Documents that break one of the rules on fragments, values, directives and variables, and the same mended.

use crate::sample::sample_schema;
use gql_nodes::RuleError;
use gql_reader::read_document;
use gql_scopes::check_scopes;
use pg_base::Schema;
use std::alloc::Global;
use std::test::Fail;

/// `DOCUMENT => RESULT`: the least rule that is broken, with the column of its first node.
const ROWS: &str = "\
{...F}fragment F on Query{__typename}fragment F on Query{__typename} => 11 at 38
{...F}fragment F on Nothing{__typename} => 12 at 7
{... on Nothing{__typename}} => 12 at 2
{...F}fragment F on Mood{__typename} => 13 at 7
{... on Int{__typename}} => 13 at 2
{__typename}fragment F on Query{__typename} => 14 at 13
{...F} => 15 at 2
{__typename @nothing ...F} => 15 at 22
{...F}fragment F on Query{...F} => 16 at 27
{...F}fragment F on Query{...G}fragment G on Query{...F} => 16 at 27
{...F ...G}fragment F on Query{...G}fragment G on Query{...H}fragment H on Query{...G} => 16 at 57
{__typename}fragment F on Query{...F} => 16 at 33
{__typename}fragment F on Query{...G}fragment G on Query{...F} => 16 at 33
{...F}fragment F on Query{...G}fragment G on Query{...H}fragment H on Query{...H} => 16 at 77
{... on Person{__typename}} => 17 at 2
{...F}fragment F on Person{__typename} => 17 at 2
{allPeople{nodes{...F}}}fragment F on Person{name} => kept
{... on Query{__typename}... {__typename}} => kept
{personById(id:true){name}} => 18 at 16
{personById(id:null){name}} => 18 at 16
{allPeople(first:2147483648){totalCount}} => 18 at 18
{allPeople(first:2147483647){totalCount}} => kept
{allPeople(first:1.5){totalCount}} => 18 at 18
{allPeople(orderBy:\"NATURAL\"){totalCount}} => 18 at 20
{allPeople(orderBy:NATURAL){totalCount}} => kept
{allPeople(orderBy:[NATURAL]){totalCount}} => kept
{allPeople(orderBy:[NATURAL,NOTHING]){totalCount}} => 18 at 29
{allPeople(orderBy:[null]){totalCount}} => 18 at 21
{personById(id:\"01\"){name}} => 18 at 16
{personById(id:\"1\"){name}} => kept
{personById(id:9223372036854775808){name}} => 18 at 16
{allPeople(first:{}){totalCount}} => 18 at 18
{allPeople(first:[1]){totalCount}} => 18 at 18
{allPeople(condition:{n:\"x\"}){totalCount}} => 18 at 25
query($a:Int=\"x\"){allPeople(first:$a){totalCount}} => 18 at 14
{allPeople(condition:{z:1}){totalCount}} => 19 at 23
{allPeople(condition:{n:1,n:2}){totalCount}} => 20 at 27
mutation{createPerson(input:{person:{id:1}}){__typename}} => 21 at 37
mutation{createPerson(input:{person:{id:1,name:null}}){__typename}} => 18 at 48
mutation{createPerson(input:{person:{id:1,name:\"x\"}}){__typename}} => kept
{__typename@nothing} => 22 at 12
query @skip(if:true){__typename} => 23 at 7
query($a:Int@skip(if:true)){allPeople(first:$a){totalCount}} => 23 at 13
{__typename@skip(if:true)@skip(if:false)} => 24 at 26
{__typename@skip(if:true)@include(if:true)} => kept
query($a:Int,$a:Int){allPeople(first:$a){totalCount}} => 25 at 14
query($a:Person){__typename} => 26 at 7
query($a:[Nothing]){__typename} => 26 at 7
{allPeople(first:$a){totalCount}} => 27 at 18
query A($a:Int){...F}query B{...F}fragment F on Query{allPeople(first:$a){totalCount}} => 27 at 71
query($a:Int){__typename} => 28 at 7
query A($a:Int){__typename}query B($a:Int){allPeople(first:$a){totalCount}} => 28 at 9
query($a:Int){...F}fragment F on Query{allPeople(first:$a){totalCount}} => kept
query($a:String){allPeople(first:$a){totalCount}} => 29 at 34
query($a:BigInt){personById(id:$a){name}} => 29 at 32
query($a:BigInt!){personById(id:$a){name}} => kept
query($a:BigInt=1){personById(id:$a){name}} => kept
query($a:BigInt=null){personById(id:$a){name}} => 29 at 37
query($a:[Int]){allPeople(first:$a){totalCount}} => 29 at 33
query($a:PeopleOrderBy){allPeople(orderBy:$a){totalCount}} => 29 at 43
query($a:[PeopleOrderBy!]){allPeople(orderBy:$a){totalCount}} => kept
query($a:[PeopleOrderBy]){allPeople(orderBy:$a){totalCount}} => 29 at 45
query($a:[PeopleOrderBy]=[NATURAL]){allPeople(orderBy:$a){totalCount}} => 29 at 55
query($a:[[PeopleOrderBy!]!]){allPeople(orderBy:$a){totalCount}} => 29 at 49
query A($a:Int){...F}query B($a:String){...F}fragment F on Query{allPeople(first:$a){totalCount}} => 29 at 82
";

fn outcome_of(alloc: Global, schema: &Schema, text: &str) -> Result<String, Fail> {
    let mut out = String::new(alloc);
    let document = read_document(alloc, text.as_bytes())?;
    match check_scopes(alloc, schema, &document) {
        Ok(()) => out.push_str("kept")?,
        Err(RuleError::Fault(fault)) => write!(out, "{} at {}", fault.rule, fault.pos.column)?,
        Err(RuleError::Memory) => out.push_str("no memory")?,
    }
    Ok(out)
}

#[test]
fn documents_keep_rules_or_have_one_fault(rt: HostRuntime) -> Result<(), Fail> {
    let schema = sample_schema(rt.alloc())?;
    for row in ROWS.lines() {
        let (text, outcome) = row.split_once(" => ").ok_or("no row")?;
        let found = outcome_of(rt.alloc(), &schema, text)?;
        assert_eq!(rt; found.as_str(), outcome, "{text}");
    }
    Ok(())
}
