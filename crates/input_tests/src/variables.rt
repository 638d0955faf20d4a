//! Variables, kind by kind and fault by fault.

use crate::sample::sample_schema;
use gql_input::{BodyError, VarError, chosen_operation, coerce_vars, read_variables};
use gql_reader::{Definition, Document, OperationDefinition, read_document};
use pg_base::{Member, Schema, Text, Value, Vars};
use std::alloc::Global;
use std::test::Fail;

/// `DOCUMENT | JSON => RESULT`: the variables that have an entry, or the number of a fault with the variable's column and
/// name.
const ROWS: &str = "\
query($a:Int){a} | {\"a\": 2147483647} => a=2147483647;
query($a:Int){a} | {\"a\": 2147483648} => 4 at 7 a
query($a:Int){a} | {\"a\": -2147483649} => 4 at 7 a
query($a:Int){a} | {\"a\": 9223372036854775808} => 3 at 7 a
query($a:Int){a} | {\"a\": 5.0} => 3 at 7 a
query($a:Int){a} | {\"a\": 1e2} => 3 at 7 a
query($a:Int){a} | {\"a\": \"1\"} => 3 at 7 a
query($a:Int){a} | {\"a\": null} => a=null;
query($a:Int){a} | {} => no entry
query($a:Int){a} | null => no entry
query($a:Int!){a} | {} => 1 at 7 a
query($a:Int!){a} | {\"a\": null} => 2 at 7 a
query($a:Int=7){a} | {} => a=7;
query($a:Int=7){a} | {\"a\": null} => a=null;
query($a:BigInt){a} | {\"a\": 9223372036854775807} => a=9223372036854775807;
query($a:BigInt){a} | {\"a\": \"-9223372036854775808\"} => a=-9223372036854775808;
query($a:BigInt){a} | {\"a\": \"9223372036854775808\"} => 4 at 7 a
query($a:BigInt){a} | {\"a\": \"01\"} => 3 at 7 a
query($a:BigInt=\"5\"){a} | {} => a=5;
query($a:String){a} | {\"a\": \"x\"} => a='x';
query($a:String){a} | {\"a\": 1} => 3 at 7 a
query($a:Cursor){a} | {\"a\": \"x\"} => a='x';
query($a:Boolean){a} | {\"a\": true} => a=true;
query($a:Boolean){a} | {\"a\": \"true\"} => 3 at 7 a
query($a:Mood){a} | {\"a\": \"OK\"} => a=OK;
query($a:Mood){a} | {\"a\": \"ok\"} => 3 at 7 a
query($a:Mood=SAD){a} | {} => a=SAD;
query($a:[Int]){a} | {\"a\": [1, null]} => a=[1;null;];
query($a:[Int!]){a} | {\"a\": [null]} => 2 at 7 a
query($a:[[Int]]=5){a} | {} => a=[[5;];];
query($a:[[Int]]){a} | {\"a\": [1, 2]} => a=[[1;];[2;];];
query($a:Int){a} | {\"a\": []} => 3 at 7 a
query($a:PersonInput){a} | {\"a\": {\"name\": \"x\", \"id\": \"1\"}} => a={id=1;name='x';};
query($a:PersonInput){a} | {\"a\": {\"id\": 1}} => 1 at 7 a
query($a:PersonInput){a} | {\"a\": {\"x\": 1, \"id\": null}} => 5 at 7 a
query($a:PersonInput){a} | {\"a\": {\"id\": null, \"n\": true}} => 2 at 7 a
query($a:PersonInput={name: \"x\", id: 1}){a} | {} => a={id=1;name='x';};
query($a:PersonInput){a} | {\"a\": 1} => 3 at 7 a
query($a:Int,$b:Int!){a} | {\"a\": true} => 3 at 7 a
query($b:Int!,$a:Int){a} | {\"a\": true} => 1 at 7 b
query($a:Int){a} | {\"z\": 1} => no entry
query($a:BigInt!){a} | {} => 1 at 7 a
query($a:BigInt!){a} | {\"a\": null} => 2 at 7 a
query($a:BigInt!){a} | {\"a\": true} => 3 at 7 a
query($a:BigInt!){a} | {\"a\": 1.5} => 3 at 7 a
query($a:BigInt!){a} | {\"a\": \"x\"} => 3 at 7 a
query($a:BigInt!){a} | {\"a\": \"1.0\"} => 3 at 7 a
query($a:BigInt!){a} | {\"a\": \"\"} => 3 at 7 a
query($a:BigInt!){a} | {\"a\": \"+1\"} => 3 at 7 a
query($a:BigInt!){a} | {\"a\": [1]} => 3 at 7 a
query($a:BigInt!){a} | {\"a\": 9223372036854775808} => 3 at 7 a
query($a:BigInt!){a} | {\"a\": \"-0\"} => a=0;
query($a:BigInt!){a} | {\"a\": \"-9223372036854775809\"} => 4 at 7 a
query($a:BigInt!){a} | {\"a\": -9223372036854775808} => a=-9223372036854775808;
query($a:String!){a} | {} => 1 at 7 a
query($a:String!){a} | {\"a\": null} => 2 at 7 a
query($a:String!){a} | {\"a\": true} => 3 at 7 a
query($a:String!){a} | {\"a\": []} => 3 at 7 a
query($a:String!){a} | {\"a\": {}} => 3 at 7 a
query($a:String!){a} | {\"a\": \"\"} => a='';
query($a:Cursor!){a} | {} => 1 at 7 a
query($a:Cursor!){a} | {\"a\": null} => 2 at 7 a
query($a:Cursor!){a} | {\"a\": 1} => 3 at 7 a
query($a:Cursor!){a} | {\"a\": [\"x\"]} => 3 at 7 a
query($a:Boolean!){a} | {} => 1 at 7 a
query($a:Boolean!){a} | {\"a\": null} => 2 at 7 a
query($a:Boolean!){a} | {\"a\": 0} => 3 at 7 a
query($a:Boolean!){a} | {\"a\": \"false\"} => 3 at 7 a
query($a:Boolean!){a} | {\"a\": [true]} => 3 at 7 a
query($a:Boolean!){a} | {\"a\": false} => a=false;
query($a:Mood!){a} | {} => 1 at 7 a
query($a:Mood!){a} | {\"a\": null} => 2 at 7 a
query($a:Mood!){a} | {\"a\": 1} => 3 at 7 a
query($a:Mood!){a} | {\"a\": true} => 3 at 7 a
query($a:Mood!){a} | {\"a\": \"happy\"} => 3 at 7 a
query($a:Mood!){a} | {\"a\": [\"OK\"]} => 3 at 7 a
query($a:Mood!){a} | {\"a\": \"SAD\"} => a=SAD;
query($a:[Int!]!){a} | {} => 1 at 7 a
query($a:[Int!]!){a} | {\"a\": null} => 2 at 7 a
query($a:[Int!]!){a} | {\"a\": true} => 3 at 7 a
query($a:[Int!]!){a} | {\"a\": \"1\"} => 3 at 7 a
query($a:[Int!]!){a} | {\"a\": [true]} => 3 at 7 a
query($a:[Int!]!){a} | {\"a\": {}} => 3 at 7 a
query($a:[Int!]!){a} | {\"a\": [1, null]} => 2 at 7 a
query($a:[Int!]!){a} | {\"a\": [1, 2147483648]} => 4 at 7 a
query($a:[Int!]!){a} | {\"a\": 5} => a=[5;];
query($a:[Int!]!){a} | {\"a\": []} => a=[];
query($a:PersonInput!){a} | {} => 1 at 7 a
query($a:PersonInput!){a} | {\"a\": null} => 2 at 7 a
query($a:PersonInput!){a} | {\"a\": []} => 3 at 7 a
query($a:PersonInput!){a} | {\"a\": \"x\"} => 3 at 7 a
query($a:PersonInput!){a} | {\"a\": true} => 3 at 7 a
query($a:PersonInput!){a} | {\"a\": {\"id\": 1, \"name\": \"x\", \"n\": 2147483648}} => 4 at 7 a
query($a:PersonInput!){a} | {\"a\": {\"id\": \"9223372036854775808\", \"name\": \"x\"}} => 4 at 7 a
query($a:PersonInput!){a} | {\"a\": {\"name\": null, \"id\": \"x\"}} => 3 at 7 a
query($a:PersonInput!){a} | {\"a\": {\"id\": 1, \"name\": \"x\", \"mood\": \"sad\"}} => 3 at 7 a
query($a:PersonInput!){a} | {\"a\": {\"flag\": true, \"n\": null, \"mood\": \"OK\", \"name\": \"x\", \"id\": 1}} => a={id=1;name='x';mood=OK;n=null;flag=true;};
query($a:PersonInput!){a} | {\"a\": {\"x\": 1}} => 5 at 7 a
query($a:PersonInput!){a} | {\"a\": {\"id\": true, \"Name\": \"x\"}} => 5 at 7 a
query($a:CreatePersonInput!){a} | {} => 1 at 7 a
query($a:CreatePersonInput!){a} | {\"a\": null} => 2 at 7 a
query($a:CreatePersonInput!){a} | {\"a\": 1} => 3 at 7 a
query($a:CreatePersonInput!){a} | {\"a\": {\"person\": {\"id\": 1}}} => 1 at 7 a
query($a:CreatePersonInput!){a} | {\"a\": {\"person\": null}} => 2 at 7 a
query($a:CreatePersonInput!){a} | {\"a\": {\"person\": 1}} => 3 at 7 a
query($a:CreatePersonInput!){a} | {\"a\": {\"person\": {\"id\": 1, \"name\": \"x\", \"q\": 1}}} => 5 at 7 a
query($a:CreatePersonInput!){a} | {\"a\": {\"person\": {\"id\": 1, \"name\": \"x\"}, \"q\": 1}} => 5 at 7 a
query($a:CreatePersonInput!){a} | {\"a\": {\"person\": {\"name\": \"x\", \"id\": 1}}} => a={person={id=1;name='x';};};
query($a:Int!=7){a} | {} => a=7;
query($a:Int!=7){a} | {\"a\": null} => 2 at 7 a
query($a:Int=null){a} | {} => a=null;
query($a:[Int]=5){a} | {} => a=[5;];
query($a:[Int]){a} | {\"a\": 1} => a=[1;];
query($a:[Int]){a} | {\"a\": null} => a=null;
query($a:[Mood]=[OK,null]){a} | {} => a=[OK;null;];
query($a:String=\"x\"){a} | {\"a\": null} => a=null;
query($a:Int!,$b:Int!){a} | {\"b\": null} => 1 at 7 a
query($a:Int,$b:Int){a} | {\"a\": 1, \"b\": 2} => a=1;b=2;
query($a:Int,$b:Int!){a} | {\"a\": 1} => 1 at 14 b
";

/// A text of the sample, which is ASCII.
fn put_text(out: &mut String, text: &Text) -> Result<(), Fail> {
    out.push_str(std::str::from_utf8(text.bytes())?)?;
    Ok(())
}

#[cycle(values)]
fn put_value(out: &mut String, value: &Value) -> Result<(), Fail> {
    match value {
        Value::Null => Ok(out.push_str("null")?),
        Value::Int(number) => Ok(write!(out, "{number}")?),
        Value::Bool(truth) => Ok(write!(out, "{truth}")?),
        Value::Text(text) => {
            out.push_str("'")?;
            put_text(out, text)?;
            Ok(out.push_str("'")?)
        }
        Value::Case(name) => put_text(out, name),
        Value::List(items) => put_items(out, items.as_slice()),
        Value::Object(members) => put_members(out, members.as_slice()),
    }
}

#[cycle(values)]
fn put_items(out: &mut String, items: &[Value]) -> Result<(), Fail> {
    out.push_str("[")?;
    for item in items {
        put_value(out, item)?;
        out.push_str(";")?;
    }
    Ok(out.push_str("]")?)
}

#[cycle(values)]
fn put_members(out: &mut String, members: &[Member]) -> Result<(), Fail> {
    out.push_str("{")?;
    for member in members {
        put_text(out, &member.name)?;
        out.push_str("=")?;
        put_value(out, &member.value)?;
        out.push_str(";")?;
    }
    Ok(out.push_str("}")?)
}

fn put_vars(out: &mut String, vars: &Vars) -> Result<(), Fail> {
    if vars.entries.is_empty() {
        out.push_str("no entry")?;
    }
    for entry in vars.entries.as_slice() {
        put_text(out, &entry.name)?;
        out.push_str("=")?;
        put_value(out, &entry.value)?;
        out.push_str(";")?;
    }
    Ok(())
}

fn operation_of(document: &Document) -> Option<&OperationDefinition> {
    let place = chosen_operation(document, None)?;
    match document.definitions.get(place)? {
        Definition::Operation(operation) => Some(operation),
        Definition::Fragment(_) => None,
        Definition::Foreign(_) => None,
    }
}

fn outcome_of(alloc: Global, schema: &Schema, document: &str, given: &str) -> Result<String, Fail> {
    let mut out = String::new(alloc);
    let document = read_document(alloc, document.as_bytes())?;
    let operation = operation_of(&document).ok_or("no operation")?;
    let given = read_variables(alloc, given.as_bytes())?;
    match coerce_vars(alloc, schema, operation, &given) {
        Ok(vars) => put_vars(&mut out, &vars)?,
        Err(VarError::Fault(fault)) => {
            write!(out, "{} at {} ", fault.which, fault.pos.column)?;
            put_text(&mut out, &fault.name)?;
        }
        Err(VarError::Memory) => out.push_str("no memory")?,
    }
    Ok(out)
}

#[test]
fn variables_are_read_or_have_one_fault(rt: HostRuntime) -> Result<(), Fail> {
    let schema = sample_schema(rt.alloc())?;
    for row in ROWS.lines() {
        let (asked, outcome) = row.split_once(" => ").ok_or("no row")?;
        let (document, given) = asked.split_once(" | ").ok_or("no variables")?;
        let read = outcome_of(rt.alloc(), &schema, document, given)?;
        assert_eq!(rt; read.as_str(), outcome);
    }
    Ok(())
}

/// What is no JSON object or null, or nests too deep.
const BODIES: [&[u8]; 6] = [b"", b"[]", b"1", b"{\"a\":}", b"{} x", b"\xff"];

#[test]
fn bodies_are_objects_or_null(rt: HostRuntime) -> Result<(), Fail> {
    for body in BODIES {
        let refused = matches!(
            read_variables(rt.alloc(), body),
            Err(BodyError::NoVariables)
        );
        assert!(rt; refused);
    }
    assert!(rt; read_variables(rt.alloc(), b" null ")?.is_null());
    Ok(())
}

fn place_of(alloc: Global, text: &str, name: &str) -> Result<Option<usize>, Fail> {
    let document = read_document(alloc, text.as_bytes())?;
    if name.is_empty() {
        return Ok(chosen_operation(&document, None));
    }
    let name = Text::of(alloc, name)?;
    Ok(chosen_operation(&document, Some(&name)))
}

#[test]
fn operations_are_chosen_by_name(rt: HostRuntime) -> Result<(), Fail> {
    let alloc = rt.alloc();
    assert_eq!(rt; place_of(alloc, "fragment F on Query{a}{a}", "")?, Some(1));
    assert_eq!(rt; place_of(alloc, "query A{a}query B{a}", "")?, None);
    assert_eq!(rt; place_of(alloc, "query A{a}query B{a}", "B")?, Some(1));
    assert_eq!(rt; place_of(alloc, "query A{a}", "B")?, None);
    Ok(())
}

fn repeated(alloc: Global, part: &str, count: usize) -> Result<String, Fail> {
    let mut text = String::new(alloc);
    for _ in 0..count {
        text.push_str(part)?;
    }
    Ok(text)
}

/// The parts, with the long text between them.
fn around(alloc: Global, before: &str, long: &str, after: &str) -> Result<String, Fail> {
    let mut text = String::new(alloc);
    text.push_str(before)?;
    text.push_str(long)?;
    text.push_str(after)?;
    Ok(text)
}

#[test]
fn long_texts_are_kept(rt: HostRuntime) -> Result<(), Fail> {
    let alloc = rt.alloc();
    let schema = sample_schema(alloc)?;
    let long = repeated(alloc, "abcdefghij", 10_000)?;
    let kept = around(alloc, "a='", long.as_str(), "';")?;
    let given = around(alloc, "{\"a\": \"", long.as_str(), "\"}")?;
    let read = outcome_of(alloc, &schema, "query($a:String){a}", given.as_str())?;
    assert!(rt; read.as_str() == kept.as_str());
    let document = around(alloc, "query($a:String=\"", long.as_str(), "\"){a}")?;
    let read = outcome_of(alloc, &schema, document.as_str(), "{}")?;
    assert!(rt; read.as_str() == kept.as_str());
    Ok(())
}
