//! Large documents.

use crate::sample::sample_schema;
use gql_nodes::RuleError;
use gql_reader::read_document;
use gql_rules::check_document;
use pg_base::Schema;
use std::alloc::Global;
use std::test::Fail;

/// The parts, with one of them many times between the others.
fn repeated(
    alloc: Global,
    before: &str,
    part: &str,
    count: usize,
    after: &str,
) -> Result<String, Fail> {
    let mut text = String::new(alloc);
    text.push_str(before)?;
    for _ in 0..count {
        text.push_str(part)?;
    }
    text.push_str(after)?;
    Ok(text)
}

/// Fragments, in each of which the next one is spread twice.
fn chained(alloc: Global, count: usize) -> Result<String, Fail> {
    let mut text = String::new(alloc);
    text.push_str("{ ...F0 }")?;
    for at in 0..count {
        let inner = at + 1;
        write!(
            text,
            " fragment F{at} on Query {{ ...F{inner} ...F{inner} }}"
        )?;
    }
    write!(text, " fragment F{count} on Query {{ __typename }}")?;
    Ok(text)
}

/// Levels, in each of which the next one stands below two fields.
fn nested(alloc: Global, count: usize) -> Result<String, Fail> {
    let mut text = String::new(alloc);
    text.push_str("{ userById(id: 1) { ...L0 } }")?;
    for at in 0..count {
        let below = at + 1;
        write!(
            text,
            " fragment L{at} on User {{ a: userByBoss {{ ...L{below} }} b: userByBoss {{ ...L{below} }} }}"
        )?;
    }
    write!(text, " fragment L{count} on User {{ id }}")?;
    Ok(text)
}

/// Two equal fields whose argument holds an object in an object, and so on.
fn deep(alloc: Global, count: usize) -> Result<String, Fail> {
    let opened = repeated(alloc, "allUsers(condition: {id: ", "{a: ", count, "1")?;
    let field = repeated(alloc, opened.as_str(), "}", count, "}) { totalCount } ")?;
    repeated(alloc, "{ ", field.as_str(), 2, "}")
}

fn is_valid(alloc: Global, schema: &Schema, text: &str) -> Result<bool, Fail> {
    let document = read_document(alloc, text.as_bytes())?;
    Ok(check_document(alloc, schema, &document).is_ok())
}

#[test]
fn large_documents_are_valid(rt: HostRuntime) -> Result<(), Fail> {
    let alloc = rt.alloc();
    let schema = sample_schema(alloc)?;
    let many = repeated(alloc, "{ ", "allUsers { nodes { id } } ", 500, "}")?;
    assert!(rt; is_valid(alloc, &schema, many.as_str())?);
    let field = "allUsers(condition: {name: \"";
    let long = repeated(alloc, field, "abcdefghij", 10_000, "\"}) { totalCount } ")?;
    let twice = repeated(alloc, "{ ", long.as_str(), 2, "}")?;
    assert!(rt; is_valid(alloc, &schema, twice.as_str())?);
    let chain = chained(alloc, 60)?;
    assert!(rt; is_valid(alloc, &schema, chain.as_str())?);
    let levels = nested(alloc, 12)?;
    assert!(rt; is_valid(alloc, &schema, levels.as_str())?);
    Ok(())
}

#[test]
fn deep_values_are_compared(rt: HostRuntime) -> Result<(), Fail> {
    let alloc = rt.alloc();
    let schema = sample_schema(alloc)?;
    let text = deep(alloc, 58)?;
    let document = read_document(alloc, text.as_bytes())?;
    let Err(RuleError::Fault(fault)) = check_document(alloc, &schema, &document) else {
        return Err(Fail::from("valid"));
    };
    assert_eq!(rt; fault.rule, 18);
    assert_eq!(rt; fault.pos.column, 28);
    Ok(())
}
