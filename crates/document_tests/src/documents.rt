use gql_reader::{
    Definition, OperationKind, ReadFault, Selection, Type, ValueKind, laws, read_document,
};
use std::alloc::Global;
use std::test::Fail;

/// What is read of a text: a document, or a fault with its number, line and column.
fn outcome_of(alloc: Global, text: &str) -> Result<String, Fail> {
    let mut outcome = String::new(alloc);
    match read_document(alloc, text.as_bytes()) {
        Ok(_) => outcome.push_str("document")?,
        Err(ReadFault::At { which, pos }) => {
            write!(outcome, "{which} at {}:{}", pos.line, pos.column)?
        }
        Err(ReadFault::Memory) => outcome.push_str("no memory")?,
    }
    Ok(outcome)
}

/// In the order of the specification: operations (2.3), selections (2.4), fields (2.5), arguments (2.6), aliases (2.7),
/// fragments (2.8), values (2.9), variables (2.10), types (2.11), directives (2.12); then tokens and foreign definitions.
const TEXTS: &str = "\
{ me { name } } => document
query { me } => document
query Me { me } => document
mutation { like(story: 12345) { story { likes } } } => document
subscription Likes @live { likes } => document
query A { a } mutation B { b } { c } => document
query A B { a } => 2 at 1:9
query A => 2 at 1:8
mutate { a } => 2 at 1:1
{ a } a => 2 at 1:7
 => 2 at 1:1
# nothing\r => 2 at 2:1
{ a, b c\r{ d } } => document
{ query mutation on null fragment type } => document
{ => 2 at 1:2
{ } => 2 at 1:3
{ a => 2 at 1:4
{ a {} } => 2 at 1:6
{ a } } => 2 at 1:7
{ user(id: 4) { pic(width: 100, height: 50) } } => document
{ a() } => 2 at 1:5
{ a(b) } => 2 at 1:6
{ a(b: ) } => 2 at 1:8
{ a\r b( } => 2 at 2:5
query Q { a(b: 1, c) } => 2 at 1:20
{ small: pic(size: 64) big: pic(size: 1024) } => document
{ a: } ; => 2 at 1:6
{ a: b: c } => 2 at 1:7
{ ...F ... on T @i { a } ... @include(if: true) { b } ... { c } } fragment F on T @d { a } => document
fragment on on A { a } => 2 at 1:10
fragment F A { a } => 2 at 1:12
fragment F on A => 2 at 1:16
{ a ... on } => 2 at 1:12
{ ... } => 2 at 1:7
{ a(b: [1, -2.5e3, \"t\", true, null, RED, $v, [], {}, {c: {d: \"\"\"e\"\"\"}}]) } => document
{ a(b: [1) } => 2 at 1:10
{ a(b: {c 1}) } => 2 at 1:11
{ a(b: $1) } => 2 at 1:9
query Q($a: Int = 4 @d(e: 1), $b: [T!]! = [], $c: [[T]!]) { a(b: $a) } => document
query () { a } => 2 at 1:8
query ($a Int) { a } => 2 at 1:11
query ($a: Int = $b) { a } => 2 at 1:18
query ($a: Int = [$b]) { a } => 2 at 1:19
query ($a: Int @d(e: $b)) { a } => 2 at 1:22
query ($a: Int!!) { a } => 2 at 1:16
query ($a: [Int) { a } => 2 at 1:16
{ a @b @c(d: 1) { e } } => document
{ a @ } => 2 at 1:7
{ a ; } => 1 at 1:5
{ a(b: 01) } => 1 at 1:8
{ a(b: \"c) } => 1 at 1:8
{ a } type A { b [[[ => document
\"about\" } } } => document
extend schema => document
{ a } type A ; => 1 at 1:14
{ a } { b type => 2 at 1:15";

#[test]
fn texts_are_documents_or_have_one_fault(rt: HostRuntime) -> Result<(), Fail> {
    for row in TEXTS.lines() {
        let (text, outcome) = row.split_once(" => ").ok_or("no row")?;
        let read = outcome_of(rt.alloc(), text)?;
        assert_eq!(rt; read.as_str(), outcome);
    }
    Ok(())
}

#[test]
fn laws_are_called(_rt: HostRuntime) -> Result<(), Fail> {
    laws::text_has_one_document();
    laws::text_has_one_fault();
    laws::document_has_no_fault();
    laws::look_ahead_takes_nothing_away();
    Ok(())
}

#[test]
fn documents_are_read_with_all_their_parts(rt: HostRuntime) -> Result<(), Fail> {
    let text =
        b"query Q($n: [Int!]! = [1] @d) @e {\n  x: f(a: {b: \"t\"}, c: null) @g(h: 1.5) { ...F @i ... on T { y } }\n}\nfragment F on T { z(v: $n, w: RED) }\nextend type T";
    let document = read_document(rt.alloc(), text)?;
    let [
        Definition::Operation(operation),
        Definition::Fragment(fragment),
        Definition::Foreign(foreign),
    ] = document.definitions.as_slice()
    else {
        return Err("definitions".into());
    };
    assert_eq!(rt; operation.kind, OperationKind::Query);
    assert_eq!(rt; (operation.pos.line, operation.pos.column), (1, 1));
    assert_eq!(rt; (fragment.pos.line, fragment.pos.column), (4, 1));
    assert_eq!(rt; (foreign.line, foreign.column), (5, 1));
    assert_eq!(rt; fragment.type_condition.bytes(), b"T".as_slice());

    let [variable] = operation.variables.as_slice() else {
        return Err("variables".into());
    };
    assert_eq!(rt; variable.name.bytes(), b"n".as_slice());
    assert_eq!(rt; variable.pos.column, 9);
    assert!(rt; matches!(variable.ty, Type::List { non_null: true, .. }));
    assert_eq!(rt;
        (variable.directives.len(), operation.directives.len()),
        (1, 1)
    );

    let [Selection::Field(field)] = operation.selections.as_slice() else {
        return Err("selections".into());
    };
    assert_eq!(rt; field.name.bytes(), b"f".as_slice());
    assert_eq!(rt; (field.pos.line, field.pos.column), (2, 3));
    let [first, second] = field.arguments.as_slice() else {
        return Err("arguments".into());
    };
    assert_eq!(rt; (first.pos.column, first.value.pos.column), (8, 11));
    assert!(rt; matches!(first.value.kind, ValueKind::Object(_)));
    assert!(rt; matches!(second.value.kind, ValueKind::Null));

    let [
        Selection::FragmentSpread(spread),
        Selection::InlineFragment(inline),
    ] = field.selections.as_slice()
    else {
        return Err("inner selections".into());
    };
    assert_eq!(rt; (spread.pos.column, spread.directives.len()), (43, 1));
    assert_eq!(rt; (inline.pos.column, inline.selections.len()), (51, 1));
    Ok(())
}
