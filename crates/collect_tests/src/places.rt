//! The places of documents.

use ddl_reader::read_script;
use gql_collect::{CollectFault, collect};
use gql_reader::read_document;
use pg_base::{Schema, Text, Value, Variable, Vars};
use place_tree::{Place, Tree};
use schema_build::build;
use sqlite_items::Items;
use std::alloc::{AllocError, Global};
use std::test::Fail;

const SCRIPT: &str = "CREATE TABLE users (id integer PRIMARY KEY, name text);";

/// DOCUMENT => PLACES, each with the number of the place above it, or `-`, its response key, the column of that key's
/// first field and the numbers of the arguments that are written, and then the variables that were asked. `$yes` is true,
/// `$no` is false, and `$other` isn't given.
const DOCUMENTS: &str = "\
{allUsers{nodes{id}}} => -allUsers@2 0nodes@11 1id@17
{a:allUsers{nodes{id}} a:allUsers{nodes{name id}totalCount}} => -a@2 0nodes@13 1id@19 1name@41 0totalCount@49
{b:__typename a:__typename b:__typename} => -b@2 -a@15
{...F ...F allUsers{totalCount}} fragment F on Query{__typename allUsers{nodes{id}}} fragment G on User{name} => -__typename@54 -allUsers@65 1nodes@74 2id@80 1totalCount@21
{...F} fragment F on Query{__typename ...F} => -__typename@28
{...on Query{__typename} ...on User{a:__typename} ...{b:__typename}} => -__typename@14 -b@55
{a:__typename@skip(if:true) b:__typename@include(if:false) c:__typename@skip(if:false)@include(if:true)} => -c@60
{a:__typename@include(if:$no)@skip(if:$yes)} => ?yes
{a:__typename@include(if:$no) b:__typename@skip(if:$no)@include(if:$yes) ...@skip(if:$other){c:__typename}} => -b@31 -c@94 ?no ?yes ?other
{allUsers(offset:2,first:1){totalCount}} => -allUsers@2(0)(2) 0totalCount@29
{userById(id:$no){id} nothing} => -userById@2(0) 0id@19";

fn put_place(alloc: Global, shown: &mut Vec<u8>, place: &Place) -> Result<(), Fail> {
    match place.parent {
        None => shown.push(b'-')?,
        Some(above) => shown.extend_from_slice(format!(in alloc; "{above}")?.as_bytes())?,
    }
    shown.extend_from_slice(place.key.bytes())?;
    let column = place.pos.column;
    shown.extend_from_slice(format!(in alloc; "@{column}")?.as_bytes())?;
    for arg in place.args.as_slice() {
        let number = arg.arg;
        shown.extend_from_slice(format!(in alloc; "({number})")?.as_bytes())?;
    }
    shown.push(b' ')?;
    Ok(())
}

fn shown(alloc: Global, tree: &Tree) -> Result<Vec<u8>, Fail> {
    let mut shown = Vec::new(alloc);
    for place in tree.places.as_slice() {
        put_place(alloc, &mut shown, place)?;
    }
    for name in tree.asked.as_slice() {
        shown.push(b'?')?;
        shown.extend_from_slice(name.bytes())?;
        shown.push(b' ')?;
    }
    Ok(shown)
}

fn variables(alloc: Global) -> Result<Vars, AllocError> {
    let mut entries = Items::new(alloc);
    entries.push(Variable {
        name: Text::of(alloc, "yes")?,
        value: Value::Bool(true),
    })?;
    entries.push(Variable {
        name: Text::of(alloc, "no")?,
        value: Value::Bool(false),
    })?;
    Ok(Vars { entries })
}

fn schema_of(alloc: Global, script: &str) -> Result<Schema, Fail> {
    let Ok(script) = read_script(alloc, script.as_bytes()) else {
        return Err("no script".into());
    };
    match build(alloc, &script.catalog) {
        Ok(schema) => Ok(schema),
        Err(_) => Err("no schema".into()),
    }
}

/// The tree of a document's first operation, and none where it has too many places.
fn tree_of(alloc: Global, schema: &Schema, document: &str) -> Result<Option<Tree>, Fail> {
    let Ok(document) = read_document(alloc, document.as_bytes()) else {
        return Err("no document".into());
    };
    match collect(alloc, schema, &document, 0, &variables(alloc)?) {
        Ok(tree) => Ok(Some(tree)),
        Err(CollectFault::TooMany) => Ok(None),
        Err(CollectFault::Memory) => Err("no memory".into()),
    }
}

#[test]
fn documents_have_these_places(rt: HostRuntime) -> Result<(), Fail> {
    let schema = schema_of(rt.alloc(), SCRIPT)?;
    for row in DOCUMENTS.lines() {
        let (document, due) = row.split_once(" => ").ok_or("no row")?;
        let tree = tree_of(rt.alloc(), &schema, document)?.ok_or("no tree")?;
        let shown = shown(rt.alloc(), &tree)?;
        let places = str::from_utf8(shown.as_slice()).ok().ok_or("no text")?;
        assert_eq!(rt; places.trim_end(), due);
    }
    Ok(())
}

/// `{k0:__typename k1:__typename ..}`, with so many keys.
fn wide(alloc: Global, keys: u32) -> Result<String, AllocError> {
    let mut document = String::new(alloc);
    document.push_str("{")?;
    for key in 0..keys {
        document.push_str(format!(in alloc; "k{key}:__typename ")?.as_str())?;
    }
    document.push_str("}")?;
    Ok(document)
}

#[test]
fn a_tree_has_at_most_2000_places(rt: HostRuntime) -> Result<(), Fail> {
    let schema = schema_of(rt.alloc(), SCRIPT)?;
    let all = wide(rt.alloc(), 2000)?;
    let tree = tree_of(rt.alloc(), &schema, all.as_str())?.ok_or("no tree")?;
    assert_eq!(rt; tree.places.len(), 2000);
    let more = wide(rt.alloc(), 2001)?;
    assert!(rt; tree_of(rt.alloc(), &schema, more.as_str())?.is_none());
    let same = "__typename ".repeat(rt.alloc(), 8190)?;
    let same = format!(in rt.alloc(); "{{{same}}}")?;
    let tree = tree_of(rt.alloc(), &schema, same.as_str())?.ok_or("no tree")?;
    assert_eq!(rt; tree.places.len(), 1);
    Ok(())
}
