//! The plans of documents.

use ddl_reader::read_script;
use gql_collect::collect;
use gql_reader::read_document;
use pg_base::{Base, Cell, Schema, Text, Value, Variable, Vars};
use place_tree::Tree;
use plan_constraints::Part;
use plan_steps::{FetchStep, Layer, OutPlace, Plan, Slot, Step};
use schema_build::build;
use sqlite_items::Items;
use std::alloc::{AllocError, Global};
use std::test::Fail;
use step_plan::drafted;

const SCRIPT: &str = "\
CREATE TABLE users (id integer PRIMARY KEY, name text);
CREATE TABLE posts (id integer PRIMARY KEY, author integer NOT NULL REFERENCES users (id), title text);";

/// DOCUMENT => STEPS | LAYERS | PLACES. A fetch is `f`, its table and the step of its parent, with `!` where it asks for
/// rows, then its key, condition and window; an Item is `i` and its fetch, a cell `c`, its Item and its column, a count
/// `n` and its fetch, a part of a page `p`, its fetch and its number, a cursor `m` and its Item, a constant `k`, a variable
/// `v`, a row that a mutation gave `g`. A layer is the fetch that it stands over, or `-`, and its steps; a place is the
/// step that it shows, and the layer. `$one` is 1.
const DOCUMENTS: &str = "\
{allUsers{nodes{id name}}} => f0! i0 c1.0 c1.1 | -:0 0:1,2,3 | 0@0 0@0 2@1 3@1
{allUsers{totalCount}} => f0 n0 | -:0,1 | 0@0 1@0
{__typename allPosts{pageInfo{hasNextPage endCursor}}} => k f1! p1.0 p1.3 | -:0,1,2,3 | 0@0 1@0 1@0 2@0 3@0
{allPosts{edges{cursor node{userByAuthor{name}}}}} => f1! i0 m1 f0^1! i3 c4.1 | -:0 0:1,2,3 3:4,5 | 0@0 0@0 2@1 1@1 3@1 5@2
{userById(id:3){postsByAuthor(first:$one){nodes{title}}}} => f0!(3) i0 f1^1!{$one} i2 c3.2 | -:0 0:1,2 2:3,4 | 0@0 2@1 2@1 4@2
{allPosts(condition:{author:$one}){totalCount}} => f1[1=$one] n0 | -:0,1 | 0@0 1@0
mutation{createUser(input:{clientMutationId:\"a\",user:{id:4}}){clientMutationId user{id}}} => g k c0.0 | -:0,1,2 | 0@0 1@0 0@0 2@0";

fn put(shown: &mut Vec<u8>, text: &str) -> Result<(), Fail> {
    shown.extend_from_slice(text.as_bytes())?;
    Ok(())
}

fn put_number(alloc: Global, shown: &mut Vec<u8>, number: u32) -> Result<(), Fail> {
    shown.extend_from_slice(format!(in alloc; "{number}")?.as_bytes())?;
    Ok(())
}

fn put_numbers(alloc: Global, shown: &mut Vec<u8>, numbers: &[u32]) -> Result<(), Fail> {
    for i in 0..numbers.len() {
        if i > 0 {
            shown.push(b',')?;
        }
        put_number(alloc, shown, numbers[i])?;
    }
    Ok(())
}

// ---- slots

fn put_part(alloc: Global, shown: &mut Vec<u8>, part: &Part) -> Result<(), Fail> {
    match part {
        Part::Name(name) => shown.extend_from_slice(name.bytes())?,
        Part::Index(number) => put_number(alloc, shown, *number)?,
    }
    Ok(())
}

fn put_path(alloc: Global, shown: &mut Vec<u8>, path: &[Part]) -> Result<(), Fail> {
    shown.push(b'$')?;
    for i in 0..path.len() {
        if i > 0 {
            shown.push(b'.')?;
        }
        put_part(alloc, shown, &path[i])?;
    }
    Ok(())
}

fn put_cell(alloc: Global, shown: &mut Vec<u8>, cell: &Cell) -> Result<(), Fail> {
    match cell {
        Cell::Int(number) => {
            shown.extend_from_slice(format!(in alloc; "{number}")?.as_bytes())?;
        }
        _ => put(shown, "?")?,
    }
    Ok(())
}

fn put_slot(alloc: Global, shown: &mut Vec<u8>, slot: &Slot) -> Result<(), Fail> {
    match slot {
        Slot::Const(cell) => put_cell(alloc, shown, cell),
        Slot::Var(path) => put_path(alloc, shown, path.as_slice()),
    }
}

fn put_window(alloc: Global, shown: &mut Vec<u8>, first: &Option<Slot>) -> Result<(), Fail> {
    let Some(first) = first else {
        return Ok(());
    };
    shown.push(b'{')?;
    put_slot(alloc, shown, first)?;
    shown.push(b'}')?;
    Ok(())
}

// ---- steps

fn put_fetch(alloc: Global, shown: &mut Vec<u8>, fetch: &FetchStep) -> Result<(), Fail> {
    put(shown, "f")?;
    put_number(alloc, shown, fetch.table)?;
    if let Some(parent) = fetch.parent {
        shown.push(b'^')?;
        put_number(alloc, shown, parent)?;
    }
    if fetch.rows {
        shown.push(b'!')?;
    }
    for slot in fetch.key.as_slice() {
        shown.push(b'(')?;
        put_slot(alloc, shown, slot)?;
        shown.push(b')')?;
    }
    for equal in fetch.condition.as_slice() {
        shown.push(b'[')?;
        put_number(alloc, shown, equal.column)?;
        shown.push(b'=')?;
        put_slot(alloc, shown, &equal.slot)?;
        shown.push(b']')?;
    }
    put_window(alloc, shown, &fetch.window.first)
}

fn put_two(alloc: Global, shown: &mut Vec<u8>, sign: &str, a: u32, b: u32) -> Result<(), Fail> {
    put(shown, sign)?;
    put_number(alloc, shown, a)?;
    shown.push(b'.')?;
    put_number(alloc, shown, b)
}

fn put_one(alloc: Global, shown: &mut Vec<u8>, sign: &str, a: u32) -> Result<(), Fail> {
    put(shown, sign)?;
    put_number(alloc, shown, a)
}

fn put_step(alloc: Global, shown: &mut Vec<u8>, step: &Step) -> Result<(), Fail> {
    match step {
        Step::Const(_) => put(shown, "k"),
        Step::Var(path) => put_path(alloc, shown, path.as_slice()),
        Step::Given => put(shown, "g"),
        Step::Fetch(fetch) => put_fetch(alloc, shown, fetch),
        Step::Item(fetch) => put_one(alloc, shown, "i", *fetch),
        Step::Column(item, column) => put_two(alloc, shown, "c", *item, *column),
        Step::Count(fetch) => put_one(alloc, shown, "n", *fetch),
        Step::Page(fetch, part) => put_two(alloc, shown, "p", *fetch, *part as u32),
        Step::CursorOf(item) => put_one(alloc, shown, "m", *item),
    }
}

fn put_layer(alloc: Global, shown: &mut Vec<u8>, layer: &Layer) -> Result<(), Fail> {
    match layer.over {
        None => shown.push(b'-')?,
        Some(fetch) => put_number(alloc, shown, fetch)?,
    }
    shown.push(b':')?;
    put_numbers(alloc, shown, layer.steps.as_slice())
}

fn put_place(alloc: Global, shown: &mut Vec<u8>, out: &OutPlace) -> Result<(), Fail> {
    put_number(alloc, shown, out.step)?;
    shown.push(b'@')?;
    put_number(alloc, shown, out.layer)
}

fn shown(alloc: Global, plan: &Plan) -> Result<Vec<u8>, Fail> {
    let mut shown = Vec::new(alloc);
    for step in plan.steps.as_slice() {
        put_step(alloc, &mut shown, step)?;
        shown.push(b' ')?;
    }
    shown.push(b'|')?;
    for layer in plan.layers.as_slice() {
        shown.push(b' ')?;
        put_layer(alloc, &mut shown, layer)?;
    }
    put(&mut shown, " |")?;
    for place in plan.out.as_slice() {
        shown.push(b' ')?;
        put_place(alloc, &mut shown, place)?;
    }
    Ok(shown)
}

// ---- plans

pub(crate) fn base_of(alloc: Global, script: &str) -> Result<Base, Fail> {
    let Ok(script) = read_script(alloc, script.as_bytes()) else {
        return Err("no script".into());
    };
    match build(alloc, &script.catalog) {
        Ok(schema) => Ok(Base::of(script.catalog, schema)),
        Err(_) => Err("no schema".into()),
    }
}

fn variables(alloc: Global) -> Result<Vars, AllocError> {
    let mut entries = Items::new(alloc);
    entries.push(Variable {
        name: Text::of(alloc, "one")?,
        value: Value::Int(1),
    })?;
    Ok(Vars { entries })
}

/// The tree of a document's first operation.
pub(crate) fn tree_of(
    alloc: Global,
    schema: &Schema,
    document: &str,
    vars: &Vars,
) -> Result<Tree, Fail> {
    let Ok(document) = read_document(alloc, document.as_bytes()) else {
        return Err("no document".into());
    };
    match collect(alloc, schema, &document, 0, vars) {
        Ok(tree) => Ok(tree),
        Err(_) => Err("no tree".into()),
    }
}

/// The plan of a tree that has at most 2000 places.
fn plan_of(alloc: Global, base: &Base, vars: &Vars, tree: &Tree) -> Result<Plan, Fail> {
    if tree.places.len() > 2000 {
        return Err("too many places".into());
    }
    match drafted(alloc, base, vars, tree) {
        Ok(plan) => Ok(plan),
        Err(_) => Err("no memory".into()),
    }
}

#[test]
fn documents_have_these_plans(rt: HostRuntime) -> Result<(), Fail> {
    let base = base_of(rt.alloc(), SCRIPT)?;
    let vars = variables(rt.alloc())?;
    for row in DOCUMENTS.lines() {
        let (document, due) = row.split_once(" => ").ok_or("no row")?;
        let tree = tree_of(rt.alloc(), base.schema(), document, &vars)?;
        let plan = plan_of(rt.alloc(), &base, &vars, &tree)?;
        let shown = shown(rt.alloc(), &plan)?;
        let text = str::from_utf8(shown.as_slice()).ok().ok_or("no text")?;
        assert_eq!(rt; text, due);
    }
    Ok(())
}
