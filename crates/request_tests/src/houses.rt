//! Requests that come one after the other on one house, and which of them have a plan made.

ghost use Rattle.std.specs.Prelude.{◌≡◌, true, IfOk};
ghost use Rattle.std.specs.Arc.{arc_value};
ghost use Rattle.serde_json.specs.View.{view};
ghost use Rattle.gql_input.specs.Body.{is_variables};
ghost use Rattle.request_core.specs.Load.{IsUsable};

use crate::asking::{given, loaded, parts_of};
use gql_vectors::BLOG;
use http_sessions::Reply;
use pg_base::Memory;
use plan_steps::Steps;
use request_core::{Asked, Loaded, OwnHouse, Request, asked_of, respond_own};
use row_tables::TableSet;
use row_tables::laws::valid_tables_have_form;
use sqlite_items::Items;
use std::alloc::Global;
use std::marker::Brand;
use std::sync::Arc;
use std::sync::ledger::{Blank, Ledger};
use std::test::Fail;
use stmt_run::{FaultyRows, MemRows};

/// A variable in a directive: one plan for each value.
const DIRECTIVES: &str = r#"
query($x: Boolean!) { allUsers { nodes { name id @include(if: $x) } } } | {"x": true} => planned 200 {"data":{"allUsers":{"nodes":[{"name":"Ann","id":1},{"name":"Bob","id":2}]}}}
query($x: Boolean!) { allUsers { nodes { name id @include(if: $x) } } } | {"x": false} => planned 200 {"data":{"allUsers":{"nodes":[{"name":"Ann"},{"name":"Bob"}]}}}
query($x: Boolean!) { allUsers { nodes { name id @include(if: $x) } } } | {"x": true} => found 200 {"data":{"allUsers":{"nodes":[{"name":"Ann","id":1},{"name":"Bob","id":2}]}}}
"#;

/// A variable in a condition: one plan without it, one for null, one for all values.
const CONDITIONS: &str = r#"
query($e: String) { allUsers(condition: {email: $e}) { nodes { name } } } => planned 200 {"data":{"allUsers":{"nodes":[{"name":"Ann"},{"name":"Bob"}]}}}
query($e: String) { allUsers(condition: {email: $e}) { nodes { name } } } | {"e": null} => planned 200 {"data":{"allUsers":{"nodes":[{"name":"Bob"}]}}}
query($e: String) { allUsers(condition: {email: $e}) { nodes { name } } } | {"e": "ann@x"} => planned 200 {"data":{"allUsers":{"nodes":[{"name":"Ann"}]}}}
query($e: String) { allUsers(condition: {email: $e}) { nodes { name } } } | {"e": "zed"} => found 200 {"data":{"allUsers":{"nodes":[]}}}
"#;

/// The text counts to the byte and the name of the operation counts; a refusal and a mutation have no plan.
const NAMES: &str = r#"
query A { allUsers { totalCount } } query B { allUsers { totalCount } } | {} | A => planned 200 {"data":{"allUsers":{"totalCount":2}}}
query A { allUsers { totalCount } } query B { allUsers { totalCount } } | {} | B => planned 200 {"data":{"allUsers":{"totalCount":2}}}
query A { allUsers { totalCount } } query B { allUsers { totalCount } } | {} | A => found 200 {"data":{"allUsers":{"totalCount":2}}}
query A { allUsers { totalCount } } query B { allUsers { totalCount } } => found 200 {"errors":[{"message":"no such operation"}]}
{ allUsers { totalCount } } => planned 200 {"data":{"allUsers":{"totalCount":2}}}
{ allUsers { totalCount }  } => planned 200 {"data":{"allUsers":{"totalCount":2}}}
{ allUsers { totalCount } } => found 200 {"data":{"allUsers":{"totalCount":2}}}
query Q($n: Int) { allUsers(first: $n) { nodes { id } } } | {"n": 1} => planned 200 {"data":{"allUsers":{"nodes":[{"id":1}]}}}
query Q($n: Int) { allUsers(first: $n) { nodes { id } } } | {"n": 2} => found 200 {"data":{"allUsers":{"nodes":[{"id":1},{"id":2}]}}}
query Q($n: Int) { allUsers(first: $n) { nodes { id } } } | {"n": 2} | Q => planned 200 {"data":{"allUsers":{"nodes":[{"id":1},{"id":2}]}}}
{ nothing } => found 200 {"errors":[{"message":"rule 5.3.1: field selections","locations":[{"line":1,"column":3}]}]}
mutation { deleteUserById(input: {id: 1}) { user { id } } } => found 200 {"errors":[{"message":"mutations are not built"}]}
"#;

/// A document that takes two statements.
const TWO: &str =
    "{ allUsers { nodes { name postsByAuthorId(first: 2) { nodes { title } totalCount } } } }";

/// Its replies where the second call of the store fails, and after that.
const FAULTY: &str = r#"planned 500 2 {"errors":[{"message":"storage fault"}]}
found 200 2 {"data":{"allUsers":{"nodes":[{"name":"Ann","postsByAuthorId":{"nodes":[{"title":"A1"},{"title":"A2"}],"totalCount":3}},{"name":"Bob","postsByAuthorId":{"nodes":[{"title":"B1"}],"totalCount":1}}]}}}"#;

/// A house over the tables of a script.
fn house_over(alloc: Global, over: &Loaded) -> Result<OwnHouse, Memory>
    requires { IsUsable (arc_value over.now.base) over.now.tables }
{
    valid_tables_have_form(&over.tables);
    let set = TableSet::of(alloc, over.base.catalog(), &over.tables)?;
    let base = Arc::try_clone(&over.base)?;
    OwnHouse::make(alloc, base, set, 1_000_000)
}

/// What a row asks.
fn asked_by(alloc: Global, row: &str) -> Result<Asked, Fail>
    ensures { IfOk result (λ a. is_variables (view a.variables) ≡ true) }
{
    let (document, variables, operation) = parts_of(row);
    let request = Request {
        document: document.as_bytes(),
        operation: given(operation),
        variables: given(variables).map(str::as_bytes),
    };
    match asked_of(alloc, request) {
        Ok(asked) => Ok(asked),
        Err(_) => Err("no variables".into()),
    }
}

fn text_of(reply: &Reply) -> &str {
    str::from_utf8(reply.bytes.bytes()).unwrap_or("no text")
}

fn plan_of(reply: &Reply) -> &'static str {
    if reply.planned { "planned" } else { "found" }
}

/// Nothing where the reply to a row is the one that it tells, else the row and what came: whether a plan was made, the
/// status and the text.
fn difference_on<L: Ledger>(
    alloc: Global,
    house: &mut OwnHouse,
    row: &str,
    rows: &mut MemRows,
    plans: &mut Steps<L>,
) -> Result<String, Fail> {
    let (asked, wanted) = row.split_once(" => ").ok_or("no arrow")?;
    let asked = asked_by(alloc, asked)?;
    let reply = respond_own(alloc, house, &asked, rows, plans);
    let (plan, status, text) = (plan_of(&reply), reply.status, text_of(&reply));
    let came = format!(in alloc; "{plan} {status} {text}")?;
    if came.as_str() == wanted {
        return Ok(String::new(alloc));
    }
    Ok(format!(in alloc; "\n{row}\n  came: {came}")?)
}

/// The rows of a table, asked on a house, that have another reply than they tell.
fn told_on<L: Ledger>(
    alloc: Global,
    house: &mut OwnHouse,
    table: &str,
    rows: &mut MemRows,
    plans: &mut Steps<L>,
) -> Result<String, Fail> {
    let mut told = String::new(alloc);
    for row in table.trim().lines() {
        let difference = difference_on(alloc, house, row, rows, plans)?;
        told.push_str(difference.as_str())?;
    }
    Ok(told)
}

/// The same on a new house.
fn differences_on<L: Ledger>(
    alloc: Global,
    over: &Loaded,
    table: &str,
    blank: Blank,
) -> Result<String, Fail>
    requires usable { IsUsable (arc_value over.now.base) over.now.tables }
    requires name { blank.name ≡ L.name }
    requires parts { blank.parts ≡ L.parts }
    requires one { L.parts ≡ 1 }
{
    let mut house = house_over(alloc, over)?;
    let mut rows = MemRows::new(alloc);
    let mut plans = Steps::<L>::new(blank);
    told_on(alloc, &mut house, table, &mut rows, &mut plans)
}

/// The same of a variable in a directive.
fn directives_on<L: Ledger>(alloc: Global, over: &Loaded, blank: Blank) -> Result<String, Fail>
    requires usable { IsUsable (arc_value over.now.base) over.now.tables }
    requires name { blank.name ≡ L.name }
    requires parts { blank.parts ≡ L.parts }
    requires one { L.parts ≡ 1 }
{
    differences_on::<L>(alloc, over, DIRECTIVES, blank)
}

/// The same of a variable in a condition.
fn conditions_on<L: Ledger>(alloc: Global, over: &Loaded, blank: Blank) -> Result<String, Fail>
    requires usable { IsUsable (arc_value over.now.base) over.now.tables }
    requires name { blank.name ≡ L.name }
    requires parts { blank.parts ≡ L.parts }
    requires one { L.parts ≡ 1 }
{
    differences_on::<L>(alloc, over, CONDITIONS, blank)
}

/// The same of texts and names.
fn names_on<L: Ledger>(alloc: Global, over: &Loaded, blank: Blank) -> Result<String, Fail>
    requires usable { IsUsable (arc_value over.now.base) over.now.tables }
    requires name { blank.name ≡ L.name }
    requires parts { blank.parts ≡ L.parts }
    requires one { L.parts ≡ 1 }
{
    differences_on::<L>(alloc, over, NAMES, blank)
}

/// Whether a plan is made for the query of a number.
fn is_planned<L: Ledger>(
    alloc: Global,
    house: &mut OwnHouse,
    number: u32,
    rows: &mut MemRows,
    plans: &mut Steps<L>,
) -> Result<bool, Fail> {
    let number = format!(in alloc; "{number}")?;
    let document = "{ allUsers(first: #) { totalCount } }".replace(alloc, "#", number.as_str())?;
    let asked = asked_by(alloc, document.as_str())?;
    let reply = respond_own(alloc, house, &asked, rows, plans);
    Ok(reply.planned)
}

/// For how many of the first queries, so many, a plan is made.
fn planned_count<L: Ledger>(
    alloc: Global,
    house: &mut OwnHouse,
    most: u32,
    rows: &mut MemRows,
    plans: &mut Steps<L>,
) -> Result<u32, Fail> {
    let mut count = 0u32;
    for number in 0..most {
        if is_planned(alloc, house, number, rows, plans)? {
            count = count.saturating_add(1);
        }
    }
    Ok(count)
}

/// For how many of 65 queries a plan is made, and then whether one is made for the first and for the last.
fn plans_of_many<L: Ledger>(alloc: Global, over: &Loaded, blank: Blank) -> Result<String, Fail>
    requires usable { IsUsable (arc_value over.now.base) over.now.tables }
    requires name { blank.name ≡ L.name }
    requires parts { blank.parts ≡ L.parts }
    requires one { L.parts ≡ 1 }
{
    let mut house = house_over(alloc, over)?;
    let mut rows = MemRows::new(alloc);
    let mut plans = Steps::<L>::new(blank);
    let count = planned_count(alloc, &mut house, 65, &mut rows, &mut plans)?;
    let first = is_planned(alloc, &mut house, 0, &mut rows, &mut plans)?;
    let last = is_planned(alloc, &mut house, 64, &mut rows, &mut plans)?;
    Ok(format!(in alloc; "{count} {first} {last}")?)
}

/// A reply over a store that may fail, with the number of statements.
fn reply_over<L: Ledger>(
    alloc: Global,
    house: &mut OwnHouse,
    rows: &mut FaultyRows,
    plans: &mut Steps<L>,
) -> Result<String, Fail> {
    let asked = asked_by(alloc, TWO)?;
    let reply = respond_own(alloc, house, &asked, rows, plans);
    let (plan, status, sent) = (plan_of(&reply), reply.status, reply.statements);
    let text = text_of(&reply);
    Ok(format!(in alloc; "{plan} {status} {sent} {text}")?)
}

/// The replies to a document over a store of which the second call fails, asked twice.
fn asked_twice<L: Ledger>(alloc: Global, over: &Loaded, blank: Blank) -> Result<String, Fail>
    requires usable { IsUsable (arc_value over.now.base) over.now.tables }
    requires name { blank.name ≡ L.name }
    requires parts { blank.parts ≡ L.parts }
    requires one { L.parts ≡ 1 }
{
    let mut house = house_over(alloc, over)?;
    let mut failing = Items::new(alloc);
    failing.push(1)?;
    let mut rows = FaultyRows::new(MemRows::new(alloc), failing);
    let mut plans = Steps::<L>::new(blank);
    let first = reply_over(alloc, &mut house, &mut rows, &mut plans)?;
    let second = reply_over(alloc, &mut house, &mut rows, &mut plans)?;
    Ok(format!(in alloc; "{first}\n{second}")?)
}

#[test]
fn a_directive_asks_for_a_plan_of_its_own(rt: HostRuntime) -> Result<(), Fail> {
    let alloc = rt.alloc();
    let over = loaded(alloc, BLOG)?;
    let told = directives_on::<Brand>(alloc, &over, Blank::new(1))?;
    assert_eq!(rt; told.as_str(), "");
    Ok(())
}

#[test]
fn values_in_a_condition_share_a_plan(rt: HostRuntime) -> Result<(), Fail> {
    let alloc = rt.alloc();
    let over = loaded(alloc, BLOG)?;
    let told = conditions_on::<Brand>(alloc, &over, Blank::new(1))?;
    assert_eq!(rt; told.as_str(), "");
    Ok(())
}

#[test]
fn texts_and_names_have_plans_of_their_own(rt: HostRuntime) -> Result<(), Fail> {
    let alloc = rt.alloc();
    let over = loaded(alloc, BLOG)?;
    let told = names_on::<Brand>(alloc, &over, Blank::new(1))?;
    assert_eq!(rt; told.as_str(), "");
    Ok(())
}

#[test]
fn the_oldest_of_sixty_five_plans_goes(rt: HostRuntime) -> Result<(), Fail> {
    let alloc = rt.alloc();
    let over = loaded(alloc, BLOG)?;
    let told = plans_of_many::<Brand>(alloc, &over, Blank::new(1))?;
    assert_eq!(rt; told.as_str(), "65 true false");
    Ok(())
}

#[test]
fn a_plan_is_kept_though_its_run_fails(rt: HostRuntime) -> Result<(), Fail> {
    let alloc = rt.alloc();
    let over = loaded(alloc, BLOG)?;
    let told = asked_twice::<Brand>(alloc, &over, Blank::new(1))?;
    assert_eq!(rt; told.as_str(), FAULTY);
    Ok(())
}
