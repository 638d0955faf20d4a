//! What places give that ask nothing of the tables.

ghost use Rattle.std.specs.Prelude.{◌≡◌, [], IfOk, IfErr, Ok, Err, map, option_map, unwrap_or};
ghost use Rattle.json_out.specs.JsonText.{json_int};
ghost use Rattle.pg_base.specs.Value.{member_in, members_of};
ghost use Rattle.pg_base.specs.Schema as schemas;
ghost use Rattle.rel_model.specs.Picked as picked;
ghost use Rattle.place_tree.specs.Arguments as arguments;
ghost use Rattle.place_tree.specs.Fields as fields;
ghost use Rattle.place_tree.specs.declared.answer.Leaf.TheVariants as leaves;
ghost use Rattle.place_tree.specs.Exec as spec;
ghost use Rattle.place_tree.specs.declared.answer.Answer.TheVariants as answers;
ghost use Rattle.place_tree.specs.declared.stand.Stand.TheVariants as stands_are;

use crate::arguments::{argument, value_text};
use crate::lookups::{cases_at, field_of, type_name_at};
use crate::marks::row_cursor;
use json_out::put_int;
use pg_base::schema::INT;
use pg_base::{
    Base, Catalog, Cell, Does, FieldDef, Member, Memory, Schema, Text, TypeRef, Value, Vars,
};
use place_tree::{Answer, Edge, Leaf, Listed, Place, Stand};
use rel_model::{By, Row, copy_row};
use sqlite_items::Items;
use std::alloc::Global;

const TYPENAME: u32 = 4_294_967_295;

// ---- leaves

fn number_text(alloc: Global, number: i64) -> Result<Text, Memory>
    ensures { IfOk result (λ text. text ≡ json_int number) }
{
    let mut text = Vec::new(alloc);
    put_int(&mut text, number)?;
    Ok(Text::of_bytes(text))
}

fn int_leaf(alloc: Global, ty: TypeRef, number: i64) -> Result<Leaf, Memory>
    ensures { IfOk result (λ leaf. leaf ≡ spec.int_leaf ty number) }
{
    if ty.name == INT {
        return Ok(Leaf::Int(number));
    }
    let text = number_text(alloc, number)?;
    Ok(Leaf::Text(text))
}

fn copied(alloc: Global, text: Option<&Text>) -> Result<Text, Memory>
    ensures { IfOk result (λ copy. copy ≡ unwrap_or (option_map (λ t. t.now) text.entry) []) }
{
    match text {
        None => {
            let none = Text::of(alloc, "")?;
            Ok(none)
        }
        Some(text) => {
            let copy = text.copy(alloc)?;
            Ok(copy)
        }
    }
}

/// What a cell shows at a field of a type.
fn leaf_of(alloc: Global, schema: &Schema, ty: TypeRef, cell: &Cell) -> Result<Leaf, Memory>
    ensures { IfOk result (λ leaf. leaf ≡ spec.leaf_of schema.now ty cell.now) }
{
    match cell {
        Cell::Null => Ok(Leaf::Null),
        Cell::Int(number) => {
            let leaf = int_leaf(alloc, ty, *number)?;
            Ok(leaf)
        }
        Cell::Bool(truth) => Ok(Leaf::Truth(*truth)),
        Cell::Text(text) => Ok(Leaf::Text(text.copy(alloc)?)),
        Cell::EnumCase(case) => {
            let name = copied(alloc, cases_at(schema, ty.name).get(*case as usize))?;
            Ok(Leaf::Text(name))
        }
    }
}

/// The cells of the row at which a place stands.
pub(crate) fn stand_cells(stand: &Stand) -> &[Cell]
    ensures { result.now ≡ spec.stand_cells stand.now }
{
    match stand {
        Stand::Root => &[],
        Stand::AtRow(row) => row.cells.as_slice(),
        Stand::AtList(_) => &[],
        Stand::AtEdge(_) => &[],
        Stand::AtPayload(row) => row.cells.as_slice(),
    }
}

fn cell_leaf(
    alloc: Global,
    schema: &Schema,
    ty: TypeRef,
    cells: &[Cell],
    column: u32,
) -> Result<Leaf, Memory>
    ensures { IfOk result (λ leaf. leaf ≡
        spec.leaf_of schema.now ty (picked.cell_at cells.now column)) }
{
    match cells.get(column as usize) {
        None => Ok(Leaf::Null),
        Some(cell) => {
            let leaf = leaf_of(alloc, schema, ty, cell)?;
            Ok(leaf)
        }
    }
}

// ---- connections

fn nodes_of(alloc: Global, rows: &[Row]) -> Result<Items<Stand>, Memory>
    ensures { IfOk result (λ stands. stands ≡ map stands_are.AtRow rows.now) }
{
    let mut stands = Items::new(alloc);
    for row in rows {
        stands.push(Stand::AtRow(copy_row(alloc, row)?))?;
    }
    Ok(stands)
}

fn nodes_at(alloc: Global, stand: &Stand) -> Result<Answer<Stand>, Memory>
    ensures { IfOk result (λ answer. answer ≡ spec.nodes_at stand.now) }
{
    match stand {
        Stand::Root => Ok(Answer::Many(Items::new(alloc))),
        Stand::AtRow(_) => Ok(Answer::Many(Items::new(alloc))),
        Stand::AtList(listed) => {
            let nodes = nodes_of(alloc, listed.rows.as_slice())?;
            Ok(Answer::Many(nodes))
        }
        Stand::AtEdge(_) => Ok(Answer::Many(Items::new(alloc))),
        Stand::AtPayload(_) => Ok(Answer::Many(Items::new(alloc))),
    }
}

fn copied_names(alloc: Global, names: &[Text]) -> Result<Items<Text>, Memory>
    ensures { IfOk result (λ copy. copy ≡ names.now) }
{
    let mut copy = Items::new(alloc);
    for name in names {
        copy.push(name.copy(alloc)?)?;
    }
    Ok(copy)
}

fn copied_order(alloc: Global, order: &[By]) -> Result<Items<By>, Memory>
    ensures { IfOk result (λ copy. copy ≡ order.now) }
{
    let mut copy = Items::new(alloc);
    for by in order {
        copy.push(*by)?;
    }
    Ok(copy)
}

fn copied_rows(alloc: Global, rows: &[Row]) -> Result<Items<Row>, Memory>
    ensures { IfOk result (λ copy. copy ≡ rows.now) }
{
    let mut copy = Items::new(alloc);
    for row in rows {
        copy.push(copy_row(alloc, row)?)?;
    }
    Ok(copy)
}

fn edge_of(alloc: Global, listed: &Listed, row: &Row) -> Result<Edge, Memory>
    ensures { IfOk result (λ edge. stands_are.AtEdge edge ≡ spec.edge_of listed.now row.now) }
{
    let names = copied_names(alloc, listed.names.as_slice())?;
    let order = copied_order(alloc, listed.order.as_slice())?;
    let row = copy_row(alloc, row)?;
    Ok(Edge {
        table: listed.table,
        names,
        order,
        row,
    })
}

fn edges_of(alloc: Global, listed: &Listed, rows: &[Row]) -> Result<Items<Stand>, Memory>
    ensures { IfOk result (λ stands. stands ≡ map (spec.edge_of listed.now) rows.now) }
{
    let mut stands = Items::new(alloc);
    for row in rows {
        stands.push(Stand::AtEdge(edge_of(alloc, listed, row)?))?;
    }
    Ok(stands)
}

fn edges_at(alloc: Global, stand: &Stand) -> Result<Answer<Stand>, Memory>
    ensures { IfOk result (λ answer. answer ≡ spec.edges_at stand.now) }
{
    match stand {
        Stand::Root => Ok(Answer::Many(Items::new(alloc))),
        Stand::AtRow(_) => Ok(Answer::Many(Items::new(alloc))),
        Stand::AtList(listed) => {
            let edges = edges_of(alloc, listed, listed.rows.as_slice())?;
            Ok(Answer::Many(edges))
        }
        Stand::AtEdge(_) => Ok(Answer::Many(Items::new(alloc))),
        Stand::AtPayload(_) => Ok(Answer::Many(Items::new(alloc))),
    }
}

fn copied_list(alloc: Global, listed: &Listed) -> Result<Listed, Memory>
    ensures { IfOk result (λ copy. copy ≡ listed.now) }
{
    let names = copied_names(alloc, listed.names.as_slice())?;
    let order = copied_order(alloc, listed.order.as_slice())?;
    let rows = copied_rows(alloc, listed.rows.as_slice())?;
    Ok(Listed {
        table: listed.table,
        names,
        order,
        total: listed.total,
        from: listed.from,
        to: listed.to,
        rows,
    })
}

fn page_at(alloc: Global, stand: &Stand) -> Result<Answer<Stand>, Memory>
    ensures { IfOk result (λ answer. answer ≡ spec.page_at stand.now) }
{
    match stand {
        Stand::Root => Ok(Answer::Shows(Leaf::Null)),
        Stand::AtRow(_) => Ok(Answer::Shows(Leaf::Null)),
        Stand::AtList(listed) => {
            let page = copied_list(alloc, listed)?;
            Ok(Answer::One(Stand::AtList(page)))
        }
        Stand::AtEdge(_) => Ok(Answer::Shows(Leaf::Null)),
        Stand::AtPayload(_) => Ok(Answer::Shows(Leaf::Null)),
    }
}

fn at_row(alloc: Global, row: &Row) -> Result<Answer<Stand>, Memory>
    ensures { IfOk result (λ answer. answer ≡ answers.One (stands_are.AtRow row.now)) }
{
    let row = copy_row(alloc, row)?;
    Ok(Answer::One(Stand::AtRow(row)))
}

fn node_at(alloc: Global, stand: &Stand) -> Result<Answer<Stand>, Memory>
    ensures { IfOk result (λ answer. answer ≡ spec.node_at stand.now) }
{
    match stand {
        Stand::Root => Ok(Answer::Shows(Leaf::Null)),
        Stand::AtRow(_) => Ok(Answer::Shows(Leaf::Null)),
        Stand::AtList(_) => Ok(Answer::Shows(Leaf::Null)),
        Stand::AtEdge(edge) => at_row(alloc, &edge.row),
        Stand::AtPayload(_) => Ok(Answer::Shows(Leaf::Null)),
    }
}

fn payload_at(alloc: Global, stand: &Stand) -> Result<Answer<Stand>, Memory>
    ensures { IfOk result (λ answer. answer ≡ spec.payload_at stand.now) }
{
    match stand {
        Stand::Root => Ok(Answer::Shows(Leaf::Null)),
        Stand::AtRow(_) => Ok(Answer::Shows(Leaf::Null)),
        Stand::AtList(_) => Ok(Answer::Shows(Leaf::Null)),
        Stand::AtEdge(_) => Ok(Answer::Shows(Leaf::Null)),
        Stand::AtPayload(row) => at_row(alloc, row),
    }
}

/// The list of a connection at which a place stands.
fn list_at(stand: &Stand) -> Option<&Listed>
    ensures { option_map (λ l. l.now) result ≡ spec.list_at stand.now }
{
    match stand {
        Stand::Root => None,
        Stand::AtRow(_) => None,
        Stand::AtList(listed) => Some(listed),
        Stand::AtEdge(_) => None,
        Stand::AtPayload(_) => None,
    }
}

/// A number as an integer of 64 bits.
fn number_leaf(number: u64) -> Leaf
    ensures { result ≡ spec.number_leaf number }
{
    if number < 9_223_372_036_854_775_808 {
        Leaf::Int(number as i64)
    } else {
        Leaf::Null
    }
}

fn total_at(stand: &Stand) -> Leaf
    ensures { result ≡ spec.of_list spec.total_of stand.now }
{
    match list_at(stand) {
        None => Leaf::Null,
        Some(listed) => number_leaf(listed.total),
    }
}

fn has_previous(stand: &Stand) -> Leaf
    ensures { result ≡ spec.of_list spec.has_previous stand.now }
{
    match list_at(stand) {
        None => Leaf::Null,
        Some(listed) => Leaf::Truth(listed.from > 0),
    }
}

fn has_next(stand: &Stand) -> Leaf
    ensures { result ≡ spec.of_list spec.has_next stand.now }
{
    match list_at(stand) {
        None => Leaf::Null,
        Some(listed) => Leaf::Truth(listed.to < listed.total),
    }
}

fn cursor_or_null(
    alloc: Global,
    catalog: &Catalog,
    listed: &Listed,
    row: Option<&Row>,
) -> Result<Leaf, Memory>
    ensures { IfOk result (λ leaf. leaf ≡
        spec.cursor_or_null catalog.now listed.now (option_map (λ r. r.now) row.entry)) }
{
    match row {
        None => Ok(Leaf::Null),
        Some(row) => {
            let (names, order) = (listed.names.as_slice(), listed.order.as_slice());
            let cursor = row_cursor(alloc, catalog, listed.table, names, order, row)?;
            Ok(cursor)
        }
    }
}

fn first_row(rows: &[Row]) -> Option<&Row>
    ensures { option_map (λ r. r.now) result ≡ spec.first_row rows.now }
{
    match rows {
        [] => None,
        [row, ..] => Some(row),
    }
}

fn last_row(rows: &[Row]) -> Option<&Row>
    ensures { option_map (λ r. r.now) result ≡ spec.last_row rows.now }
{
    rows.last()
}

fn start_at(alloc: Global, catalog: &Catalog, stand: &Stand) -> Result<Leaf, Memory>
    ensures { IfOk result (λ leaf. leaf ≡ spec.of_list (spec.start_of catalog.now) stand.now) }
{
    match list_at(stand) {
        None => Ok(Leaf::Null),
        Some(listed) => cursor_or_null(alloc, catalog, listed, first_row(listed.rows.as_slice())),
    }
}

fn end_at(alloc: Global, catalog: &Catalog, stand: &Stand) -> Result<Leaf, Memory>
    ensures { IfOk result (λ leaf. leaf ≡ spec.of_list (spec.end_of catalog.now) stand.now) }
{
    match list_at(stand) {
        None => Ok(Leaf::Null),
        Some(listed) => cursor_or_null(alloc, catalog, listed, last_row(listed.rows.as_slice())),
    }
}

fn edge_cursor(alloc: Global, catalog: &Catalog, stand: &Stand) -> Result<Leaf, Memory>
    ensures { IfOk result (λ leaf. leaf ≡ spec.edge_cursor catalog.now stand.now) }
{
    match stand {
        Stand::Root => Ok(Leaf::Null),
        Stand::AtRow(_) => Ok(Leaf::Null),
        Stand::AtList(_) => Ok(Leaf::Null),
        Stand::AtEdge(edge) => {
            let (names, order) = (edge.names.as_slice(), edge.order.as_slice());
            let cursor = row_cursor(alloc, catalog, edge.table, names, order, &edge.row)?;
            Ok(cursor)
        }
        Stand::AtPayload(_) => Ok(Leaf::Null),
    }
}

// ---- the client's own mark of a mutation

fn member_in<'a>(members: &'a [Member], name: &[u8]) -> Option<&'a Value>
    ensures { option_map (λ v. v.now) result ≡ member_in members.now name.now }
{
    for member in members {
        if member.name.bytes() == name {
            return Some(&member.value);
        }
    }
    None
}

fn input_member<'a>(input: &'a Value, name: &[u8]) -> Option<&'a Value>
    ensures { option_map (λ v. v.now) result ≡ member_in (members_of input.now) name.now }
{
    match input {
        Value::Null => None,
        Value::Int(_) => None,
        Value::Bool(_) => None,
        Value::Text(_) => None,
        Value::Case(_) => None,
        Value::List(_) => None,
        Value::Object(members) => member_in(members.as_slice(), name),
    }
}

fn text_leaf(alloc: Global, text: Option<&Text>) -> Result<Leaf, Memory>
    ensures { IfOk result (λ leaf. leaf ≡ spec.text_or_null (option_map (λ t. t.now) text.entry)) }
{
    match text {
        None => Ok(Leaf::Null),
        Some(text) => {
            let copy = text.copy(alloc)?;
            Ok(Leaf::Text(copy))
        }
    }
}

fn text_in(value: Option<&Value>) -> Option<&Text>
    ensures { option_map (λ t. t.now) result
        ≡ arguments.text_of (option_map (λ v. v.now) value.entry) }
{
    match value {
        None => None,
        Some(value) => value_text(value),
    }
}

fn input_id(alloc: Global, input: &Option<Value>) -> Result<Leaf, Memory>
    ensures { IfOk result (λ leaf. leaf ≡ spec.input_id input.now) }
{
    match input {
        None => Ok(Leaf::Null),
        Some(input) => {
            let id = input_member(input, b"clientMutationId");
            let leaf = text_leaf(alloc, text_in(id))?;
            Ok(leaf)
        }
    }
}

fn client_id(alloc: Global, vars: &Vars, above: Option<&Place>) -> Result<Leaf, Memory>
    ensures { IfOk result (λ leaf. leaf ≡
        spec.client_id vars.now (option_map (λ p. p.now) above.entry)) }
{
    match above {
        None => Ok(Leaf::Null),
        Some(above) => {
            let input = argument(alloc, vars, above, 0)?;
            let leaf = input_id(alloc, &input)?;
            Ok(leaf)
        }
    }
}

fn place_above<'a>(places: &'a [Place], place: &Place) -> Option<&'a Place>
    ensures { option_map (λ p. p.now) result ≡ spec.place_above places.now place.now }
{
    match place.parent {
        None => None,
        Some(above) => places.get(above as usize),
    }
}

// ---- each field

fn column_leaf(
    alloc: Global,
    schema: &Schema,
    ty: TypeRef,
    stand: &Stand,
    column: u32,
) -> Result<Answer<Stand>, Memory>
    ensures { IfOk result (λ answer. answer ≡ answers.Shows
        (spec.leaf_of schema.now ty (picked.cell_at (spec.stand_cells stand.now) column))) }
{
    let leaf = cell_leaf(alloc, schema, ty, stand_cells(stand), column)?;
    Ok(Answer::Shows(leaf))
}

fn shown(leaf: Result<Leaf, Memory>) -> Result<Answer<Stand>, Memory>
    ensures ok { IfOk leaf (λ l. result ≡ Ok (answers.Shows l)) }
    ensures err { IfErr leaf (λ e. result ≡ Err e) }
{
    match leaf {
        Ok(leaf) => Ok(Answer::Shows(leaf)),
        Err(memory) => Err(memory),
    }
}

/// What a place gives whose field is this one, which finds no rows.
fn other_field(
    alloc: Global,
    base: &Base,
    vars: &Vars,
    places: &[Place],
    place: &Place,
    field: &FieldDef,
    stand: &Stand,
) -> Result<Answer<Stand>, Memory>
    ensures { IfOk result (λ answer. answer ≡ spec.other_field base.now vars.now places.now
        place.now field.now field.now.does stand.now) }
{
    match field.does {
        Does::Column(_, column) => column_leaf(alloc, base.schema(), field.ty, stand, column),
        Does::Forward(_, _) => Ok(Answer::Shows(Leaf::Null)),
        Does::Backward(_, _) => Ok(Answer::Shows(Leaf::Null)),
        Does::All(_) => Ok(Answer::Shows(Leaf::Null)),
        Does::ByKey(_, _) => Ok(Answer::Shows(Leaf::Null)),
        Does::Create(_) => Ok(Answer::Shows(Leaf::Null)),
        Does::Update(_, _) => Ok(Answer::Shows(Leaf::Null)),
        Does::Delete(_, _) => Ok(Answer::Shows(Leaf::Null)),
        Does::Nodes => nodes_at(alloc, stand),
        Does::Edges => edges_at(alloc, stand),
        Does::PageInfo => page_at(alloc, stand),
        Does::Total => Ok(Answer::Shows(total_at(stand))),
        Does::Node => node_at(alloc, stand),
        Does::Cursor => shown(edge_cursor(alloc, base.catalog(), stand)),
        Does::HasNext => Ok(Answer::Shows(has_next(stand))),
        Does::HasPrevious => Ok(Answer::Shows(has_previous(stand))),
        Does::Start => shown(start_at(alloc, base.catalog(), stand)),
        Does::End => shown(end_at(alloc, base.catalog(), stand)),
        Does::ClientId => shown(client_id(alloc, vars, place_above(places, place))),
        Does::Payload => payload_at(alloc, stand),
    }
}

fn typename_leaf(alloc: Global, schema: &Schema, place: &Place) -> Result<Leaf, Memory>
    ensures { IfOk result (λ leaf. leaf ≡
        leaves.Text (schemas.type_name_at schema.now place.now.ty)) }
{
    let name = copied(alloc, type_name_at(schema, place.ty))?;
    Ok(Leaf::Text(name))
}

/// What a place gives that is no row field.
pub(crate) fn by_field(
    alloc: Global,
    base: &Base,
    vars: &Vars,
    places: &[Place],
    place: &Place,
    stand: &Stand,
) -> Result<Answer<Stand>, Memory>
    ensures { IfOk result (λ answer. answer ≡ spec.by_field base.now vars.now places.now place.now
        (fields.field_of base.now.schema place.now) stand.now) }
{
    match field_of(base.schema(), place) {
        None => {
            if place.field == TYPENAME {
                shown(typename_leaf(alloc, base.schema(), place))
            } else {
                Ok(Answer::Shows(Leaf::Null))
            }
        }
        Some(field) => other_field(alloc, base, vars, places, place, field, stand),
    }
}
