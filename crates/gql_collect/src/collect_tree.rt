//! The tree of places that an operation asks for.

ghost use Rattle.std.specs.Prelude.{◌≡◌, ◌≤◌, length, IfOk, None};
ghost use Rattle.pg_base.specs.Limits.{most_places};
ghost use Rattle.gql_collect.specs.Collected.{collected};
ghost use Rattle.gql_collect.specs.Growing.{with_set};
ghost use Rattle.gql_collect.specs.Kept.{fields_of, request_of, grown, Grows, IsMet};
ghost use Rattle.gql_collect.specs.Trees as spec;

use crate::CollectFault;
use crate::collecting::collect_set;
use crate::fragments::Fragments;
use crate::growing::add_fields;
use crate::request::Request;
use gql_reader::{Definition, Document, Field, OperationDefinition, OperationKind, Selection};
use indexmap::IndexSet;
use pg_base::limits::MOST_PLACES;
use pg_base::{Memory, Schema, Text, Vars};
use place_tree::{Place, Tree};
use sqlite_items::Items;
use std::alloc::Global;

/// As many levels below a set as a tree of so many places can have below the root.
const LEVELS_BELOW: usize = MOST_PLACES;

/// The type whose fields an operation selects.
fn root_of(schema: &Schema, kind: OperationKind) -> u32
    ensures { result ≡ spec.root_of schema.now kind }
{
    match kind {
        OperationKind::Query => schema.query(),
        OperationKind::Mutation => schema.mutation().unwrap_or(schema.query()),
        OperationKind::Subscription => schema.query(),
    }
}

/// The fields of a selection set of an object type.
fn set_fields<'a>(
    alloc: Global,
    request: &Request<'a>,
    ty: u32,
    selections: &'a [Selection],
    asked: &mut IndexSet<Text>,
) -> Result<Vec<&'a Field>, Memory>
    ensures { IfOk result (λ fields. IsMet (fields_of fields.items) asked.new.keys
        (collected (request_of request.now) ty selections.now asked.old.keys)) }
{
    let mut fields = Vec::new(alloc);
    let mut entered = IndexSet::new(alloc);
    let left = request.fragments.count();
    collect_set(
        alloc,
        request,
        ty,
        left,
        selections,
        &mut fields,
        &mut entered,
        asked,
    )?;
    Ok(fields)
}

fn add_operation(
    alloc: Global,
    request: &Request<'_>,
    operation: &OperationDefinition,
    places: &mut Items<Place>,
    asked: &mut IndexSet<Text>,
) -> Result<(), CollectFault>
    requires few { length places.old ≤ most_places }
    ensures { Grows result (grown places.new asked.new.keys)
        (with_set spec.levels (request_of request.now) None
        (spec.root_of (request_of request.now).schema operation.now.kind)
        operation.now.selections (grown places.old asked.old.keys)) }
{
    let ty = root_of(request.schema, operation.kind);
    let fields = set_fields(alloc, request, ty, operation.selections.as_slice(), asked)?;
    add_fields(
        alloc,
        request,
        LEVELS_BELOW,
        None,
        ty,
        fields.as_slice(),
        places,
        asked,
    )
}

fn names_of(alloc: Global, names: &[Text]) -> Result<Items<Text>, Memory>
    ensures { IfOk result (λ copies. copies ≡ names.now) }
{
    let mut copies = Items::new(alloc);
    for name in names {
        copies.push(name.copy(alloc)?)?;
    }
    Ok(copies)
}

/// The tree of the operation at a place of a document, where it has at most 2,000 places.
///
/// # Errors
/// `TooMany` exactly where the tree has more places, of which those beyond aren't built.
#[tactic(auto, unfolding(crate::specs::Trees::tree_of))]
pub fn collect(
    alloc: Global,
    schema: &Schema,
    document: &Document,
    operation: usize,
    vars: &Vars,
) -> Result<Tree, CollectFault>
    ensures { spec.Gives (spec.tree_of schema.now document.now operation vars.now) result }
{
    let mut places = Items::new(alloc);
    let mut asked = IndexSet::new(alloc);
    let request = Request {
        schema,
        fragments: Fragments::of(alloc, document.definitions.as_slice())?,
        vars,
    };
    if let Some(Definition::Operation(chosen)) = document.definitions.get(operation) {
        add_operation(alloc, &request, chosen, &mut places, &mut asked)?;
    }
    let asked = names_of(alloc, asked.as_slice())?;
    Ok(Tree { places, asked })
}
