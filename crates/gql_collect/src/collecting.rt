//! CollectFields (section 6.3.2), up to the grouping.

ghost use Rattle.std.specs.Prelude.{◌≡◌, OnOk};
ghost use Rattle.gql_collect.specs.Collected.{enter_at, collect_within, in_selection, applies_to};
ghost use Rattle.gql_collect.specs.Kept.{met_by, request_of, is_for as is_meant};

use crate::asking::choose;
use crate::request::{Request, is_type};
use gql_reader::{Field, InlineFragment, Selection};
use indexmap::IndexSet;
use pg_base::{Memory, Text};
use std::alloc::Global;

/// Appends the fields of a selection set of an object type, where so many fragments may be entered within one another.
#[cycle(collect)]
pub(crate) fn collect_set<'a>(
    alloc: Global,
    request: &Request<'a>,
    ty: u32,
    left: usize,
    selections: &'a [Selection],
    fields: &mut Vec<&'a Field>,
    entered: &mut IndexSet<Text>,
    asked: &mut IndexSet<Text>,
) -> Result<(), Memory>
    ensures { OnOk result (met_by fields.new.items entered.new.keys asked.new.keys
        ≡ collect_within left (request_of request.now) ty selections.now
        (met_by fields.old.items entered.old.keys asked.old.keys)) }
{
    for selection in selections {
        collect_selection(alloc, request, ty, left, selection, fields, entered, asked)?;
    }
    Ok(())
}

#[cycle(collect)]
fn collect_selection<'a>(
    alloc: Global,
    request: &Request<'a>,
    ty: u32,
    left: usize,
    selection: &'a Selection,
    fields: &mut Vec<&'a Field>,
    entered: &mut IndexSet<Text>,
    asked: &mut IndexSet<Text>,
) -> Result<(), Memory>
    ensures { OnOk result (met_by fields.new.items entered.new.keys asked.new.keys
        ≡ in_selection (request_of request.now).vars (applies_to (request_of request.now).schema ty)
        (enter_at left (request_of request.now) ty) selection.now
        (met_by fields.old.items entered.old.keys asked.old.keys)) }
{
    match selection {
        Selection::Field(field) => {
            if choose(alloc, request.vars, field.directives.as_slice(), asked)? {
                fields.push(field)?;
            }
            Ok(())
        }
        Selection::FragmentSpread(spread) => {
            if choose(alloc, request.vars, spread.directives.as_slice(), asked)? {
                collect_fragment(
                    alloc,
                    request,
                    ty,
                    left,
                    &spread.name,
                    fields,
                    entered,
                    asked,
                )?;
            }
            Ok(())
        }
        Selection::InlineFragment(inline) => {
            if choose(alloc, request.vars, inline.directives.as_slice(), asked)? {
                if is_for(request, ty, inline) {
                    collect_set(
                        alloc,
                        request,
                        ty,
                        left,
                        inline.selections.as_slice(),
                        fields,
                        entered,
                        asked,
                    )?;
                }
            }
            Ok(())
        }
    }
}

/// Whether an inline fragment's condition on the type, if any, holds.
fn is_for(request: &Request<'_>, ty: u32, inline: &InlineFragment) -> bool
    ensures { result ≡ is_meant (applies_to (request_of request.now).schema ty)
        inline.now.type_condition }
{
    match &inline.type_condition {
        None => true,
        Some(name) => is_type(request.schema, ty, name),
    }
}

/// Enters the fragment of a name, once for a selection set.
#[cycle(collect)]
fn collect_fragment<'a>(
    alloc: Global,
    request: &Request<'a>,
    ty: u32,
    left: usize,
    name: &Text,
    fields: &mut Vec<&'a Field>,
    entered: &mut IndexSet<Text>,
    asked: &mut IndexSet<Text>,
) -> Result<(), Memory>
    ensures { OnOk result (met_by fields.new.items entered.new.keys asked.new.keys
        ≡ enter_at left (request_of request.now) ty name.now
        (met_by fields.old.items entered.old.keys asked.old.keys)) }
{
    if left == 0 {
        return Ok(());
    }
    if entered.contains(name) {
        return Ok(());
    }
    entered.insert_full(name.copy(alloc)?)?;
    let Some(fragment) = request.fragments.named(name) else {
        return Ok(());
    };
    if !is_type(request.schema, ty, &fragment.type_condition) {
        return Ok(());
    }
    collect_set(
        alloc,
        request,
        ty,
        left - 1,
        fragment.selections.as_slice(),
        fields,
        entered,
        asked,
    )?;
    Ok(())
}
