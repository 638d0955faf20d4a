//! The nodes of selections.

ghost use Rattle.std.specs.Prelude.{◌≡◌, OnOk, option_map, []};
ghost use Rattle.gql_nodes.specs.Fields.{if_args as the_if_args};
ghost use Rattle.gql_nodes.specs.Nodes as spec;
ghost use Rattle.gql_nodes.specs.Listed.{views, known_at};

use crate::fields::{Known, args_of, below, field_of, within_condition};
use crate::node::{At, Location, Node};
use crate::values::{put, put_arguments, put_directives};
use gql_reader::{Field, FragmentSpread, InlineFragment, Selection};
use pg_base::{ArgDef, Memory, Schema};
use std::alloc::Global;

/// Where selections stand: the place of their definition, the owner of their selection set, and its parent type.
#[derive(Clone, Copy)]
pub(crate) struct Set {
    pub within: usize,
    pub owner: usize,
    pub parent: Option<u32>,
}

fn put_field_head<'a>(
    alloc: Global,
    schema: &'a Schema,
    if_args: &'a [ArgDef],
    set: Set,
    known: Option<Known<'a>>,
    field: &'a Field,
    out: &mut Vec<At<'a>>,
) -> Result<(), Memory>
    requires { if_args.now ≡ the_if_args }
    ensures { OnOk result (views out.new.items
        ≡ spec.put_field_head schema.now set.within set.owner set.parent
        (option_map known_at known.entry) field.now (views out.old.items)) }
{
    let node = Node::Field {
        owner: set.owner,
        parent: set.parent,
        known,
        field,
    };
    put(set.within, node, out)?;
    put_arguments(
        alloc,
        schema,
        set.within,
        args_of(known),
        field.arguments.as_slice(),
        out,
    )?;
    let at = (set.within, Location::Field);
    put_directives(alloc, schema, if_args, at, field.directives.as_slice(), out)?;
    Ok(())
}

fn put_spread<'a>(
    alloc: Global,
    schema: &'a Schema,
    if_args: &'a [ArgDef],
    set: Set,
    spread: &'a FragmentSpread,
    out: &mut Vec<At<'a>>,
) -> Result<(), Memory>
    requires { if_args.now ≡ the_if_args }
    ensures { OnOk result (views out.new.items
        ≡ spec.put_spread schema.now set.within set.owner set.parent spread.now
        (views out.old.items)) }
{
    let node = Node::Spread {
        owner: set.owner,
        parent: set.parent,
        spread,
    };
    put(set.within, node, out)?;
    let at = (set.within, Location::FragmentSpread);
    put_directives(
        alloc,
        schema,
        if_args,
        at,
        spread.directives.as_slice(),
        out,
    )?;
    Ok(())
}

fn put_inline_head<'a>(
    alloc: Global,
    schema: &'a Schema,
    if_args: &'a [ArgDef],
    set: Set,
    inline: &'a InlineFragment,
    out: &mut Vec<At<'a>>,
) -> Result<(), Memory>
    requires { if_args.now ≡ the_if_args }
    ensures { OnOk result (views out.new.items
        ≡ spec.put_inline_head schema.now set.within set.owner set.parent inline.now
        (views out.old.items)) }
{
    let node = Node::Inline {
        owner: set.owner,
        parent: set.parent,
        inline,
    };
    put(set.within, node, out)?;
    let at = (set.within, Location::InlineFragment);
    put_directives(
        alloc,
        schema,
        if_args,
        at,
        inline.directives.as_slice(),
        out,
    )?;
    Ok(())
}

#[cycle(selections)]
fn put_selection<'a>(
    alloc: Global,
    schema: &'a Schema,
    if_args: &'a [ArgDef],
    set: Set,
    selection: &'a Selection,
    out: &mut Vec<At<'a>>,
) -> Result<(), Memory>
    requires { if_args.now ≡ the_if_args }
    ensures { OnOk result (views out.new.items
        ≡ spec.put_selection schema.now set.within set.owner set.parent selection.now
        (views out.old.items)) }
{
    let owner = out.len();
    match selection {
        Selection::Field(field) => {
            let known = field_of(schema, set.parent, &field.name);
            put_field_head(alloc, schema, if_args, set, known, field, out)?;
            let parent = below(schema, known);
            let inner = Set {
                within: set.within,
                owner,
                parent,
            };
            put_selections(
                alloc,
                schema,
                if_args,
                inner,
                field.selections.as_slice(),
                out,
            )?;
            Ok(())
        }
        Selection::FragmentSpread(spread) => {
            put_spread(alloc, schema, if_args, set, spread, out)?;
            Ok(())
        }
        Selection::InlineFragment(inline) => {
            put_inline_head(alloc, schema, if_args, set, inline, out)?;
            let parent = within_condition(schema, set.parent, &inline.type_condition);
            let inner = Set {
                within: set.within,
                owner,
                parent,
            };
            put_selections(
                alloc,
                schema,
                if_args,
                inner,
                inline.selections.as_slice(),
                out,
            )?;
            Ok(())
        }
    }
}

/// Appends the nodes of the selections of a set.
#[cycle(selections)]
pub(crate) fn put_selections<'a>(
    alloc: Global,
    schema: &'a Schema,
    if_args: &'a [ArgDef],
    set: Set,
    selections: &'a [Selection],
    out: &mut Vec<At<'a>>,
) -> Result<(), Memory>
    requires { if_args.now ≡ the_if_args }
    ensures { OnOk result (views out.new.items
        ≡ spec.put_selections schema.now set.within set.owner set.parent selections.now
        (views out.old.items)) }
{
    for selection in selections {
        put_selection(alloc, schema, if_args, set, selection, out)?;
    }
    Ok(())
}
