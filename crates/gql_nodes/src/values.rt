//! The nodes of values, arguments and directives.

ghost use Rattle.std.specs.Prelude.{◌≡◌, OnOk, option_map, []};
ghost use Rattle.gql_types.specs.Positions.{ty_if};
ghost use Rattle.gql_types.specs.Types.{item_of as item_of_ty};
ghost use Rattle.std.specs.Prelude.{option_and_then};
ghost use Rattle.gql_nodes.specs.Fields.{if_args as the_if_args};
ghost use Rattle.gql_nodes.specs.Nodes as spec;
ghost use Rattle.gql_nodes.specs.Listed.{views, at_view, put_each_item, put_each_field};

use crate::fields::directive_args;
use crate::names::Names;
use crate::node::{At, Location, Node};
use gql_reader::{Argument, Directive, ObjectField, Value, ValueKind};
use gql_types::{Position, expected, inputs_at};
use pg_base::{ArgDef, Memory, Schema};
use std::alloc::Global;

/// One node more.
pub(crate) fn put<'a>(within: usize, node: Node<'a>, out: &mut Vec<At<'a>>) -> Result<(), Memory>
    ensures { OnOk result (views out.new.items
        ≡ spec.put within (at_view (record { within = within; node = node.entry })).node
        (views out.old.items)) }
{
    out.push(At { within, node })?;
    Ok(())
}

fn item_of(ty: Option<Position<'_>>) -> Option<Position<'_>>
    ensures { ty_if result ≡ option_and_then item_of_ty (ty_if ty.entry) }
{
    match ty {
        None => None,
        Some(position) => position.item(),
    }
}

/// Appends the nodes of a value.
#[cycle(values)]
pub(crate) fn put_value<'a>(
    alloc: Global,
    schema: &'a Schema,
    within: usize,
    ty: Option<Position<'a>>,
    value: &'a Value,
    out: &mut Vec<At<'a>>,
) -> Result<(), Memory>
    ensures { OnOk result (views out.new.items
        ≡ spec.put_value schema.now within (ty_if ty.entry) value.now.kind value.now.pos
        (views out.old.items)) }
{
    put(within, Node::Value { ty, value }, out)?;
    match &value.kind {
        ValueKind::List(items) => {
            put_items(alloc, schema, within, item_of(ty), items.as_slice(), out)?;
            Ok(())
        }
        ValueKind::Object(fields) => {
            let defs = inputs_at(schema, ty);
            put_object_fields(alloc, schema, within, defs, fields.as_slice(), out)?;
            Ok(())
        }
        ValueKind::Variable(_) => Ok(()),
        ValueKind::Int(_) => Ok(()),
        ValueKind::Float(_) => Ok(()),
        ValueKind::String(_) => Ok(()),
        ValueKind::Boolean(_) => Ok(()),
        ValueKind::Null => Ok(()),
        ValueKind::Enum(_) => Ok(()),
    }
}

#[cycle(values)]
fn put_items<'a>(
    alloc: Global,
    schema: &'a Schema,
    within: usize,
    ty: Option<Position<'a>>,
    items: &'a [Value],
    out: &mut Vec<At<'a>>,
) -> Result<(), Memory>
    ensures { OnOk result (views out.new.items
        ≡ put_each_item schema.now within (ty_if ty.entry) items.now (views out.old.items)) }
{
    for item in items {
        put_value(alloc, schema, within, ty, item, out)?;
    }
    Ok(())
}

#[cycle(values)]
fn put_object_fields<'a>(
    alloc: Global,
    schema: &'a Schema,
    within: usize,
    defs: Option<&'a [ArgDef]>,
    fields: &'a [ObjectField],
    out: &mut Vec<At<'a>>,
) -> Result<(), Memory>
    ensures { OnOk result (views out.new.items
        ≡ put_each_field schema.now within [] (option_map (λ x. x.now) defs.entry) fields.now
        (views out.old.items)) }
{
    let mut before = Names::new(alloc);
    for field in fields {
        let repeated = before.meet(alloc, &field.name)?;
        put(
            within,
            Node::ObjectField {
                repeated,
                defs,
                field,
            },
            out,
        )?;
        put_value(
            alloc,
            schema,
            within,
            expected(defs, &field.name),
            &field.value,
            out,
        )?;
    }
    Ok(())
}

fn put_argument<'a>(
    alloc: Global,
    schema: &'a Schema,
    within: usize,
    repeated: bool,
    defs: Option<&'a [ArgDef]>,
    argument: &'a Argument,
    out: &mut Vec<At<'a>>,
) -> Result<(), Memory>
    ensures { OnOk result (views out.new.items ≡ spec.put_argument schema.now within repeated
        (option_map (λ x. x.now) defs.entry) argument.now (views out.old.items)) }
{
    put(
        within,
        Node::Argument {
            repeated,
            defs,
            argument,
        },
        out,
    )?;
    put_value(
        alloc,
        schema,
        within,
        expected(defs, &argument.name),
        &argument.value,
        out,
    )?;
    Ok(())
}

/// Appends the nodes of arguments.
pub(crate) fn put_arguments<'a>(
    alloc: Global,
    schema: &'a Schema,
    within: usize,
    defs: Option<&'a [ArgDef]>,
    arguments: &'a [Argument],
    out: &mut Vec<At<'a>>,
) -> Result<(), Memory>
    ensures { OnOk result (views out.new.items ≡ spec.put_arguments schema.now within []
        (option_map (λ x. x.now) defs.entry) arguments.now (views out.old.items)) }
{
    let mut before = Names::new(alloc);
    for argument in arguments {
        let repeated = before.meet(alloc, &argument.name)?;
        put_argument(alloc, schema, within, repeated, defs, argument, out)?;
    }
    Ok(())
}

fn put_directive<'a>(
    alloc: Global,
    schema: &'a Schema,
    if_args: &'a [ArgDef],
    at: (usize, Location),
    repeated: bool,
    directive: &'a Directive,
    out: &mut Vec<At<'a>>,
) -> Result<(), Memory>
    requires { if_args.now ≡ the_if_args }
    ensures { OnOk result (views out.new.items
        ≡ spec.put_directive schema.now at.0 repeated at.1 directive.now (views out.old.items)) }
{
    let (within, location) = at;
    let defs = directive_args(if_args, &directive.name);
    put(
        within,
        Node::Directive {
            repeated,
            location,
            defs,
            directive,
        },
        out,
    )?;
    put_arguments(
        alloc,
        schema,
        within,
        defs,
        directive.arguments.as_slice(),
        out,
    )?;
    Ok(())
}

/// Appends the nodes of directives.
pub(crate) fn put_directives<'a>(
    alloc: Global,
    schema: &'a Schema,
    if_args: &'a [ArgDef],
    at: (usize, Location),
    directives: &'a [Directive],
    out: &mut Vec<At<'a>>,
) -> Result<(), Memory>
    requires { if_args.now ≡ the_if_args }
    ensures { OnOk result (views out.new.items
        ≡ spec.put_directives schema.now at.0 [] at.1 directives.now (views out.old.items)) }
{
    let mut before = Names::new(alloc);
    for directive in directives {
        let repeated = before.meet(alloc, &directive.name)?;
        put_directive(alloc, schema, if_args, at, repeated, directive, out)?;
    }
    Ok(())
}
