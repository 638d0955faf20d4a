//! The nodes of definitions and documents.

ghost use Rattle.std.specs.Prelude.{◌≡◌, IfOk, OnOk, option_map, []};
ghost use Rattle.gql_types.specs.Positions.{ty_if};
ghost use Rattle.gql_nodes.specs.Fields.{if_args as the_if_args};
ghost use Rattle.gql_nodes.specs.Nodes as spec;
ghost use Rattle.gql_nodes.specs.Listed.{views};

use crate::fields::root_of;
use crate::names::{Names, meet_definition};
use crate::node::{At, Location, Node};
use crate::selections::{Set, put_selections};
use crate::values::{put, put_directives, put_value};
use gql_reader::{
    Definition, Document, FragmentDefinition, OperationDefinition, Value, VariableDefinition,
};
use gql_types::{Position, object_named, written};
use pg_base::{ArgDef, Memory, Schema};
use std::alloc::Global;

fn put_default<'a>(
    alloc: Global,
    schema: &'a Schema,
    within: usize,
    ty: Option<Position<'a>>,
    default: &'a Option<Value>,
    out: &mut Vec<At<'a>>,
) -> Result<(), Memory>
    ensures { OnOk result (views out.new.items
        ≡ spec.put_default schema.now within (ty_if ty.entry) default.now (views out.old.items)) }
{
    match default {
        None => Ok(()),
        Some(value) => {
            put_value(alloc, schema, within, ty, value, out)?;
            Ok(())
        }
    }
}

fn put_variable<'a>(
    alloc: Global,
    schema: &'a Schema,
    if_args: &'a [ArgDef],
    within: usize,
    repeated: bool,
    variable: &'a VariableDefinition,
    out: &mut Vec<At<'a>>,
) -> Result<(), Memory>
    requires { if_args.now ≡ the_if_args }
    ensures { OnOk result (views out.new.items
        ≡ spec.put_variable schema.now within repeated variable.now (views out.old.items)) }
{
    put(within, Node::Variable { repeated, variable }, out)?;
    let ty = written(schema, &variable.ty);
    put_default(alloc, schema, within, ty, &variable.default, out)?;
    let at = (within, Location::Other);
    put_directives(
        alloc,
        schema,
        if_args,
        at,
        variable.directives.as_slice(),
        out,
    )?;
    Ok(())
}

fn put_variables<'a>(
    alloc: Global,
    schema: &'a Schema,
    if_args: &'a [ArgDef],
    within: usize,
    variables: &'a [VariableDefinition],
    out: &mut Vec<At<'a>>,
) -> Result<(), Memory>
    requires { if_args.now ≡ the_if_args }
    ensures { OnOk result (views out.new.items
        ≡ spec.put_variables schema.now within [] variables.now (views out.old.items)) }
{
    let mut before = Names::new(alloc);
    for variable in variables {
        let repeated = before.meet(alloc, &variable.name)?;
        put_variable(alloc, schema, if_args, within, repeated, variable, out)?;
    }
    Ok(())
}

fn put_operation<'a>(
    alloc: Global,
    schema: &'a Schema,
    if_args: &'a [ArgDef],
    at: (usize, usize),
    operation: &'a OperationDefinition,
    out: &mut Vec<At<'a>>,
) -> Result<(), Memory>
    requires { if_args.now ≡ the_if_args }
    ensures { OnOk result (views out.new.items
        ≡ spec.put_operation schema.now at.0 at.1 operation.now (views out.old.items)) }
{
    let (within, owner) = at;
    put_variables(
        alloc,
        schema,
        if_args,
        within,
        operation.variables.as_slice(),
        out,
    )?;
    let here = (within, Location::Other);
    put_directives(
        alloc,
        schema,
        if_args,
        here,
        operation.directives.as_slice(),
        out,
    )?;
    let parent = root_of(schema, operation.kind);
    let set = Set {
        within,
        owner,
        parent,
    };
    put_selections(
        alloc,
        schema,
        if_args,
        set,
        operation.selections.as_slice(),
        out,
    )?;
    Ok(())
}

fn put_fragment<'a>(
    alloc: Global,
    schema: &'a Schema,
    if_args: &'a [ArgDef],
    at: (usize, usize),
    fragment: &'a FragmentDefinition,
    out: &mut Vec<At<'a>>,
) -> Result<(), Memory>
    requires { if_args.now ≡ the_if_args }
    ensures { OnOk result (views out.new.items
        ≡ spec.put_fragment schema.now at.0 at.1 fragment.now (views out.old.items)) }
{
    let (within, owner) = at;
    let here = (within, Location::Other);
    put_directives(
        alloc,
        schema,
        if_args,
        here,
        fragment.directives.as_slice(),
        out,
    )?;
    let parent = object_named(schema, &fragment.type_condition);
    let set = Set {
        within,
        owner,
        parent,
    };
    put_selections(
        alloc,
        schema,
        if_args,
        set,
        fragment.selections.as_slice(),
        out,
    )?;
    Ok(())
}

fn put_definition<'a>(
    alloc: Global,
    schema: &'a Schema,
    if_args: &'a [ArgDef],
    within: usize,
    repeated: bool,
    definition: &'a Definition,
    out: &mut Vec<At<'a>>,
) -> Result<(), Memory>
    requires { if_args.now ≡ the_if_args }
    ensures { OnOk result (views out.new.items
        ≡ spec.put_definition schema.now within repeated definition.now (views out.old.items)) }
{
    let at = (within, out.len());
    put(
        within,
        Node::Definition {
            repeated,
            definition,
        },
        out,
    )?;
    match definition {
        Definition::Operation(operation) => {
            put_operation(alloc, schema, if_args, at, operation, out)?;
            Ok(())
        }
        Definition::Fragment(fragment) => {
            put_fragment(alloc, schema, if_args, at, fragment, out)?;
            Ok(())
        }
        Definition::Foreign(_) => Ok(()),
    }
}

/// The nodes of a document, in document order.
pub fn nodes<'a>(
    alloc: Global,
    schema: &'a Schema,
    if_args: &'a [ArgDef],
    document: &'a Document,
) -> Result<Vec<At<'a>>, Memory>
    requires { if_args.now ≡ the_if_args }
    ensures { IfOk result (λ made. views made.items ≡ spec.nodes schema.now document.now) }
{
    let mut out = Vec::new(alloc);
    let mut operations = Names::new(alloc);
    let mut fragments = Names::new(alloc);
    for (within, definition) in document.definitions.as_slice().iter().enumerate() {
        let repeated = meet_definition(alloc, &mut operations, &mut fragments, definition)?;
        put_definition(
            alloc, schema, if_args, within, repeated, definition, &mut out,
        )?;
    }
    Ok(out)
}
