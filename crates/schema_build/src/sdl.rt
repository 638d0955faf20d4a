//! The text of a schema, in GraphQL's language for type systems.

ghost use Rattle.std.specs.Prelude.{◌≡◌, ◌++◌, flat_map, slice_get, codes, OnOk, IfOk};
ghost use Rattle.pg_base.specs.Schema.{name_of};
ghost use Rattle.schema_build.specs.Sdl as text_of;

use json_out::put_text;
use pg_base::schema::{BOOLEAN, INT, STRING};
use pg_base::{ArgDef, Blob, FieldDef, Memory, Schema, Text, TypeDef, TypeKind, TypeRef};
use std::alloc::Global;

/// The text of the schema: its types in their order, with an empty line between two, and a line feed at the end. The
/// built-in types Int, String and Boolean have no definition in it.
#[tactic(auto, unfolding(crate::specs::Sdl::sdl_of))]
pub fn print_schema(alloc: Global, schema: &Schema) -> Result<Blob, Memory>
    ensures text { IfOk result (λ text. text ≡ text_of.sdl_of schema.now) }
{
    let mut out = Vec::new(alloc);
    put_types(&mut out, schema, schema.types())?;
    Ok(Blob::of(out))
}

fn put_types(out: &mut Vec<u8>, schema: &Schema, types: &[TypeDef]) -> Result<(), Memory>
    ensures { OnOk result (out.new.items
        ≡ out.old.items ++ text_of.definitions schema.now types.now) }
{
    match types {
        [] => Ok(()),
        [first, others @ ..] => {
            put_definition(out, schema, first)?;
            put_other_types(out, schema, others)?;
            Ok(())
        }
    }
}

fn put_other_types(out: &mut Vec<u8>, schema: &Schema, others: &[TypeDef]) -> Result<(), Memory>
    ensures { OnOk result (out.new.items ≡ out.old.items
        ++ flat_map (λ other. codes "\n" ++ text_of.definition schema.now other) others.now) }
{
    for other in others {
        out.extend_from_slice(b"\n")?;
        put_definition(out, schema, other)?;
    }
    Ok(())
}

fn put_definition(out: &mut Vec<u8>, schema: &Schema, ty: &TypeDef) -> Result<(), Memory>
    ensures { OnOk result (out.new.items ≡ out.old.items ++ text_of.definition schema.now ty.now) }
{
    let name = ty.name.bytes();
    match &ty.kind {
        TypeKind::Scalar => {
            out.extend_from_slice(b"scalar ")?;
            out.extend_from_slice(name)?;
            out.extend_from_slice(b"\n")?;
            Ok(())
        }
        TypeKind::Object(fields) => {
            put_opening(out, b"type", name)?;
            put_fields(out, schema, fields.as_slice())?;
            out.extend_from_slice(b"}\n")?;
            Ok(())
        }
        TypeKind::Enum(cases) => {
            put_opening(out, b"enum", name)?;
            put_cases(out, cases.as_slice())?;
            out.extend_from_slice(b"}\n")?;
            Ok(())
        }
        TypeKind::Input(args) => {
            put_opening(out, b"input", name)?;
            put_inputs(out, schema, args.as_slice())?;
            out.extend_from_slice(b"}\n")?;
            Ok(())
        }
    }
}

fn put_opening(out: &mut Vec<u8>, word: &[u8], name: &[u8]) -> Result<(), Memory>
    ensures { OnOk result (out.new.items ≡ out.old.items ++ text_of.opening word.now name.now) }
{
    out.extend_from_slice(word)?;
    out.extend_from_slice(b" ")?;
    out.extend_from_slice(name)?;
    out.extend_from_slice(b" {\n")?;
    Ok(())
}

fn put_fields(out: &mut Vec<u8>, schema: &Schema, fields: &[FieldDef]) -> Result<(), Memory>
    ensures { OnOk result (out.new.items ≡ out.old.items
        ++ flat_map (text_of.field_line schema.now) fields.now) }
{
    for field in fields {
        put_field(out, schema, field)?;
    }
    Ok(())
}

fn put_cases(out: &mut Vec<u8>, cases: &[Text]) -> Result<(), Memory>
    ensures { OnOk result (out.new.items ≡ out.old.items ++ flat_map text_of.case_line cases.now) }
{
    for case in cases {
        out.extend_from_slice(b"  ")?;
        out.extend_from_slice(case.bytes())?;
        out.extend_from_slice(b"\n")?;
    }
    Ok(())
}

fn put_inputs(out: &mut Vec<u8>, schema: &Schema, args: &[ArgDef]) -> Result<(), Memory>
    ensures { OnOk result (out.new.items ≡ out.old.items
        ++ flat_map (text_of.input_line schema.now) args.now) }
{
    for arg in args {
        out.extend_from_slice(b"  ")?;
        put_argument(out, schema, arg)?;
        out.extend_from_slice(b"\n")?;
    }
    Ok(())
}

fn put_field(out: &mut Vec<u8>, schema: &Schema, field: &FieldDef) -> Result<(), Memory>
    ensures { OnOk result (out.new.items
        ≡ out.old.items ++ text_of.field_line schema.now field.now) }
{
    out.extend_from_slice(b"  ")?;
    out.extend_from_slice(field.name.bytes())?;
    put_arguments(out, schema, field.args.as_slice())?;
    out.extend_from_slice(b": ")?;
    put_type(out, schema, field.ty)?;
    put_deprecation(out, &field.deprecated)?;
    out.extend_from_slice(b"\n")?;
    Ok(())
}

fn put_deprecation(out: &mut Vec<u8>, deprecated: &Option<Text>) -> Result<(), Memory>
    ensures { OnOk result (out.new.items ≡ out.old.items ++ text_of.deprecation deprecated.now) }
{
    match deprecated {
        None => Ok(()),
        Some(reason) => {
            out.extend_from_slice(b" @deprecated(reason: ")?;
            put_text(out, reason.bytes())?;
            out.extend_from_slice(b")")?;
            Ok(())
        }
    }
}

fn put_arguments(out: &mut Vec<u8>, schema: &Schema, args: &[ArgDef]) -> Result<(), Memory>
    ensures { OnOk result (out.new.items ≡ out.old.items ++ text_of.arguments schema.now args.now) }
{
    match args {
        [] => Ok(()),
        [first, others @ ..] => {
            out.extend_from_slice(b"(")?;
            put_argument(out, schema, first)?;
            put_other_arguments(out, schema, others)?;
            out.extend_from_slice(b")")?;
            Ok(())
        }
    }
}

fn put_other_arguments(out: &mut Vec<u8>, schema: &Schema, others: &[ArgDef]) -> Result<(), Memory>
    ensures { OnOk result (out.new.items ≡ out.old.items
        ++ flat_map (λ other. codes ", " ++ text_of.argument schema.now other) others.now) }
{
    for other in others {
        out.extend_from_slice(b", ")?;
        put_argument(out, schema, other)?;
    }
    Ok(())
}

fn put_argument(out: &mut Vec<u8>, schema: &Schema, arg: &ArgDef) -> Result<(), Memory>
    ensures { OnOk result (out.new.items ≡ out.old.items ++ text_of.argument schema.now arg.now) }
{
    out.extend_from_slice(arg.name.bytes())?;
    out.extend_from_slice(b": ")?;
    put_type(out, schema, arg.ty)?;
    Ok(())
}

fn put_type(out: &mut Vec<u8>, schema: &Schema, ty: TypeRef) -> Result<(), Memory>
    ensures { OnOk result (out.new.items ≡ out.old.items ++ text_of.type_text schema.now ty) }
{
    put_list_or_one(out, schema, ty)?;
    put_bang(out, ty.not_null)?;
    Ok(())
}

fn put_list_or_one(out: &mut Vec<u8>, schema: &Schema, ty: TypeRef) -> Result<(), Memory>
    ensures { OnOk result (out.new.items ≡ out.old.items ++ text_of.list_or_one schema.now ty) }
{
    if !ty.list {
        put_type_name(out, schema, ty.name)?;
        return Ok(());
    }
    out.extend_from_slice(b"[")?;
    put_type_name(out, schema, ty.name)?;
    put_bang(out, ty.item_not_null)?;
    out.extend_from_slice(b"]")?;
    Ok(())
}

fn put_bang(out: &mut Vec<u8>, not_null: bool) -> Result<(), Memory>
    ensures { OnOk result (out.new.items ≡ out.old.items ++ text_of.bang not_null) }
{
    if not_null {
        out.extend_from_slice(b"!")?;
    }
    Ok(())
}

fn put_type_name(out: &mut Vec<u8>, schema: &Schema, ty: u32) -> Result<(), Memory>
    ensures { OnOk result (out.new.items ≡ out.old.items ++ text_of.type_name schema.now ty) }
{
    if ty == INT {
        out.extend_from_slice(b"Int")?;
        return Ok(());
    }
    if ty == STRING {
        out.extend_from_slice(b"String")?;
        return Ok(());
    }
    if ty == BOOLEAN {
        out.extend_from_slice(b"Boolean")?;
        return Ok(());
    }
    put_listed_name(out, schema.types(), ty)?;
    Ok(())
}

fn put_listed_name(out: &mut Vec<u8>, types: &[TypeDef], place: u32) -> Result<(), Memory>
    ensures { OnOk result (out.new.items ≡ out.old.items ++ name_of (slice_get types.now place)) }
{
    match types.get(place as usize) {
        None => Ok(()),
        Some(listed) => {
            out.extend_from_slice(listed.name.bytes())?;
            Ok(())
        }
    }
}
