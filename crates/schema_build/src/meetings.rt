//! Where two names of a schema meet.

ghost use Rattle.std.specs.Prelude.{◌≡◌, ◌<◌, ◌^◌, [], Some, None, length, IfOk};
ghost use Rattle.pg_base.specs.Listing.{map_at};
ghost use Rattle.pg_base.specs.Lists.{Each};
ghost use Rattle.pg_base.specs.SchemaFaults as spec;
ghost use Rattle.pg_base.specs.SchemaFaults.{named};
ghost use Rattle.schema_build.specs.Looking as looking;
ghost use Rattle.schema_build.specs.Looking.{HasFewArgs, HasFewParts, IsAdded, IsPut, first};
ghost use Rattle.pg_base.specs.declared.build_fault.Origin.TheVariants as origin;

use pg_base::{ArgDef, BuildFault, FieldDef, Memory, Origin, Text, TypeKind};
use std::alloc::Global;
use std::collections::HashMap;

// The names that were met, each with its latest place.
pub(crate) type Names = HashMap<Text, Origin>;

// What names stand in: a type, or a field of a type.
#[derive(Clone, Copy)]
pub(crate) enum Holder {
    OfType(u32),
    OfField(u32, u32),
}

impl Holder {
    fn place(self, at: u32) -> Origin
        ensures { result ≡ looking.place_in self at }
    {
        match self {
            Holder::OfType(ty) => Origin::Field(ty, at),
            Holder::OfField(ty, field) => Origin::Argument(ty, field, at),
        }
    }
}

// One more name, which is met from now on, and where the latest earlier one that is equal stands.
fn put_name(
    alloc: Global,
    names: &mut Names,
    name: &Text,
    place: Origin,
) -> Result<Option<Origin>, Memory>
    ensures { IfOk result (λ had. IsPut (named name.now place) names.old names.new had) }
{
    let name = name.copy(alloc)?;
    let had = names.insert(name, place)?;
    Ok(had)
}

// The name of one more type, and the fault where it meets an earlier one.
pub(crate) fn add_type(
    alloc: Global,
    names: &mut Names,
    name: &Text,
    ty: u32,
) -> Result<Option<BuildFault>, Memory>
    ensures { IfOk result
        (λ found. IsAdded None (named name.now (origin.Type ty)) names.old names.new found) }
{
    let later = Origin::Type(ty);
    match put_name(alloc, names, name, later)? {
        None => Ok(None),
        Some(earlier) => {
            let name = name.copy(alloc)?;
            Ok(Some(BuildFault::NamesMeet {
                owner: None,
                name,
                earlier,
                later,
            }))
        }
    }
}

// One more name in a type, and the fault where it meets an earlier one.
fn add_part(
    alloc: Global,
    names: &mut Names,
    owner: &Text,
    name: &Text,
    later: Origin,
) -> Result<Option<BuildFault>, Memory>
    ensures { IfOk result
        (λ found. IsAdded (Some owner.now) (named name.now later) names.old names.new found) }
{
    match put_name(alloc, names, name, later)? {
        None => Ok(None),
        Some(earlier) => {
            let owner = owner.copy(alloc)?;
            let name = name.copy(alloc)?;
            Ok(Some(BuildFault::NamesMeet {
                owner: Some(owner),
                name,
                earlier,
                later,
            }))
        }
    }
}

fn args_meeting(
    alloc: Global,
    owner: &Text,
    holder: Holder,
    args: &[ArgDef],
) -> Result<Option<BuildFault>, Memory>
    requires { length args.now < 2 ^ 32 }
    ensures { IfOk result (λ found. found ≡ first (spec.all_meetings (Some owner.now) []
        (map_at (λ at a. named a.name (looking.place_in holder at)) 0 args.now))) }
{
    let mut names = Names::new(alloc);
    let mut at: u32 = 0;
    for arg in args {
        let found = add_part(alloc, &mut names, owner, &arg.name, holder.place(at))?;
        if found.is_some() {
            return Ok(found);
        }
        at += 1;
    }
    Ok(None)
}

fn cases_meeting(
    alloc: Global,
    owner: &Text,
    ty: u32,
    cases: &[Text],
) -> Result<Option<BuildFault>, Memory>
    requires { length cases.now < 2 ^ 32 }
    ensures { IfOk result (λ found. found ≡ first (spec.all_meetings (Some owner.now) []
        (map_at (λ at c. named c (origin.Field ty at)) 0 cases.now))) }
{
    let mut names = Names::new(alloc);
    let mut at: u32 = 0;
    for case in cases {
        let found = add_part(alloc, &mut names, owner, case, Origin::Field(ty, at))?;
        if found.is_some() {
            return Ok(found);
        }
        at += 1;
    }
    Ok(None)
}

fn fields_meeting(
    alloc: Global,
    owner: &Text,
    ty: u32,
    fields: &[FieldDef],
) -> Result<Option<BuildFault>, Memory>
    requires few { length fields.now < 2 ^ 32 }
    requires few_args { Each HasFewArgs fields.now }
    ensures { IfOk result (λ found. found ≡ first (spec.part_meetings (Some owner.now) []
        (map_at (spec.field_part ty) 0 fields.now))) }
{
    let mut names = Names::new(alloc);
    let mut at: u32 = 0;
    for field in fields {
        let place = Origin::Field(ty, at);
        let found = add_part(alloc, &mut names, owner, &field.name, place)?;
        if found.is_some() {
            return Ok(found);
        }
        let holder = Holder::OfField(ty, at);
        let found = args_meeting(alloc, owner, holder, field.args.as_slice())?;
        if found.is_some() {
            return Ok(found);
        }
        at += 1;
    }
    Ok(None)
}

// The first two names that meet in a type: of its fields and their arguments, its input fields or its cases.
pub(crate) fn meeting_in(
    alloc: Global,
    owner: &Text,
    ty: u32,
    kind: &TypeKind,
) -> Result<Option<BuildFault>, Memory>
    requires { HasFewParts kind.now }
    ensures { IfOk result (λ found. found
        ≡ first (spec.part_meetings (Some owner.now) [] (spec.parts_of ty kind.now))) }
{
    match kind {
        TypeKind::Scalar => Ok(None),
        TypeKind::Object(fields) => {
            let found = fields_meeting(alloc, owner, ty, fields.as_slice())?;
            Ok(found)
        }
        TypeKind::Enum(cases) => {
            let found = cases_meeting(alloc, owner, ty, cases.as_slice())?;
            Ok(found)
        }
        TypeKind::Input(args) => {
            let found = args_meeting(alloc, owner, Holder::OfType(ty), args.as_slice())?;
            Ok(found)
        }
    }
}
