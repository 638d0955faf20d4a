//! Variables at the types of their positions (5.8.5).

ghost use Rattle.std.specs.Prelude.{◌≡◌};
ghost use Rattle.gql_types.specs.Positions.{ty_at, ty_if};
ghost use Rattle.gql_scopes.specs.AllVariableUsagesAreAllowed as spec;

use crate::input_object_required_fields::is_null;
use gql_reader::{Value, VariableDefinition};
use gql_types::{Position, written};
use pg_base::Schema;

fn null_fits(not_null: bool, expected: bool) -> bool
    ensures { result ≡ spec.null_fits not_null expected }
{
    not_null || !expected
}

fn are_compatible(ty: Position<'_>, place: Position<'_>) -> bool
    ensures { result ≡ spec.are_compatible (ty_at ty.entry) (ty_at place.entry) }
{
    are_compatible_but_null(ty, place) && null_fits(ty.is_not_null(), place.is_not_null())
}

fn are_compatible_but_null(ty: Position<'_>, place: Position<'_>) -> bool
    ensures { result ≡ spec.are_compatible_but_null (ty_at ty.entry) (ty_at place.entry) }
{
    match ty.item() {
        None => match place.item() {
            None => ty.name() == place.name(),
            Some(_) => false,
        },
        Some(item) => match place.item() {
            None => false,
            Some(other) => {
                are_compatible_but_null(item, other)
                    && null_fits(item.is_not_null(), other.is_not_null())
            }
        },
    }
}

fn has_default(default: &Option<Value>) -> bool
    ensures { result ≡ spec.has_default default.now }
{
    match default {
        None => false,
        Some(value) => !is_null(value),
    }
}

fn is_allowed(default: &Option<Value>, ty: Position<'_>, place: Position<'_>) -> bool
    ensures { result ≡ spec.is_allowed default.now (ty_at ty.entry) (ty_at place.entry) }
{
    are_compatible(ty, place) || has_default(default) && are_compatible_but_null(ty, place)
}

/// Whether the variable isn't allowed at the position.
pub(crate) fn is_refused(
    schema: &Schema,
    place: Position<'_>,
    variable: &VariableDefinition,
) -> bool
    ensures { result ≡ spec.is_refused schema.now (ty_at place.entry) variable.now }
{
    match written(schema, &variable.ty) {
        None => false,
        Some(ty) => !is_allowed(&variable.default, ty, place),
    }
}
