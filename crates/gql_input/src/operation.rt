//! The operation of a request.

ghost use Rattle.std.specs.Prelude.{◌≡◌, ◌<◌, ◌+◌, drop, length, option_map, position, IfSome};
ghost use Rattle.std.specs.List.{list_any};
ghost use Rattle.gql_input.specs.Chosen as spec;

use gql_reader::{Definition, Document};
use pg_base::Text;

fn is_operation_named(definition: &Definition, name: &Text) -> bool
    ensures { result ≡ spec.is_operation_named name.now definition.now }
{
    match definition {
        Definition::Operation(operation) => match &operation.name {
            Some(other) => *other == *name,
            None => false,
        },
        Definition::Fragment(_) => false,
        Definition::Foreign(_) => false,
    }
}

fn is_operation(definition: &Definition) -> bool
    ensures { result ≡ spec.is_operation definition.now }
{
    match definition {
        Definition::Operation(_) => true,
        Definition::Fragment(_) => false,
        Definition::Foreign(_) => false,
    }
}

fn place_named(definitions: &[Definition], name: &Text) -> Option<usize>
    ensures { result ≡ position (spec.is_operation_named name.now) definitions.now }
{
    definitions
        .iter()
        .position(|definition| is_operation_named(definition, name))
}

fn first_place(definitions: &[Definition]) -> Option<usize>
    ensures place { result ≡ position spec.is_operation definitions.now }
    ensures within { IfSome result (λ place. place < length definitions.now) }
{
    definitions.iter().position(is_operation)
}

fn has_operation(definitions: &[Definition]) -> bool
    ensures { result ≡ list_any spec.is_operation definitions.now }
{
    definitions.iter().any(is_operation)
}

fn has_another(definitions: &[Definition], place: usize) -> bool
    requires { place < length definitions.now }
    ensures { result ≡ list_any spec.is_operation (drop (place + 1) definitions.now) }
{
    has_operation(&definitions[place + 1..])
}

fn single_place(definitions: &[Definition]) -> Option<usize>
    ensures { result ≡ spec.single definitions.now }
{
    match first_place(definitions) {
        None => None,
        Some(place) => {
            if has_another(definitions, place) {
                return None;
            }
            Some(place)
        }
    }
}

/// The place among the definitions of the operation with the name, or without a name of the only operation; none where
/// there is no such operation.
pub fn chosen_operation(document: &Document, name: Option<&Text>) -> Option<usize>
    ensures { result ≡ spec.chosen document.now (option_map (λ n. n.now) name.entry) }
{
    match name {
        Some(name) => place_named(document.definitions.as_slice(), name),
        None => single_place(document.definitions.as_slice()),
    }
}
