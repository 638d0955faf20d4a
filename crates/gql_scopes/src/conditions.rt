//! Type conditions of fragments.

ghost use Rattle.std.specs.Prelude.{◌≡◌, option_map};
ghost use Rattle.gql_scopes.specs.Conditions as spec;

use gql_reader::Definition;
use pg_base::Text;

pub(crate) fn definition_condition(definition: &Definition) -> Option<&Text>
    ensures { option_map (λ name. name.now) result ≡ spec.definition_condition definition.now }
{
    match definition {
        Definition::Operation(_) => None,
        Definition::Fragment(fragment) => Some(&fragment.type_condition),
        Definition::Foreign(_) => None,
    }
}
