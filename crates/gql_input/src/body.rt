//! Variables as a text of JSON.

ghost use Rattle.std.specs.Prelude.{◌≡◌, Err, IfOk};
ghost use Rattle.serde_json.specs.Data.{Data};
ghost use Rattle.serde_json.specs.View.{view};
ghost use Rattle.gql_input.specs.Body as spec;
ghost use Rattle.gql_input.specs.declared.body.BodyError.TheVariants.{NoVariables};

use serde_json::Value as Json;
use std::alloc::Global;

/// Why a text gives no variables.
#[derive(Clone, Copy, Debug, PartialEq, Eq, Drop)]
pub enum BodyError {
    /// It isn't a JSON object or null that nests at most 127 deep.
    NoVariables,
    /// Memory ran out.
    Memory,
}

fn is_variables(given: &Json) -> bool
    ensures { result ≡ spec.is_variables (view given.now) }
{
    given.is_object() || given.is_null()
}

/// The variables that the bytes spell: an object of JSON, or null, which has no members.
pub fn read_variables(alloc: Global, bytes: &[u8]) -> Result<Json, BodyError>
    // What is read is what the bytes spell.
    ensures found { IfOk result (λ given. spec.AreVariablesOf bytes.now (view given)) }
    // Bytes are refused only where they spell no variables.
    ensures refused { result ≡ Err NoVariables → (d : Data) → ¬ (spec.AreVariablesOf bytes.now d) }
{
    match Json::from_slice(alloc, bytes) {
        Ok(given) => {
            if !is_variables(&given) {
                return Err(BodyError::NoVariables);
            }
            Ok(given)
        }
        Err(error) => {
            if error.is_memory() {
                return Err(BodyError::Memory);
            }
            Err(BodyError::NoVariables)
        }
    }
}
