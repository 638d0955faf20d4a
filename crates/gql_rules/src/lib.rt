//! Whether a document is valid for a schema: section 5 of the GraphQL specification (October 2021).
#![tactic(auto)]

ghost use Rattle.std.specs.Prelude.{IfErr, OnOk};
ghost use Rattle.gql_validate.specs.Shapes.{HasValidShape};
ghost use Rattle.gql_rules.specs.Rules as spec;

pub mod laws;

use gql_nodes::RuleError;
use gql_reader::Document;
use gql_scopes::check_scopes;
use gql_validate::check_shapes;
use pg_base::Schema;
use std::alloc::Global;

/// The rules on scopes, after those on shapes.
#[tactic(auto, using(crate::proofs::Together::both_hold, crate::proofs::Together::scope_error))]
fn check_rest(alloc: Global, schema: &Schema, document: &Document) -> Result<(), RuleError>
    requires { HasValidShape schema.now document.now }
    ensures valid { OnOk result (spec.IsValidDocument schema.now document.now) }
    ensures fault { IfErr result (spec.IsRuleError schema.now document.now) }
{
    match check_scopes(alloc, schema, document) {
        Ok(()) => Ok(()),
        Err(error) => Err(error),
    }
}

/// Whether the document keeps all rules.
///
/// # Errors
/// The least rule that is broken, from 1 to 29, and where the first node stands that breaks it, or out of memory.
#[tactic(auto, using(crate::proofs::Together::shape_error))]
pub fn check_document(alloc: Global, schema: &Schema, document: &Document) -> Result<(), RuleError>
    // No node of the document breaks a rule.
    ensures valid { OnOk result (spec.IsValidDocument schema.now document.now) }
    // A fault is that of the least rule that is broken, at its first node.
    ensures fault { IfErr result (spec.IsRuleError schema.now document.now) }
{
    match check_shapes(alloc, schema, document) {
        Ok(()) => check_rest(alloc, schema, document),
        Err(error) => Err(error),
    }
}
