//! The rules, one after the other.

ghost use Rattle.std.specs.Prelude.{◌≡◌, IfErr, OnOk};
ghost use Rattle.gql_nodes.specs.Listed.{views};
ghost use Rattle.gql_nodes.specs.Nodes.{nodes as nodes_of};
ghost use Rattle.gql_scopes.specs.Scopes as spec;
ghost use Rattle.gql_scopes.specs.Tables.{AreTables};

use crate::rule::ScopeRule;
use crate::search::first_breaking;
use crate::tables::{Tables, gather};
use gql_nodes::{At, RuleError, RuleFault, if_args, nodes};
use gql_reader::Document;
use pg_base::Schema;
use std::alloc::Global;

const RULES: [ScopeRule; 19] = [
    ScopeRule::UniqueFragmentNames,
    ScopeRule::FragmentSpreadTypeExistence,
    ScopeRule::FragmentsOnCompositeTypes,
    ScopeRule::FragmentsMustBeUsed,
    ScopeRule::FragmentSpreadTargetDefined,
    ScopeRule::FragmentSpreadsMustNotFormCycles,
    ScopeRule::FragmentSpreadIsPossible,
    ScopeRule::ValuesOfCorrectType,
    ScopeRule::InputObjectFieldNames,
    ScopeRule::InputObjectFieldUniqueness,
    ScopeRule::InputObjectRequiredFields,
    ScopeRule::DirectivesAreDefined,
    ScopeRule::DirectivesAreInValidLocations,
    ScopeRule::DirectivesAreUniquePerLocation,
    ScopeRule::VariableUniqueness,
    ScopeRule::VariablesAreInputTypes,
    ScopeRule::AllVariableUsesDefined,
    ScopeRule::AllVariablesUsed,
    ScopeRule::AllVariableUsagesAreAllowed,
];

/// The first fault of the rules, which are all of them in the order of their numbers.
fn first_fault_of(
    schema: &Schema,
    document: &Document,
    tables: &Tables,
    nodes: &[At<'_>],
    rules: &[ScopeRule],
) -> Option<RuleFault>
    requires nodes { views nodes.now ≡ nodes_of schema.now document.now }
    requires tables { AreTables document.now (nodes_of schema.now document.now) tables.now }
    requires rules { rules.now ≡ spec.all_rules }
    ensures { spec.IsChecked schema.now document.now result }
{
    for rule in rules {
        let Some(pos) = first_breaking(schema, document, tables, *rule, nodes) else {
            continue;
        };
        return Some(RuleFault {
            rule: rule.number(),
            pos,
        });
    }
    None
}

/// Whether the document keeps the rules of sections 5.5 to 5.8: on fragments, values, directives and variables.
///
/// # Errors
/// The least of these rules that is broken, and where the first node stands that breaks it, or out of memory.
pub fn check_scopes(alloc: Global, schema: &Schema, document: &Document) -> Result<(), RuleError>
    // Each of these rules holds at each node.
    ensures kept { OnOk result (spec.HasValidScopes schema.now document.now) }
    // A fault is that of the least rule that is broken, at its first node.
    ensures fault { IfErr result (spec.IsScopeError schema.now document.now) }
{
    let args = if_args(alloc)?;
    let nodes = nodes(alloc, schema, args.as_slice(), document)?;
    let tables = gather(alloc, document, nodes.as_slice())?;
    match first_fault_of(schema, document, &tables, nodes.as_slice(), &RULES) {
        None => Ok(()),
        Some(fault) => Err(RuleError::Fault(fault)),
    }
}
