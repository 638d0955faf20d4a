//! The check of all rules on the shape of a document.

ghost use Rattle.std.specs.Prelude.{◌≡◌, ◌≤◌, OnOk, IfOk, IfErr};
ghost use Rattle.gql_nodes.specs.Fields.{if_args as the_if_args};
ghost use Rattle.gql_nodes.specs.Listed.{views};
ghost use Rattle.gql_nodes.specs.Nodes.{nodes as all_nodes};
ghost use Rattle.gql_nodes.specs.Rules.{Holds, IsFound};
ghost use Rattle.gql_validate.specs.Shapes as spec;

use crate::field_selection_merging::first_unmergeable;
use crate::rule::{ShapeRule, rule_at};
use crate::search::first_breaking;
use gql_nodes::{At, RuleError, RuleFault, if_args, nodes};
use gql_reader::Document;
use pg_base::{Memory, Pos, Schema};
use std::alloc::Global;

fn is_merging(rule: ShapeRule) -> bool
    ensures { result ≡ spec.is_merging rule }
{
    match rule {
        ShapeRule::ExecutableDefinitions => false,
        ShapeRule::UniqueOperationNames => false,
        ShapeRule::LoneAnonymousOperation => false,
        ShapeRule::SingleRootField => false,
        ShapeRule::FieldSelections => false,
        ShapeRule::FieldSelectionMerging => true,
        ShapeRule::LeafFieldSelections => false,
        ShapeRule::ArgumentNames => false,
        ShapeRule::ArgumentUniqueness => false,
        ShapeRule::RequiredArguments => false,
    }
}

/// Where the first node stands that breaks the rule.
fn first_for(
    alloc: Global,
    schema: &Schema,
    document: &Document,
    rule: ShapeRule,
    nodes: &[At<'_>],
) -> Result<Option<Pos>, Memory>
    requires { views nodes.now ≡ all_nodes schema.now document.now }
    ensures { IfOk result (λ found.
        IsFound (spec.Breaks schema.now document.now rule)
        (all_nodes schema.now document.now) found) }
{
    if is_merging(rule) {
        let found = first_unmergeable(alloc, nodes)?;
        return Ok(found);
    }
    Ok(first_breaking(schema, document, rule, nodes))
}

/// Checks the rule with the number.
fn check_rule(
    alloc: Global,
    schema: &Schema,
    document: &Document,
    number: u8,
    nodes: &[At<'_>],
) -> Result<(), RuleError>
    requires { views nodes.now ≡ all_nodes schema.now document.now }
    ensures holds { OnOk result (Holds (spec.Breaks schema.now document.now (spec.rule_at number))
        (all_nodes schema.now document.now)) }
    ensures fault { IfErr result (spec.IsFaultOf schema.now document.now number) }
{
    let found = first_for(alloc, schema, document, rule_at(number), nodes)?;
    match found {
        None => Ok(()),
        Some(pos) => Err(RuleError::Fault(RuleFault { rule: number, pos })),
    }
}

fn check_rules(
    alloc: Global,
    schema: &Schema,
    document: &Document,
    nodes: &[At<'_>],
) -> Result<(), RuleError>
    requires { views nodes.now ≡ all_nodes schema.now document.now }
    ensures valid { OnOk result (spec.HasValidShape schema.now document.now) }
    ensures fault { IfErr result (spec.IsShapeError schema.now document.now) }
{
    for number in 1..11u8 {
        match check_rule(alloc, schema, document, number, nodes) {
            Ok(()) => continue,
            Err(error) => return Err(error),
        }
    }
    Ok(())
}

/// Checks the rules of sections 5.1 to 5.4: `Ok` exactly where no node of the document breaks one of them; else the
/// least rule that is broken, by its number, at its first node in document order.
pub fn check_shapes(alloc: Global, schema: &Schema, document: &Document) -> Result<(), RuleError>
    ensures valid { OnOk result (spec.HasValidShape schema.now document.now) }
    ensures fault { IfErr result (spec.IsShapeError schema.now document.now) }
{
    let args = if_args(alloc)?;
    let list = nodes(alloc, schema, args.as_slice(), document)?;
    check_rules(alloc, schema, document, list.as_slice())
}
