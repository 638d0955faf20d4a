//! The rules of sections 5.1 to 5.4, by their numbers.

ghost use Rattle.std.specs.Prelude.{◌≡◌, ◌≤◌};
ghost use Rattle.gql_validate.specs.Shapes as spec;

/// A rule on the shape of a document.
#[derive(Clone, Copy, Debug, PartialEq, Eq)]
pub enum ShapeRule {
    ExecutableDefinitions,
    UniqueOperationNames,
    LoneAnonymousOperation,
    SingleRootField,
    FieldSelections,
    FieldSelectionMerging,
    LeafFieldSelections,
    ArgumentNames,
    ArgumentUniqueness,
    RequiredArguments,
}

/// The rule with the number, from 1 to 10.
pub(crate) fn rule_at(number: u8) -> ShapeRule
    ensures { result ≡ spec.rule_at number }
{
    if number == 1 {
        return ShapeRule::ExecutableDefinitions;
    }
    if number == 2 {
        return ShapeRule::UniqueOperationNames;
    }
    if number == 3 {
        return ShapeRule::LoneAnonymousOperation;
    }
    if number == 4 {
        return ShapeRule::SingleRootField;
    }
    if number == 5 {
        return ShapeRule::FieldSelections;
    }
    if number == 6 {
        return ShapeRule::FieldSelectionMerging;
    }
    if number == 7 {
        return ShapeRule::LeafFieldSelections;
    }
    if number == 8 {
        return ShapeRule::ArgumentNames;
    }
    if number == 9 {
        return ShapeRule::ArgumentUniqueness;
    }
    ShapeRule::RequiredArguments
}
