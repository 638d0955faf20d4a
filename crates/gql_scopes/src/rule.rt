//! The rules of sections 5.5 to 5.8.

ghost use Rattle.std.specs.Prelude.{◌≡◌};
ghost use Rattle.gql_scopes.specs.Scopes as spec;

/// A rule on the fragments, values, directives and variables of a document, named as the specification names it.
#[derive(Clone, Copy, Debug, PartialEq, Eq)]
pub enum ScopeRule {
    UniqueFragmentNames,
    FragmentSpreadTypeExistence,
    FragmentsOnCompositeTypes,
    FragmentsMustBeUsed,
    FragmentSpreadTargetDefined,
    FragmentSpreadsMustNotFormCycles,
    FragmentSpreadIsPossible,
    ValuesOfCorrectType,
    InputObjectFieldNames,
    InputObjectFieldUniqueness,
    InputObjectRequiredFields,
    DirectivesAreDefined,
    DirectivesAreInValidLocations,
    DirectivesAreUniquePerLocation,
    VariableUniqueness,
    VariablesAreInputTypes,
    AllVariableUsesDefined,
    AllVariablesUsed,
    AllVariableUsagesAreAllowed,
}

impl ScopeRule {
    /// The rule's number, by which faults are told.
    pub fn number(self) -> u8
        ensures { result ≡ spec.number self }
    {
        match self {
            ScopeRule::UniqueFragmentNames => 11,
            ScopeRule::FragmentSpreadTypeExistence => 12,
            ScopeRule::FragmentsOnCompositeTypes => 13,
            ScopeRule::FragmentsMustBeUsed => 14,
            ScopeRule::FragmentSpreadTargetDefined => 15,
            ScopeRule::FragmentSpreadsMustNotFormCycles => 16,
            ScopeRule::FragmentSpreadIsPossible => 17,
            ScopeRule::ValuesOfCorrectType => 18,
            ScopeRule::InputObjectFieldNames => 19,
            ScopeRule::InputObjectFieldUniqueness => 20,
            ScopeRule::InputObjectRequiredFields => 21,
            ScopeRule::DirectivesAreDefined => 22,
            ScopeRule::DirectivesAreInValidLocations => 23,
            ScopeRule::DirectivesAreUniquePerLocation => 24,
            ScopeRule::VariableUniqueness => 25,
            ScopeRule::VariablesAreInputTypes => 26,
            ScopeRule::AllVariableUsesDefined => 27,
            ScopeRule::AllVariablesUsed => 28,
            ScopeRule::AllVariableUsagesAreAllowed => 29,
        }
    }
}
