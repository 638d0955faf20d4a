//! The messages of the rules of validation.

ghost use Rattle.std.specs.Prelude.{◌≡◌};
ghost use Rattle.request_core.specs.RuleMessages as spec;

fn on_executables(rule: u8) -> &'static str
    ensures { result.now ≡ spec.on_executables rule }
{
    if rule == 1 {
        "rule 5.1.1: executable definitions"
    } else if rule == 2 {
        "rule 5.2.1.1: unique operation names"
    } else if rule == 3 {
        "rule 5.2.2.1: lone anonymous operation"
    } else {
        "rule 5.2.3.1: single root field"
    }
}

fn on_fields(rule: u8) -> &'static str
    ensures { result.now ≡ spec.on_fields rule }
{
    if rule == 5 {
        "rule 5.3.1: field selections"
    } else if rule == 6 {
        "rule 5.3.2: field selection merging"
    } else {
        "rule 5.3.3: leaf field selections"
    }
}

fn on_arguments(rule: u8) -> &'static str
    ensures { result.now ≡ spec.on_arguments rule }
{
    if rule == 8 {
        "rule 5.4.1: argument names"
    } else if rule == 9 {
        "rule 5.4.2: argument uniqueness"
    } else {
        "rule 5.4.2.1: required arguments"
    }
}

fn on_fragments(rule: u8) -> &'static str
    ensures { result.now ≡ spec.on_fragments rule }
{
    if rule == 11 {
        "rule 5.5.1.1: unique fragment names"
    } else if rule == 12 {
        "rule 5.5.1.2: fragment spread type existence"
    } else if rule == 13 {
        "rule 5.5.1.3: fragments on composite types"
    } else if rule == 14 {
        "rule 5.5.1.4: fragments must be used"
    } else if rule == 15 {
        "rule 5.5.2.1: fragment spread target defined"
    } else if rule == 16 {
        "rule 5.5.2.2: fragment spreads must not form cycles"
    } else {
        "rule 5.5.2.3: fragment spread is possible"
    }
}

fn on_values(rule: u8) -> &'static str
    ensures { result.now ≡ spec.on_values rule }
{
    if rule == 18 {
        "rule 5.6.1: values of correct type"
    } else if rule == 19 {
        "rule 5.6.2: input object field names"
    } else if rule == 20 {
        "rule 5.6.3: input object field uniqueness"
    } else {
        "rule 5.6.4: input object required fields"
    }
}

fn on_directives(rule: u8) -> &'static str
    ensures { result.now ≡ spec.on_directives rule }
{
    if rule == 22 {
        "rule 5.7.1: directives are defined"
    } else if rule == 23 {
        "rule 5.7.2: directives are in valid locations"
    } else {
        "rule 5.7.3: directives are unique per location"
    }
}

fn on_variables(rule: u8) -> &'static str
    ensures { result.now ≡ spec.on_variables rule }
{
    if rule == 25 {
        "rule 5.8.1: variable uniqueness"
    } else if rule == 26 {
        "rule 5.8.2: variables are input types"
    } else if rule == 27 {
        "rule 5.8.3: all variable uses defined"
    } else if rule == 28 {
        "rule 5.8.4: all variables used"
    } else {
        "rule 5.8.5: all variable usages are allowed"
    }
}

/// The message of the rule of the number, from 1 to 29.
pub(crate) fn rule_message(rule: u8) -> &'static str
    ensures { result.now ≡ spec.rule_message rule }
{
    if rule < 5 {
        on_executables(rule)
    } else if rule < 8 {
        on_fields(rule)
    } else if rule < 11 {
        on_arguments(rule)
    } else if rule < 18 {
        on_fragments(rule)
    } else if rule < 22 {
        on_values(rule)
    } else if rule < 25 {
        on_directives(rule)
    } else {
        on_variables(rule)
    }
}
