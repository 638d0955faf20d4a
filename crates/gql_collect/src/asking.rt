//! Which selections `skip` and `include` leave in, and the variables that this asks (section 6.3.2).

ghost use Rattle.std.specs.Prelude.{◌≡◌, IfOk, OnOk, option_map};
ghost use Rattle.std.specs.Str.{bytes_eq};
ghost use Rattle.gql_collect.specs.Asking as spec;

use gql_reader::{Argument, Directive, Value, ValueKind};
use indexmap::IndexSet;
use pg_base::{Memory, Text, Vars};
use std::alloc::Global;

pub(crate) fn is_word(text: &Text, word: &[u8]) -> bool
    ensures { result ≡ bytes_eq text.now word.now }
{
    text.bytes() == word
}

pub(crate) fn argument_named<'a>(arguments: &'a [Argument], name: &[u8]) -> Option<&'a Value>
    ensures { option_map (λ v. v.now) result ≡ spec.argument_in arguments.now name.now }
{
    for argument in arguments {
        if is_word(&argument.name, name) {
            return Some(&argument.value);
        }
    }
    None
}

fn directive_named<'a>(directives: &'a [Directive], name: &[u8]) -> Option<&'a Directive>
    ensures { option_map (λ d. d.now) result ≡ spec.directive_in directives.now name.now }
{
    for directive in directives {
        if is_word(&directive.name, name) {
            return Some(directive);
        }
    }
    None
}

fn is_true(value: Option<&pg_base::Value>) -> bool
    ensures { result ≡ spec.is_true (option_map (λ v. v.now) value.entry) }
{
    match value {
        Some(pg_base::Value::Bool(truth)) => *truth,
        _ => false,
    }
}

fn ask_kind(
    alloc: Global,
    vars: &Vars,
    kind: &ValueKind,
    asked: &mut IndexSet<Text>,
) -> Result<bool, Memory>
    ensures answer { IfOk result (λ b. b ≡ spec.kind_holds vars.now kind.now) }
    ensures asked { OnOk result (asked.new.keys
        ≡ spec.with_names asked.old.keys (spec.kind_asks kind.now)) }
{
    match kind {
        ValueKind::Boolean(truth) => Ok(*truth),
        ValueKind::Variable(name) => {
            asked.insert_full(name.copy(alloc)?)?;
            Ok(is_true(vars.get(name)))
        }
        _ => Ok(false),
    }
}

/// Asks the `if` of a directive.
fn ask(
    alloc: Global,
    vars: &Vars,
    directive: &Directive,
    asked: &mut IndexSet<Text>,
) -> Result<bool, Memory>
    ensures answer { IfOk result (λ b. b ≡ spec.holds vars.now (spec.if_of directive.now)) }
    ensures asked { OnOk result (asked.new.keys
        ≡ spec.with_names asked.old.keys (spec.asks (spec.if_of directive.now))) }
{
    match argument_named(directive.arguments.as_slice(), b"if") {
        None => Ok(false),
        Some(value) => {
            let truth = ask_kind(alloc, vars, &value.kind, asked)?;
            Ok(truth)
        }
    }
}

fn ask_include(
    alloc: Global,
    vars: &Vars,
    directives: &[Directive],
    asked: &mut IndexSet<Text>,
) -> Result<bool, Memory>
    ensures kept { IfOk result (λ b. b ≡ (spec.included vars.now directives.now).kept) }
    ensures asked { OnOk result (asked.new.keys
        ≡ spec.with_names asked.old.keys (spec.included vars.now directives.now).asked) }
{
    match directive_named(directives, b"include") {
        None => Ok(true),
        Some(include) => {
            let kept = ask(alloc, vars, include, asked)?;
            Ok(kept)
        }
    }
}

/// Whether the directives leave a selection in.
pub(crate) fn choose(
    alloc: Global,
    vars: &Vars,
    directives: &[Directive],
    asked: &mut IndexSet<Text>,
) -> Result<bool, Memory>
    ensures kept { IfOk result (λ b. b ≡ (spec.chosen vars.now directives.now).kept) }
    ensures asked { OnOk result (asked.new.keys
        ≡ spec.with_names asked.old.keys (spec.chosen vars.now directives.now).asked) }
{
    match directive_named(directives, b"skip") {
        None => {
            let kept = ask_include(alloc, vars, directives, asked)?;
            Ok(kept)
        }
        Some(skip) => {
            if ask(alloc, vars, skip, asked)? {
                return Ok(false);
            }
            let kept = ask_include(alloc, vars, directives, asked)?;
            Ok(kept)
        }
    }
}
