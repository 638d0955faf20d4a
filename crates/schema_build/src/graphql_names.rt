//! Names of GraphQL (October 2021, section 2.1.9), and the first name of a type that is none.

ghost use Rattle.std.specs.Prelude.{◌≡◌, ◌∷◌, not, ◌&&◌, ◌||◌, find, map};
ghost use Rattle.std.specs.List.{list_all};
ghost use Rattle.std.specs.Char.{is_ascii_alphabetic};
ghost use Rattle.std.specs.Option.{option_copied};
ghost use Rattle.name_rules.specs.Parts.{is_underscore};
ghost use Rattle.name_rules.specs.Names.{is_name_character};
ghost use Rattle.pg_base.specs.SchemaFaults as spec;
ghost use Rattle.schema_build.specs.Looking.{is_odd, names_in_fields, names_in};

use pg_base::{ArgDef, FieldDef, Text, TypeKind};

fn is_start(c: u8) -> bool
    ensures { result ≡ (is_ascii_alphabetic c || is_underscore c) }
{
    if c.is_ascii_alphabetic() {
        return true;
    }
    c == b'_'
}

fn is_character(c: u8) -> bool
    ensures { result ≡ is_name_character c }
{
    if c.is_ascii_alphanumeric() {
        return true;
    }
    c == b'_'
}

fn are_characters(bytes: &[u8]) -> bool
    ensures { result ≡ list_all is_name_character bytes.now }
{
    bytes.iter().all(|c| is_character(*c))
}

// Two characters that begin a name which introspection keeps for itself (section 4.1).
fn are_underscores(c: u8, d: u8) -> bool
    ensures { result ≡ (is_underscore c && is_underscore d) }
{
    if c != b'_' {
        return false;
    }
    d == b'_'
}

fn is_name(name: &[u8]) -> bool
    ensures { result ≡ spec.is_name name.now }
{
    match name {
        [] => false,
        [c, others @ ..] => is_name_from(*c, others),
    }
}

fn is_name_from(c: u8, others: &[u8]) -> bool
    ensures { result ≡ spec.is_name (c ∷ others.now) }
{
    match others {
        [] => is_start(c),
        [d, ..] => is_name_of_two(c, *d, others),
    }
}

fn is_name_of_two(c: u8, d: u8, others: &[u8]) -> bool
    ensures { result ≡ (((is_ascii_alphabetic c || is_underscore c)
        && not (is_underscore c && is_underscore d)) && list_all is_name_character others.now) }
{
    if !is_start(c) {
        return false;
    }
    if are_underscores(c, d) {
        return false;
    }
    are_characters(others)
}

// Whether it is no name.
pub(crate) fn is_odd(name: &Text) -> bool
    ensures { result ≡ is_odd name.now }
{
    !is_name(name.bytes())
}

fn odd_argument(args: &[ArgDef]) -> Option<&Text>
    ensures { option_copied result ≡ find is_odd (map (λ a. a.name) args.now) }
{
    for arg in args {
        if is_odd(&arg.name) {
            return Some(&arg.name);
        }
    }
    None
}

fn odd_case(cases: &[Text]) -> Option<&Text>
    ensures { option_copied result ≡ find is_odd cases.now }
{
    cases.iter().find(|case| is_odd(case))
}

fn odd_in_fields(fields: &[FieldDef]) -> Option<&Text>
    ensures { option_copied result ≡ find is_odd (names_in_fields fields.now) }
{
    for field in fields {
        if is_odd(&field.name) {
            return Some(&field.name);
        }
        let odd = odd_argument(field.args.as_slice());
        if odd.is_some() {
            return odd;
        }
    }
    None
}

// The first name of a field, an argument, an input field or a case that is none.
pub(crate) fn odd_in(kind: &TypeKind) -> Option<&Text>
    ensures { option_copied result ≡ find is_odd (names_in kind.now) }
{
    match kind {
        TypeKind::Scalar => None,
        TypeKind::Object(fields) => odd_in_fields(fields.as_slice()),
        TypeKind::Enum(cases) => odd_case(cases.as_slice()),
        TypeKind::Input(args) => odd_argument(args.as_slice()),
    }
}
