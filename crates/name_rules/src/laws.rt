//! Laws of names: functions that do nothing, each with a law as its contract.

ghost use Rattle.std.specs.Prelude.{◌≡◌, ◌++◌, ◌∷◌, [], length, take, IsTrue};
ghost use Rattle.std.specs.Str.{IsUtf8, chars};
ghost use Rattle.std.specs.List.{AllPass};
ghost use Rattle.name_rules.specs.Parts.{parts, has_some, last_part, last_part_start};
ghost use Rattle.name_rules.specs.Inflection.{char_count, singular_of, plural_of};
ghost use Rattle.name_rules.specs.Names.{type_name_of, field_name_of, enum_case_of};
ghost use Rattle.name_rules.specs.Names.{is_name_character, IsName};

/// Each name that is made from a text is a text.
pub fn names_are_utf8(name: &str)
    ensures singular { IsUtf8 (singular_of name.now) }
    ensures plural { IsUtf8 (plural_of name.now) }
    ensures type_name { IsUtf8 (type_name_of name.now) }
    ensures field_name { IsUtf8 (field_name_of name.now) }
    ensures enum_case { IsUtf8 (enum_case_of name.now) }
{}

/// From a name of letters, digits and `_` come letters, digits and `_` alone.
pub fn names_keep_name_characters(name: &[u8])
    requires { AllPass is_name_character name.now }
    ensures singular { AllPass is_name_character (singular_of name.now) }
    ensures plural { AllPass is_name_character (plural_of name.now) }
    ensures type_name { AllPass is_name_character (type_name_of name.now) }
    ensures field_name { AllPass is_name_character (field_name_of name.now) }
{}

/// Each label gives a name of GraphQL (October 2021, section 2.1.9), so no digit stands first.
pub fn enum_cases_are_names(label: &[u8])
    ensures { IsName (enum_case_of label.now) }
{}

/// The part that singular and plural change is the last of a name's parts.
pub fn last_part_is_last(name: &[u8])
    requires { IsTrue (has_some (last_part name.now)) }
    ensures { parts name.now
        ≡ parts (take (last_part_start name.now) name.now) ++ last_part name.now ∷ [] }
{}

/// The count by which words are long enough for a rule is that of their characters.
pub fn char_count_counts_characters(word: &str)
    ensures { char_count word.now ≡ length (chars word.now) }
{}
