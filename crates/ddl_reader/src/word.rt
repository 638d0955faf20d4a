//! The words of the grammar.

ghost use Rattle.std.specs.Prelude.{◌≡◌};
ghost use Rattle.std.specs.Str.{str_eq_ignore_ascii_case};
ghost use Rattle.ddl_reader.specs.Words as spec;

/// What a word means in a script, whatever its case.
#[derive(Clone, Copy, Debug, PartialEq, Eq)]
pub enum Word {
    Action,
    Add,
    Alter,
    Always,
    As,
    Begin,
    BigIntType,
    BigSerialType,
    BooleanType,
    By,
    Character,
    Check,
    Collate,
    Column,
    Comment,
    Commit,
    Constraint,
    Create,
    Default,
    Delete,
    Enum,
    Exclude,
    Exists,
    Extension,
    False,
    Foreign,
    Generated,
    Identity,
    If,
    Index,
    Insert,
    IntegerType,
    Into,
    Is,
    Key,
    Like,
    No,
    Not,
    Null,
    On,
    Only,
    Primary,
    References,
    Restrict,
    Returning,
    Select,
    SerialType,
    Set,
    Start,
    Table,
    TextType,
    True,
    Type,
    Unique,
    Update,
    Values,
    Varchar,
    Varying,
    /// A word that only names something.
    Other,
}

fn is_word(spelling: &[u8], word: &str) -> bool
    ensures { result ≡ str_eq_ignore_ascii_case spelling.now word.now }
{
    spelling.eq_ignore_ascii_case(word.as_bytes())
}

#[tactic(auto, unfolding(crate::specs::Words::of_two))]
fn of_two(spelling: &[u8]) -> Word
    ensures { result ≡ spec.of_two spelling.now }
{
    if is_word(spelling, "as") {
        Word::As
    } else if is_word(spelling, "if") {
        Word::If
    } else if is_word(spelling, "on") {
        Word::On
    } else if is_word(spelling, "by") {
        Word::By
    } else if is_word(spelling, "is") {
        Word::Is
    } else if is_word(spelling, "no") {
        Word::No
    } else {
        Word::Other
    }
}

#[tactic(auto, unfolding(crate::specs::Words::of_three))]
fn of_three(spelling: &[u8]) -> Word
    ensures { result ≡ spec.of_three spelling.now }
{
    if is_word(spelling, "set") {
        Word::Set
    } else if is_word(spelling, "not") {
        Word::Not
    } else if is_word(spelling, "key") {
        Word::Key
    } else if is_word(spelling, "add") {
        Word::Add
    } else if is_word(spelling, "int") {
        Word::IntegerType
    } else {
        Word::Other
    }
}

#[tactic(auto, unfolding(crate::specs::Words::of_four))]
fn of_four(spelling: &[u8]) -> Word
    ensures { result ≡ spec.of_four spelling.now }
{
    if is_word(spelling, "type") {
        Word::Type
    } else if is_word(spelling, "enum") {
        Word::Enum
    } else if is_word(spelling, "into") {
        Word::Into
    } else if is_word(spelling, "null") {
        Word::Null
    } else if is_word(spelling, "true") {
        Word::True
    } else if is_word(spelling, "like") {
        Word::Like
    } else if is_word(spelling, "text") {
        Word::TextType
    } else if is_word(spelling, "int4") {
        Word::IntegerType
    } else if is_word(spelling, "int8") {
        Word::BigIntType
    } else if is_word(spelling, "bool") {
        Word::BooleanType
    } else if is_word(spelling, "only") {
        Word::Only
    } else {
        Word::Other
    }
}

#[tactic(auto, unfolding(crate::specs::Words::of_five))]
fn of_five(spelling: &[u8]) -> Word
    ensures { result ≡ spec.of_five spelling.now }
{
    if is_word(spelling, "begin") {
        Word::Begin
    } else if is_word(spelling, "start") {
        Word::Start
    } else if is_word(spelling, "table") {
        Word::Table
    } else if is_word(spelling, "alter") {
        Word::Alter
    } else if is_word(spelling, "index") {
        Word::Index
    } else if is_word(spelling, "check") {
        Word::Check
    } else if is_word(spelling, "false") {
        Word::False
    } else {
        Word::Other
    }
}

#[tactic(auto, unfolding(crate::specs::Words::of_six))]
fn of_six(spelling: &[u8]) -> Word
    ensures { result ≡ spec.of_six spelling.now }
{
    if is_word(spelling, "commit") {
        Word::Commit
    } else if is_word(spelling, "create") {
        Word::Create
    } else if is_word(spelling, "exists") {
        Word::Exists
    } else if is_word(spelling, "column") {
        Word::Column
    } else if is_word(spelling, "values") {
        Word::Values
    } else if is_word(spelling, "unique") {
        Word::Unique
    } else if is_word(spelling, "delete") {
        Word::Delete
    } else if is_word(spelling, "update") {
        Word::Update
    } else if is_word(spelling, "action") {
        Word::Action
    } else if is_word(spelling, "insert") {
        Word::Insert
    } else if is_word(spelling, "select") {
        Word::Select
    } else if is_word(spelling, "bigint") {
        Word::BigIntType
    } else if is_word(spelling, "serial") {
        Word::SerialType
    } else if is_word(spelling, "always") {
        Word::Always
    } else {
        Word::Other
    }
}

#[tactic(auto, unfolding(crate::specs::Words::of_seven))]
fn of_seven(spelling: &[u8]) -> Word
    ensures { result ≡ spec.of_seven spelling.now }
{
    if is_word(spelling, "comment") {
        Word::Comment
    } else if is_word(spelling, "default") {
        Word::Default
    } else if is_word(spelling, "primary") {
        Word::Primary
    } else if is_word(spelling, "foreign") {
        Word::Foreign
    } else if is_word(spelling, "exclude") {
        Word::Exclude
    } else if is_word(spelling, "collate") {
        Word::Collate
    } else if is_word(spelling, "varchar") {
        Word::Varchar
    } else if is_word(spelling, "integer") {
        Word::IntegerType
    } else if is_word(spelling, "boolean") {
        Word::BooleanType
    } else if is_word(spelling, "varying") {
        Word::Varying
    } else if is_word(spelling, "serial4") {
        Word::SerialType
    } else if is_word(spelling, "serial8") {
        Word::BigSerialType
    } else {
        Word::Other
    }
}

#[tactic(auto, unfolding(crate::specs::Words::of_eight))]
fn of_eight(spelling: &[u8]) -> Word
    ensures { result ≡ spec.of_eight spelling.now }
{
    if is_word(spelling, "identity") {
        Word::Identity
    } else if is_word(spelling, "restrict") {
        Word::Restrict
    } else {
        Word::Other
    }
}

#[tactic(auto, unfolding(crate::specs::Words::of_nine))]
fn of_nine(spelling: &[u8]) -> Word
    ensures { result ≡ spec.of_nine spelling.now }
{
    if is_word(spelling, "extension") {
        Word::Extension
    } else if is_word(spelling, "generated") {
        Word::Generated
    } else if is_word(spelling, "returning") {
        Word::Returning
    } else if is_word(spelling, "character") {
        Word::Character
    } else if is_word(spelling, "bigserial") {
        Word::BigSerialType
    } else {
        Word::Other
    }
}

#[tactic(auto, unfolding(crate::specs::Words::of_ten))]
fn of_ten(spelling: &[u8]) -> Word
    ensures { result ≡ spec.of_ten spelling.now }
{
    if is_word(spelling, "constraint") {
        Word::Constraint
    } else if is_word(spelling, "references") {
        Word::References
    } else {
        Word::Other
    }
}

/// What the word of this spelling means: words are told by their length first.
#[tactic(auto, unfolding(crate::specs::Words::word_of))]
pub(crate) fn word_of(spelling: &[u8]) -> Word
    ensures { result ≡ spec.word_of spelling.now }
{
    let len = spelling.len();
    if len == 2 {
        of_two(spelling)
    } else if len == 3 {
        of_three(spelling)
    } else if len == 4 {
        of_four(spelling)
    } else if len == 5 {
        of_five(spelling)
    } else if len == 6 {
        of_six(spelling)
    } else if len == 7 {
        of_seven(spelling)
    } else if len == 8 {
        of_eight(spelling)
    } else if len == 9 {
        of_nine(spelling)
    } else if len == 10 {
        of_ten(spelling)
    } else {
        Word::Other
    }
}

/// Whether the two are one word.
pub(crate) fn is_same(a: Word, b: Word) -> bool
    ensures { result ≡ spec.same_word a b }
{
    a == b
}
