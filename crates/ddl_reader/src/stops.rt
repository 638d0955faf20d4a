//! The fault of a statement that stops: a type or a clause that isn't supported, or else a syntax fault.

ghost use Rattle.std.specs.Prelude.{◌≡◌, ◌≤◌, ◌||◌, length, IfOk};
ghost use Rattle.pg_base.specs.Limits.{most_enums};
ghost use Rattle.ddl_reader.specs.declared.word.Word.TheVariants as word;
ghost use Rattle.ddl_reader.specs.Trees as trees;
ghost use Rattle.ddl_reader.specs.Stops as spec;

use crate::fault::ScriptFault;
use crate::fitting::{
    ends_with_name, ends_with_public, ends_with_sign, ends_with_word, first_before, fits,
    fits_alone, has_word, last, last_from, tokens_before, without_last,
};
use crate::lexeme::{LexemeKind, is_identifier, is_sign, is_word};
use crate::statement::Name;
use crate::text_tokens::ScriptToken;
use crate::tokens::ScriptTokens;
use crate::types::read_column_type;
use crate::word::Word;
use parse_rules::ReadError;
use pg_base::{EnumDef, Memory};
use sql_lex::LexFault;
use std::alloc::{AllocError, Global};

// ---- types

/// Whether a type is wanted after the front: a built-in one fits there, and not every name.
fn wants_type(alloc: Global, enums: &[EnumDef], front: &[ScriptToken<'_>]) -> Result<bool, Memory>
    requires { length enums.now ≤ most_enums }
    ensures { IfOk result (λ wanted. wanted ≡ spec.wants_type enums.now front.now) }
{
    fits_alone(alloc, enums, front, "varchar(1)")
}

/// Whether the tokens are a type.
fn is_type(alloc: Global, enums: &[EnumDef], tokens: &[ScriptToken<'_>]) -> Result<bool, Memory>
    requires { length enums.now ≤ most_enums }
    ensures { IfOk result (λ is. is ≡ spec.is_type enums.now tokens.now) }
{
    let mut tokens = ScriptTokens::after(tokens, b"");
    match read_column_type(alloc, &mut tokens, enums) {
        Ok(_) => Ok(tokens.is_at_end()),
        Err(ReadError::Memory) => Err(AllocError),
        Err(ReadError::Unexpected) => Ok(false),
    }
}

/// Whether the last tokens of the front, this many, are a type in a type's place.
fn ends_with_type(
    alloc: Global,
    enums: &[EnumDef],
    front: &[ScriptToken<'_>],
    back: usize,
) -> Result<bool, Memory>
    requires { length enums.now ≤ most_enums }
    ensures { IfOk result (λ ends. ends ≡ spec.ends_with_type enums.now front.now back) }
{
    if front.len() < back {
        return Ok(false);
    }
    if !wants_type(alloc, enums, without_last(back, front))? {
        return Ok(false);
    }
    is_type(alloc, enums, last_from(back, front))
}

/// How many tokens the type has that ends the front: at most five.
fn type_length(
    alloc: Global,
    enums: &[EnumDef],
    front: &[ScriptToken<'_>],
) -> Result<Option<usize>, Memory>
    requires { length enums.now ≤ most_enums }
    ensures { IfOk result (λ n. n ≡ spec.type_length enums.now front.now) }
{
    if ends_with_type(alloc, enums, front, 1)? {
        return Ok(Some(1));
    }
    if ends_with_type(alloc, enums, front, 2)? {
        return Ok(Some(2));
    }
    if ends_with_type(alloc, enums, front, 3)? {
        return Ok(Some(3));
    }
    if ends_with_type(alloc, enums, front, 4)? {
        return Ok(Some(4));
    }
    if ends_with_type(alloc, enums, front, 5)? {
        return Ok(Some(5));
    }
    Ok(None)
}

/// Whether the front ends with the first word of a type that has more.
fn ends_with_half(alloc: Global, front: &[ScriptToken<'_>]) -> Result<bool, Memory>
    ensures { IfOk result (λ ends. ends ≡ (spec.a_word_is word.Character (spec.last 1 front.now)
        || spec.is_schema (spec.last 1 front.now))) }
{
    if ends_with_word(1, Word::Character, front) {
        return Ok(true);
    }
    ends_with_public(alloc, 1, front)
}

/// Whether the front ends with CHARACTER without VARYING, or with the schema without an enum.
fn is_half_type(alloc: Global, enums: &[EnumDef], front: &[ScriptToken<'_>]) -> Result<bool, Memory>
    requires { length enums.now ≤ most_enums }
    ensures { IfOk result (λ half. half ≡ spec.is_half_type enums.now front.now) }
{
    if !ends_with_half(alloc, front)? {
        return Ok(false);
    }
    if !wants_type(alloc, enums, without_last(1, front))? {
        return Ok(false);
    }
    let ends = fits(alloc, enums, front, ")")?;
    Ok(!ends)
}

/// Whether the front ends with the schema and `.`, where an enum has to follow.
fn is_half_enum(alloc: Global, enums: &[EnumDef], front: &[ScriptToken<'_>]) -> Result<bool, Memory>
    requires { length enums.now ≤ most_enums }
    ensures { IfOk result (λ half. half ≡ spec.is_half_enum enums.now front.now) }
{
    if !ends_with_sign(1, b'.', front) {
        return Ok(false);
    }
    if !ends_with_public(alloc, 2, front)? {
        return Ok(false);
    }
    wants_type(alloc, enums, without_last(2, front))
}

/// How many tokens before a name the first word of a type stands that isn't supported.
fn bad_type_before_name(
    alloc: Global,
    enums: &[EnumDef],
    front: &[ScriptToken<'_>],
) -> Result<Option<usize>, Memory>
    requires { length enums.now ≤ most_enums }
    ensures { IfOk result (λ n. n ≡ spec.bad_type_before_name enums.now front.now) }
{
    if wants_type(alloc, enums, front)? {
        return Ok(Some(0));
    }
    if is_half_type(alloc, enums, front)? {
        return Ok(Some(1));
    }
    if is_half_enum(alloc, enums, front)? {
        return Ok(Some(2));
    }
    Ok(None)
}

/// How many tokens before a sign the first word of a type stands that isn't supported.
fn bad_type_before_sign(
    alloc: Global,
    enums: &[EnumDef],
    front: &[ScriptToken<'_>],
    kind: LexemeKind,
) -> Result<Option<usize>, Memory>
    requires { length enums.now ≤ most_enums }
    ensures { IfOk result (λ n. n ≡ spec.bad_type_before_sign enums.now front.now kind) }
{
    if is_half_type(alloc, enums, front)? {
        return Ok(Some(1));
    }
    if is_sign(kind, b'[') {
        return type_length(alloc, enums, front);
    }
    if !is_sign(kind, b'.') {
        return Ok(None);
    }
    if ends_with_type(alloc, enums, front, 1)? {
        return Ok(Some(1));
    }
    Ok(None)
}

/// How many tokens before the stop the first word of a type stands that isn't supported.
fn bad_type(
    alloc: Global,
    enums: &[EnumDef],
    front: &[ScriptToken<'_>],
    kind: LexemeKind,
) -> Result<Option<usize>, Memory>
    requires { length enums.now ≤ most_enums }
    ensures { IfOk result (λ n. n ≡ spec.bad_type enums.now front.now kind) }
{
    if is_identifier(kind) {
        return bad_type_before_name(alloc, enums, front);
    }
    bad_type_before_sign(alloc, enums, front, kind)
}

// ---- clauses

fn is_refused_rule_word(kind: LexemeKind) -> bool
    ensures { result ≡ spec.is_refused_rule_word kind }
{
    is_word(kind, Word::Check)
        || is_word(kind, Word::Exclude)
        || is_word(kind, Word::Like)
        || is_word(kind, Word::Collate)
}

fn is_any_word(kind: LexemeKind) -> bool
    ensures { result ≡ spec.is_any_word kind }
{
    match kind {
        LexemeKind::Word(_) => true,
        LexemeKind::Name => false,
        LexemeKind::Str => false,
        LexemeKind::Number => false,
        LexemeKind::Sign(_) => false,
        LexemeKind::End => false,
        LexemeKind::Invalid(_) => false,
    }
}

/// Whether no token stands before the stop, or CREATE alone.
fn is_first_word(front: &[ScriptToken<'_>]) -> bool
    ensures { result ≡ spec.is_first_word front.now }
{
    match front {
        [] => true,
        [only] => is_word(only.kind(), Word::Create),
        [_, _, ..] => false,
    }
}

/// Whether the word is CHECK, EXCLUDE, LIKE or COLLATE where a rule may begin.
fn is_refused_rule(
    alloc: Global,
    enums: &[EnumDef],
    front: &[ScriptToken<'_>],
    kind: LexemeKind,
) -> Result<bool, Memory>
    requires { length enums.now ≤ most_enums }
    ensures { IfOk result (λ refused. refused ≡ spec.is_refused_rule enums.now front.now kind) }
{
    if !is_refused_rule_word(kind) {
        return Ok(false);
    }
    fits(alloc, enums, front, "unique")
}

/// Whether a word after the front is another rule than those that ADD may have.
fn is_refused_addition(
    alloc: Global,
    enums: &[EnumDef],
    front: &[ScriptToken<'_>],
) -> Result<bool, Memory>
    requires { length enums.now ≤ most_enums }
    ensures { IfOk result (λ refused. refused ≡ spec.is_refused_addition enums.now front.now) }
{
    if !has_word(0, Word::Alter, front) {
        return Ok(false);
    }
    if !ends_with_word(1, Word::Add, front) {
        return Ok(false);
    }
    fits(alloc, enums, front, "constraint")
}

/// Whether a word after the front stands after the parenthesis that ends CREATE TABLE.
fn is_refused_end(
    alloc: Global,
    enums: &[EnumDef],
    front: &[ScriptToken<'_>],
) -> Result<bool, Memory>
    requires { length enums.now ≤ most_enums }
    ensures { IfOk result (λ refused. refused ≡ spec.is_refused_end enums.now front.now) }
{
    if !has_word(0, Word::Create, front) {
        return Ok(false);
    }
    if !has_word(1, Word::Table, front) {
        return Ok(false);
    }
    fits(alloc, enums, front, ";")
}

/// Whether a word after the front is another action than those that are supported.
fn is_refused_action(
    alloc: Global,
    enums: &[EnumDef],
    front: &[ScriptToken<'_>],
) -> Result<bool, Memory>
    requires { length enums.now ≤ most_enums }
    ensures { IfOk result (λ refused. refused ≡ spec.is_refused_action enums.now front.now) }
{
    fits_alone(alloc, enums, front, "no action")
}

/// Whether a word after the front is a clause that isn't supported.
fn is_refused_word(
    alloc: Global,
    enums: &[EnumDef],
    front: &[ScriptToken<'_>],
    kind: LexemeKind,
) -> Result<bool, Memory>
    requires { length enums.now ≤ most_enums }
    ensures { IfOk result (λ refused. refused ≡ spec.is_refused_word enums.now front.now kind) }
{
    if !is_any_word(kind) {
        return Ok(false);
    }
    if is_first_word(front) {
        return Ok(true);
    }
    if is_refused_rule(alloc, enums, front, kind)? {
        return Ok(true);
    }
    if is_refused_addition(alloc, enums, front)? {
        return Ok(true);
    }
    if is_refused_end(alloc, enums, front)? {
        return Ok(true);
    }
    is_refused_action(alloc, enums, front)
}

/// Whether the front ends with DEFAULT in a column, where a literal has to follow.
fn is_refused_default(
    alloc: Global,
    enums: &[EnumDef],
    front: &[ScriptToken<'_>],
) -> Result<bool, Memory>
    requires { length enums.now ≤ most_enums }
    ensures { IfOk result (λ refused. refused ≡ spec.is_refused_default enums.now front.now) }
{
    if !ends_with_word(1, Word::Default, front) {
        return Ok(false);
    }
    fits(alloc, enums, front, "true")
}

/// Whether `(` begins an expression after GENERATED ALWAYS AS.
fn is_refused_expression(
    alloc: Global,
    enums: &[EnumDef],
    front: &[ScriptToken<'_>],
    kind: LexemeKind,
) -> Result<bool, Memory>
    requires { length enums.now ≤ most_enums }
    ensures { IfOk result (λ refused. refused ≡ spec.is_refused_expression enums.now front.now
        kind) }
{
    if !is_sign(kind, b'(') {
        return Ok(false);
    }
    if !ends_with_word(1, Word::As, front) {
        return Ok(false);
    }
    if !ends_with_word(2, Word::Always, front) {
        return Ok(false);
    }
    fits(alloc, enums, front, "identity")
}

/// Whether what stands after the front is a clause that isn't supported.
fn is_refused(
    alloc: Global,
    enums: &[EnumDef],
    front: &[ScriptToken<'_>],
    kind: LexemeKind,
) -> Result<bool, Memory>
    requires { length enums.now ≤ most_enums }
    ensures { IfOk result (λ refused. refused ≡ spec.is_refused enums.now front.now kind) }
{
    if is_refused_default(alloc, enums, front)? {
        return Ok(true);
    }
    if is_refused_expression(alloc, enums, front, kind)? {
        return Ok(true);
    }
    is_refused_word(alloc, enums, front, kind)
}

// ---- schemas

/// Whether the last name of the front stands where a schema may.
fn ends_with_schema(
    alloc: Global,
    enums: &[EnumDef],
    front: &[ScriptToken<'_>],
) -> Result<bool, Memory>
    requires { length enums.now ≤ most_enums }
    ensures { IfOk result (λ ends. ends ≡ spec.ends_with_schema enums.now front.now) }
{
    if !ends_with_name(1, front) {
        return Ok(false);
    }
    fits(alloc, enums, without_last(1, front), "public.")
}

/// Whether the name before the last one stands where a schema may, with `.` between.
fn has_schema_before(
    alloc: Global,
    enums: &[EnumDef],
    front: &[ScriptToken<'_>],
) -> Result<bool, Memory>
    requires { length enums.now ≤ most_enums }
    ensures { IfOk result (λ has. has ≡ spec.has_schema_before enums.now front.now) }
{
    if !ends_with_name(3, front) {
        return Ok(false);
    }
    if !ends_with_sign(2, b'.', front) {
        return Ok(false);
    }
    if !ends_with_name(1, front) {
        return Ok(false);
    }
    fits(alloc, enums, without_last(3, front), "public.x.")
}

/// How many tokens before a `.` another schema stands.
fn other_schema(
    alloc: Global,
    enums: &[EnumDef],
    front: &[ScriptToken<'_>],
    kind: LexemeKind,
) -> Result<Option<usize>, Memory>
    requires { length enums.now ≤ most_enums }
    ensures { IfOk result (λ n. n ≡ spec.other_schema enums.now front.now kind) }
{
    if !is_sign(kind, b'.') {
        return Ok(None);
    }
    if ends_with_schema(alloc, enums, front)? {
        return Ok(Some(1));
    }
    if has_schema_before(alloc, enums, front)? {
        return Ok(Some(3));
    }
    Ok(None)
}

// ---- the fault

/// The token as a name.
fn name_of(alloc: Global, token: &ScriptToken<'_>) -> Result<Name, Memory>
    ensures { IfOk result (λ name. name ≡ trees.named token.now) }
{
    let text = token.text(alloc)?;
    Ok(Name {
        text,
        pos: token.pos(),
    })
}

/// The token this many before the stop.
fn name_before(
    alloc: Global,
    front: &[ScriptToken<'_>],
    stop: &ScriptToken<'_>,
    back: usize,
) -> Result<Name, Memory>
    ensures { IfOk result (λ name. name ≡ trees.named (spec.back_from front.now stop.now back)) }
{
    match last(back, front) {
        Some(token) => name_of(alloc, &token),
        None => name_of(alloc, stop),
    }
}

/// A type that isn't supported, by its first word.
fn bad_type_fault(
    alloc: Global,
    front: &[ScriptToken<'_>],
    stop: &ScriptToken<'_>,
    back: usize,
) -> Result<ScriptFault, Memory>
    ensures { IfOk result (λ fault. fault ≡ spec.bad_type_at (spec.back_from front.now stop.now
        back)) }
{
    let name = name_before(alloc, front, stop, back)?;
    Ok(ScriptFault::UnsupportedType(name.pos, name.text))
}

/// A clause that isn't supported, by a token before the stop.
fn bad_clause_before(
    alloc: Global,
    front: &[ScriptToken<'_>],
    stop: &ScriptToken<'_>,
    back: usize,
) -> Result<ScriptFault, Memory>
    ensures { IfOk result (λ fault. fault ≡ spec.bad_clause_at (spec.back_from front.now stop.now
        back)) }
{
    let name = name_before(alloc, front, stop, back)?;
    Ok(ScriptFault::UnsupportedClause(name.pos, name.text))
}

/// A clause that isn't supported, by the token at the stop.
fn bad_clause(alloc: Global, stop: &ScriptToken<'_>) -> Result<ScriptFault, Memory>
    ensures { IfOk result (λ fault. fault ≡ spec.bad_clause_at stop.now) }
{
    let name = name_of(alloc, stop)?;
    Ok(ScriptFault::UnsupportedClause(name.pos, name.text))
}

/// The fault of another statement than an INSERT whose types are supported.
fn fault_by_clause(
    alloc: Global,
    enums: &[EnumDef],
    front: &[ScriptToken<'_>],
    stop: &ScriptToken<'_>,
) -> Result<ScriptFault, Memory>
    requires { length enums.now ≤ most_enums }
    ensures { IfOk result (λ fault. fault ≡ spec.fault_by_clause enums.now front.now stop.now) }
{
    if is_refused(alloc, enums, front, stop.kind())? {
        return bad_clause(alloc, stop);
    }
    match other_schema(alloc, enums, front, stop.kind())? {
        Some(back) => bad_clause_before(alloc, front, stop, back),
        None => Ok(ScriptFault::Syntax(stop.pos())),
    }
}

/// The fault of another statement than an INSERT.
fn statement_fault(
    alloc: Global,
    enums: &[EnumDef],
    front: &[ScriptToken<'_>],
    stop: &ScriptToken<'_>,
) -> Result<ScriptFault, Memory>
    requires { length enums.now ≤ most_enums }
    ensures { IfOk result (λ fault. fault ≡ spec.statement_fault enums.now front.now stop.now) }
{
    match bad_type(alloc, enums, front, stop.kind())? {
        Some(back) => bad_type_fault(alloc, front, stop, back),
        None => fault_by_clause(alloc, enums, front, stop),
    }
}

/// Whether the word is one that is refused wherever it doesn't fit in an INSERT.
fn is_refused_in_insert(kind: LexemeKind) -> bool
    ensures { result ≡ spec.is_refused_in_insert kind }
{
    is_word(kind, Word::Select) || is_word(kind, Word::Returning) || is_word(kind, Word::On)
}

/// Whether the front is INSERT INTO and a name.
fn is_insert_name(front: &[ScriptToken<'_>]) -> bool
    ensures { result ≡ spec.is_insert_name front.now }
{
    front.len() == 3 && ends_with_name(1, front)
}

/// The fault of an INSERT.
fn insert_fault(
    alloc: Global,
    front: &[ScriptToken<'_>],
    stop: &ScriptToken<'_>,
) -> Result<ScriptFault, Memory>
    ensures { IfOk result (λ fault. fault ≡ spec.insert_fault front.now stop.now) }
{
    if is_refused_in_insert(stop.kind()) {
        return bad_clause(alloc, stop);
    }
    if !is_sign(stop.kind(), b'.') {
        return Ok(ScriptFault::Syntax(stop.pos()));
    }
    if !is_insert_name(front) {
        return Ok(ScriptFault::Syntax(stop.pos()));
    }
    bad_clause_before(alloc, front, stop, 1)
}

/// The fault at a token of a statement. The rows of an INSERT are passed over: names stand before them alone.
#[tactic(auto, using(crate::proofs::Fronts::first_word, crate::proofs::Fronts::first_of_insert))]
fn inner_fault(
    alloc: Global,
    enums: &[EnumDef],
    start: &ScriptTokens<'_, '_>,
    stop: &ScriptToken<'_>,
) -> Result<ScriptFault, Memory>
    requires { length enums.now ≤ most_enums }
    ensures { IfOk result (λ fault. fault ≡ spec.inner_fault enums.now (spec.lexemes_before
        stop.now.pos start.now) stop.now) }
{
    let first = first_before(alloc, start, stop.pos(), 4)?;
    if has_word(0, Word::Insert, first.as_slice()) {
        return insert_fault(alloc, first.as_slice(), stop);
    }
    let front = tokens_before(alloc, start, stop.pos())?;
    statement_fault(alloc, enums, front.as_slice(), stop)
}

/// The fault of a statement that begins at `start` and stops before the token.
pub(crate) fn fault_at(
    alloc: Global,
    enums: &[EnumDef],
    start: &ScriptTokens<'_, '_>,
    stop: &ScriptToken<'_>,
) -> Result<ScriptFault, Memory>
    requires { length enums.now ≤ most_enums }
    ensures { IfOk result (λ fault. fault ≡ spec.fault_before enums.now (spec.lexemes_before
        stop.now.pos start.now) stop.now) }
{
    match stop.kind() {
        LexemeKind::Invalid(which) => Ok(ScriptFault::Lexical(LexFault {
            which,
            pos: stop.pos(),
        })),
        LexemeKind::End => Ok(ScriptFault::Syntax(stop.pos())),
        LexemeKind::Word(_) => inner_fault(alloc, enums, start, stop),
        LexemeKind::Name => inner_fault(alloc, enums, start, stop),
        LexemeKind::Str => inner_fault(alloc, enums, start, stop),
        LexemeKind::Number => inner_fault(alloc, enums, start, stop),
        LexemeKind::Sign(_) => inner_fault(alloc, enums, start, stop),
    }
}
