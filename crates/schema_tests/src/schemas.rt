//! What stands in the schema of a script, and why a script has none.

use ddl_reader::read_script;
use schema_build::{build, print_schema, put_fault_line};
use std::alloc::{AllocError, Global};
use std::test::Fail;

/// SCRIPT => PART, where `~` is a line end in both: the text of the script's schema has the part, or lacks it where `!`
/// stands before it. First tags, then names, then types and their fields.
const PARTS: &str = "\
CREATE TABLE t (id integer PRIMARY KEY); COMMENT ON TABLE t IS '@name users'; => ~type User {~  id: Int!~}~
CREATE TABLE t (id integer PRIMARY KEY); COMMENT ON TABLE t IS '@name users'; => ~  userById(id: Int!): User~
CREATE TABLE t (id integer PRIMARY KEY); COMMENT ON TABLE t IS '@name users'; => !type T {
CREATE TABLE t (a text); COMMENT ON COLUMN t.a IS '@name bC_d'; => ~type T {~  bCD: String~}~
CREATE TABLE t (a text); COMMENT ON COLUMN t.a IS '@name bC_d'; => ~enum TsOrderBy {~  NATURAL~  B_C_D_ASC~  B_C_D_DESC~}~
CREATE TABLE t (id integer PRIMARY KEY); COMMENT ON COLUMN t.id IS '@name key'; => ~  tByKey(key: Int!): T~
CREATE TYPE mood AS ENUM ('a'); CREATE TABLE t (m mood); COMMENT ON TYPE mood IS '@name feelings'; => ~enum Feelings {~  A~}~
CREATE TYPE mood AS ENUM ('a'); CREATE TABLE t (m mood); COMMENT ON TYPE mood IS '@name feelings'; => ~type T {~  m: Feelings~}~
CREATE TABLE t (a text); COMMENT ON COLUMN t.a IS '@deprecated old'; => ~type T {~  a: String @deprecated(reason: \"old\")~}~
CREATE TABLE t (a text); COMMENT ON COLUMN t.a IS '@deprecated old'; => ~input TInput {~  a: String~}~
CREATE TABLE t (a text); COMMENT ON COLUMN t.a IS '@deprecated say \"b\" \\'; => ~  a: String @deprecated(reason: \"say \\\"b\\\" \\\\\")~
CREATE TABLE t (a text); COMMENT ON COLUMN t.a IS '@deprecated'; => ~  a: String @deprecated(reason: \"\")~
CREATE TABLE t (id integer PRIMARY KEY); COMMENT ON CONSTRAINT t_pkey ON t IS '@deprecated old'; => ~  tById(id: Int!): T @deprecated(reason: \"old\")~}~
CREATE TABLE t (id integer PRIMARY KEY); COMMENT ON CONSTRAINT t_pkey ON t IS '@deprecated old'; => ~  createT(input: CreateTInput!): CreateTPayload~  updateTById(input: UpdateTByIdInput!): UpdateTPayload @deprecated(reason: \"old\")~  deleteTById(input: DeleteTByIdInput!): DeleteTPayload @deprecated(reason: \"old\")~}~
CREATE TABLE u (id integer PRIMARY KEY); CREATE TABLE t (a integer REFERENCES u); COMMENT ON CONSTRAINT t_a_fkey ON t IS '@deprecated old'; => ~type T {~  a: Int~  uByA: U @deprecated(reason: \"old\")~}~
CREATE TABLE u (id integer PRIMARY KEY); CREATE TABLE t (a integer UNIQUE REFERENCES u); COMMENT ON CONSTRAINT t_a_fkey ON t IS '@deprecated old'; => ~type U {~  id: Int!~  tByA: T @deprecated(reason: \"old\")~}~
CREATE TABLE t (id integer PRIMARY KEY); COMMENT ON CONSTRAINT t_pkey ON t IS '@fieldName find'; => ~  find(id: Int!): T~
CREATE TABLE t (id integer PRIMARY KEY); COMMENT ON CONSTRAINT t_pkey ON t IS '@fieldName find'; => ~  updateTById(input: UpdateTByIdInput!): UpdateTPayload~  deleteTById(
CREATE TABLE t (id integer PRIMARY KEY); COMMENT ON CONSTRAINT t_pkey ON t IS '@fieldName Find_it'; => ~  Find_it(id: Int!): T~
CREATE TABLE u (id integer PRIMARY KEY); CREATE TABLE t (a integer REFERENCES u); COMMENT ON CONSTRAINT t_a_fkey ON t IS '@fieldName owner'; => ~type T {~  a: Int~  owner: U~}~
CREATE TABLE u (id integer PRIMARY KEY); CREATE TABLE t (a integer REFERENCES u); COMMENT ON CONSTRAINT t_a_fkey ON t IS '@fieldName owner'; => ~  tsByA(first: Int,
CREATE TABLE u (id integer PRIMARY KEY); CREATE TABLE t (a integer REFERENCES u); COMMENT ON CONSTRAINT t_a_fkey ON t IS '@foreignFieldName items'; => ~  items(first: Int, last: Int, offset: Int, before: Cursor, after: Cursor, orderBy: [TsOrderBy!], condition: TCondition): TsConnection~}~
CREATE TABLE u (id integer PRIMARY KEY); CREATE TABLE t (a integer REFERENCES u); COMMENT ON CONSTRAINT t_a_fkey ON t IS '@foreignFieldName items'; => ~  uByA: U~
CREATE TABLE u (id integer PRIMARY KEY); CREATE TABLE t (a integer UNIQUE REFERENCES u); COMMENT ON CONSTRAINT t_a_fkey ON t IS '@fieldName Its_owner~@foreignFieldName My_items'; => ~type U {~  id: Int!~  My_items: T~}~
CREATE TABLE u (id integer PRIMARY KEY); CREATE TABLE t (a integer UNIQUE REFERENCES u); COMMENT ON CONSTRAINT t_a_fkey ON t IS '@fieldName Its_owner~@foreignFieldName My_items'; => ~type T {~  a: Int~  Its_owner: U~}~
CREATE TABLE t (id integer PRIMARY KEY); COMMENT ON TABLE t IS '@behavior -select'; => ~type Query {~  allTs(first: Int, last: Int, offset: Int, before: Cursor, after: Cursor, orderBy: [TsOrderBy!], condition: TCondition): TsConnection~}~
CREATE TABLE t (id integer PRIMARY KEY); COMMENT ON TABLE t IS '@behavior -select'; => ~  updateTById(
CREATE TABLE u (id integer PRIMARY KEY); CREATE TABLE t (a integer REFERENCES u); COMMENT ON TABLE u IS '@behavior -select'; => ~type T {~  a: Int~  uByA: U~}~
CREATE TABLE t (id integer PRIMARY KEY); COMMENT ON TABLE t IS '@behavior -connection'; => ~type Query {~  tById(id: Int!): T~}~
CREATE TABLE t (id integer PRIMARY KEY); COMMENT ON TABLE t IS '@behavior -connection'; => ~type TsConnection {~  nodes: [T!]!~
CREATE TABLE t (id integer PRIMARY KEY); COMMENT ON TABLE t IS '@behavior -connection'; => ~input TCondition {~  id: Int~}~
CREATE TABLE u (id integer PRIMARY KEY); CREATE TABLE t (a integer REFERENCES u); COMMENT ON TABLE t IS '@behavior -connection -filter'; => ~type U {~  id: Int!~  tsByA(first: Int, last: Int, offset: Int, before: Cursor, after: Cursor, orderBy: [TsOrderBy!]): TsConnection~}~
CREATE TABLE t (a text); COMMENT ON TABLE t IS '@behavior -list'; => ~type TsConnection {~  edges: [TsEdge!]!~  pageInfo: PageInfo!~  totalCount: Int!~}~
CREATE TABLE t (id integer PRIMARY KEY); COMMENT ON TABLE t IS '@behavior -insert'; => ~type Mutation {~  updateTById(input: UpdateTByIdInput!): UpdateTPayload~  deleteTById(input: DeleteTByIdInput!): DeleteTPayload~}~~input UpdateTByIdInput {
CREATE TABLE t (id integer PRIMARY KEY); COMMENT ON TABLE t IS '@behavior -insert'; => !TInput {
CREATE TABLE t (id integer PRIMARY KEY); COMMENT ON TABLE t IS '@behavior -update'; => ~type Mutation {~  createT(input: CreateTInput!): CreateTPayload~  deleteTById(input: DeleteTByIdInput!): DeleteTPayload~}~
CREATE TABLE t (id integer PRIMARY KEY); COMMENT ON TABLE t IS '@behavior -update'; => !Patch
CREATE TABLE t (id integer PRIMARY KEY); COMMENT ON TABLE t IS '@behavior -delete'; => ~type Mutation {~  createT(input: CreateTInput!): CreateTPayload~  updateTById(input: UpdateTByIdInput!): UpdateTPayload~}~
CREATE TABLE t (id integer PRIMARY KEY); COMMENT ON TABLE t IS '@behavior -delete'; => !DeleteT
CREATE TABLE t (id integer PRIMARY KEY); COMMENT ON TABLE t IS '@behavior -insert -update~@behavior -delete'; => !Mutation
CREATE TABLE t (a text); COMMENT ON TABLE t IS '@behavior -order'; => ~enum TsOrderBy {~  NATURAL~}~
CREATE TABLE t (a text); COMMENT ON TABLE t IS '@behavior -filter'; => ~  allTs(first: Int, last: Int, offset: Int, before: Cursor, after: Cursor, orderBy: [TsOrderBy!]): TsConnection~
CREATE TABLE t (a text); COMMENT ON TABLE t IS '@behavior -filter'; => !TCondition
CREATE TABLE t (a text, b text); COMMENT ON COLUMN t.a IS '@behavior -select'; => ~type T {~  b: String~}~
CREATE TABLE t (a text, b text); COMMENT ON COLUMN t.a IS '@behavior -select'; => ~input TCondition {~  a: String~  b: String~}~
CREATE TABLE t (a text, b text); COMMENT ON COLUMN t.a IS '@behavior -insert'; => ~input TInput {~  b: String~}~
CREATE TABLE t (id integer PRIMARY KEY, b text); COMMENT ON COLUMN t.id IS '@behavior -update'; => ~input TPatch {~  b: String~}~
CREATE TABLE t (a text, b text); COMMENT ON COLUMN t.a IS '@behavior -order'; => ~enum TsOrderBy {~  NATURAL~  B_ASC~  B_DESC~}~
CREATE TABLE t (a text, b text); COMMENT ON COLUMN t.a IS '@behavior -filter'; => ~input TCondition {~  b: String~}~
CREATE TABLE u (id integer PRIMARY KEY); CREATE TABLE t (a integer REFERENCES u); COMMENT ON CONSTRAINT t_a_fkey ON t IS '@behavior -select'; => ~type T {~  a: Int~}~
CREATE TABLE u (id integer PRIMARY KEY); CREATE TABLE t (a integer REFERENCES u); COMMENT ON CONSTRAINT t_a_fkey ON t IS '@behavior -select'; => ~  tsByA(
CREATE TABLE u (id integer PRIMARY KEY); CREATE TABLE t (a integer REFERENCES u); COMMENT ON CONSTRAINT t_a_fkey ON t IS '@behavior -connection'; => ~type U {~  id: Int!~}~
CREATE TABLE u (id integer PRIMARY KEY); CREATE TABLE t (a integer REFERENCES u); COMMENT ON CONSTRAINT t_a_fkey ON t IS '@behavior -connection'; => ~  uByA: U~
CREATE TABLE t (a text); COMMENT ON TABLE t IS '@behavior -insert +insert'; => ~  createT(
CREATE TABLE t (a text); COMMENT ON TABLE t IS '@name a~@name b'; => ~type A {
CREATE TABLE t (a text); COMMENT ON TABLE t IS 'All of them.~@name a'; => ~type T {
CREATE TABLE t (a text); COMMENT ON TABLE t IS '@name a'; COMMENT ON TABLE t IS NULL; => ~type T {
CREATE TABLE t (a text); COMMENT ON TABLE t IS '@other a~@behavior -all'; => ~type T {
CREATE TABLE user_accounts (first_name text PRIMARY KEY); => ~type UserAccount {~  firstName: String!~}~~type UserAccountsConnection {
CREATE TABLE user_accounts (first_name text PRIMARY KEY); => ~  userAccountByFirstName(firstName: String!): UserAccount~
CREATE TABLE user_accounts (first_name text PRIMARY KEY); => ~  FIRST_NAME_ASC~  FIRST_NAME_DESC~
CREATE TABLE people (id integer PRIMARY KEY); => ~type Query {~  allPeople(first: Int, last: Int, offset: Int, before: Cursor, after: Cursor, orderBy: [PeopleOrderBy!], condition: PersonCondition): PeopleConnection~  personById(id: Int!): Person~}~
CREATE TABLE series (id integer PRIMARY KEY); => ~type SeriesConnection {~  nodes: [Series!]!~  edges: [SeriesEdge!]!~
CREATE TABLE equipment (a text); => ~type EquipmentConnection {~  nodes: [Equipment!]!~
CREATE TABLE information (a text); => ~type InformationConnection {~  nodes: [Information!]!~
CREATE TABLE cookies (a text); => ~type CookiesConnection {~  nodes: [Cookie!]!~
CREATE TABLE blog_movies (a text); => ~type BlogMoviesConnection {~  nodes: [BlogMovie!]!~
CREATE TABLE categories (a text); => ~type CategoriesConnection {~  nodes: [Category!]!~
CREATE TABLE ties (a text); => ~type TiesConnection {~  nodes: [Tie!]!~
CREATE TABLE flies (a text); => ~type FliesConnection {~  nodes: [Fly!]!~
CREATE TABLE ts (a text); => ~type TsConnection {~  nodes: [T!]!~
CREATE TABLE keys (a text); => ~type KeysConnection {~  nodes: [Key!]!~
CREATE TABLE boxes (a text); => ~type BoxesConnection {~  nodes: [Box!]!~
CREATE TABLE classes (a text); => ~type ClassesConnection {~  nodes: [Class!]!~
CREATE TABLE glass (a text); => ~type GlassesConnection {~  nodes: [Glass!]!~
CREATE TABLE bus (a text); => ~type BusesConnection {~  nodes: [Bus!]!~
CREATE TABLE statuses (a text); => ~type StatusesConnection {~  nodes: [Status!]!~
CREATE TABLE s (a text); => ~type SesConnection {~  nodes: [S!]!~
CREATE TABLE sheep (a text); => ~type SheepsConnection {~  nodes: [Sheep!]!~
CREATE TABLE \"old__News\" (\"aB__c\" text); => ~type OldNews {~  aBC: String~}~
CREATE TYPE mood AS ENUM ('a b', 'x9Y', '1st', '', 'veryHappy', 'é'); CREATE TABLE t (m mood); => ~enum Mood {~  A_B~  X9_Y~  _1ST~  _EMPTY_~  VERY_HAPPY~  _~}~
CREATE TABLE ab (ab text, a_b text); CREATE TABLE a_b (c text); => ~type AB {~  c: String~}~
CREATE TYPE a AS ENUM ('x'); CREATE TYPE b AS ENUM ('y'); CREATE TABLE t (m b, n a); => ~enum A {~  X~}~~enum B {~  Y~}~~type T {~  m: B~  n: A~}~
CREATE TABLE t (a integer, b bigint, c text, d varchar(3), e boolean); => ~type T {~  a: Int~  b: BigInt~  c: String~  d: String~  e: Boolean~}~
CREATE TABLE t (id serial PRIMARY KEY, a text NOT NULL, b text NOT NULL DEFAULT 'x', c text); => ~type T {~  id: Int!~  a: String!~  b: String!~  c: String~}~
CREATE TABLE t (id serial PRIMARY KEY, a text NOT NULL, b text NOT NULL DEFAULT 'x', c text); => ~input TInput {~  id: Int~  a: String!~  b: String~  c: String~}~~input TPatch {~  id: Int~  a: String~  b: String~  c: String~}~
CREATE TABLE t (id serial PRIMARY KEY, a text NOT NULL); => ~input TCondition {~  id: Int~  a: String~}~
CREATE TABLE t (a text); => ~type Mutation {~  createT(input: CreateTInput!): CreateTPayload~}~~input CreateTInput {~  clientMutationId: String~  t: TInput!~}~~type CreateTPayload {~  clientMutationId: String~  t: T~}~
CREATE TABLE t (a text); => !Patch
CREATE TABLE t (id integer PRIMARY KEY); COMMENT ON COLUMN t.id IS '@behavior -update'; => ~type Mutation {~  createT(input: CreateTInput!): CreateTPayload~  deleteTById(
CREATE TABLE t (a text); COMMENT ON COLUMN t.a IS '@behavior -insert'; => !Mutation
CREATE TABLE t (a text); COMMENT ON COLUMN t.a IS '@behavior -filter'; => !TCondition
CREATE TABLE t (id integer PRIMARY KEY, UNIQUE (id)); => ~type Query {~  allTs(first: Int, last: Int, offset: Int, before: Cursor, after: Cursor, orderBy: [TsOrderBy!], condition: TCondition): TsConnection~  tById(id: Int!): T~}~
CREATE TABLE t (a integer, b integer, UNIQUE (a, b), UNIQUE (b, a)); => ~  tByAAndB(a: Int!, b: Int!): T~  tByBAndA(b: Int!, a: Int!): T~
CREATE TABLE t (a integer, b bigint, PRIMARY KEY (a, b)); => ~input UpdateTByAAndBInput {~  clientMutationId: String~  a: Int!~  b: BigInt!~  tPatch: TPatch!~}~
CREATE TABLE t (a integer, b bigint, PRIMARY KEY (a, b)); => ~input DeleteTByAAndBInput {~  clientMutationId: String~  a: Int!~  b: BigInt!~}~~type DeleteTPayload {~  clientMutationId: String~  t: T~}~
CREATE TABLE u (id integer PRIMARY KEY); CREATE TABLE t (a integer UNIQUE REFERENCES u); => ~type U {~  id: Int!~  tByA: T~}~
CREATE TABLE u (a integer, b integer, PRIMARY KEY (a, b)); CREATE TABLE t (x integer UNIQUE, y integer, FOREIGN KEY (x, y) REFERENCES u); => ~type U {~  a: Int!~  b: Int!~  tByXAndY: T~}~
CREATE TABLE u (a integer, b integer, PRIMARY KEY (a, b)); CREATE TABLE t (x integer, y integer, z integer, UNIQUE (x, z), FOREIGN KEY (x, y) REFERENCES u); => ~  tsByXAndY(first: Int,
CREATE TABLE u (a integer, b integer, PRIMARY KEY (a, b)); CREATE TABLE t (x integer, y integer, FOREIGN KEY (x, y) REFERENCES u); => ~type T {~  x: Int~  y: Int~  uByXAndY: U~}~
CREATE TABLE t (id integer PRIMARY KEY, p integer REFERENCES t); => ~type T {~  id: Int!~  p: Int~  tByP: T~  tsByP(first: Int, last: Int, offset: Int, before: Cursor, after: Cursor, orderBy: [TsOrderBy!], condition: TCondition): TsConnection~}~
CREATE TABLE u (id integer PRIMARY KEY, k integer UNIQUE); CREATE TABLE t (a integer REFERENCES u (k), b integer REFERENCES u); => ~type T {~  a: Int~  b: Int~  uByA: U~  uByB: U~}~
CREATE TABLE q (a integer UNIQUE, b integer UNIQUE); CREATE TABLE u (id integer PRIMARY KEY, p integer REFERENCES u); ALTER TABLE q ADD FOREIGN KEY (b) REFERENCES u; ALTER TABLE q ADD FOREIGN KEY (a) REFERENCES u; CREATE TABLE w (c integer UNIQUE REFERENCES u); => ~type U {~  id: Int!~  p: Int~  uByP: U~  qByB: Q~  qByA: Q~  usByP(first: Int, last: Int, offset: Int, before: Cursor, after: Cursor, orderBy: [UsOrderBy!], condition: UCondition): UsConnection~  wByC: W~}~
CREATE TYPE mood AS ENUM ('a'); CREATE TABLE t (m mood PRIMARY KEY, n mood NOT NULL DEFAULT 'a'); => ~input TInput {~  m: Mood!~  n: Mood~}~
CREATE TYPE mood AS ENUM ('a'); CREATE TABLE t (m mood PRIMARY KEY, n mood NOT NULL DEFAULT 'a'); => ~  tByM(m: Mood!): T~";

/// SCRIPT => LINE, where `~` is a line end: why the script has no schema. The numbers first, then what comes first.
const FAULTS: &str = "\
CREATE TABLE t (id integer PRIMARY KEY, a_b text, \"aB\" text); => schema fault 1: T.aB
CREATE TABLE query (a text); => schema fault 1: Query
CREATE TABLE mutation (a text); => schema fault 1: Mutation
CREATE TABLE int (a text); => schema fault 1: Int
CREATE TABLE strings (a text); => schema fault 1: String
CREATE TABLE boolean (a text); => schema fault 1: Boolean
CREATE TABLE page_infos (a text); => schema fault 1: PageInfo
CREATE TYPE cursor AS ENUM ('a'); => schema fault 1: Cursor
CREATE TABLE users (a text); CREATE TABLE \"user\" (a text); => schema fault 1: User
CREATE TYPE users_edge AS ENUM ('a'); CREATE TABLE users (a text); => schema fault 1: UsersEdge
CREATE TYPE e AS ENUM ('a', 'A'); => schema fault 1: E.A
CREATE TABLE series (id integer PRIMARY KEY, a integer REFERENCES series); => schema fault 1: Series.seriesByA
CREATE TABLE t (id integer, a_b text, \"aB\" text); COMMENT ON COLUMN t.a_b IS '@behavior -select'; => schema fault 1: TsOrderBy.A_B_ASC
CREATE TABLE t (id integer, a_b text, \"aB\" text); COMMENT ON COLUMN t.a_b IS '@behavior -select -order'; => schema fault 1: TCondition.aB
CREATE TABLE t (id integer, a_b text, \"aB\" text); COMMENT ON COLUMN t.a_b IS '@behavior -select -order -filter'; => schema fault 1: TInput.aB
CREATE TABLE t (a_b integer, \"aB\" integer, UNIQUE (a_b, \"aB\")); COMMENT ON COLUMN t.a_b IS '@behavior -select -order -filter -insert -update'; => schema fault 1: Query.aB
CREATE TABLE t (id integer PRIMARY KEY); COMMENT ON CONSTRAINT t_pkey ON t IS '@fieldName allTs'; => schema fault 1: Query.allTs
CREATE TABLE t (t_patch integer PRIMARY KEY); => schema fault 1: UpdateTByTPatchInput.tPatch
CREATE TABLE t (client_mutation_id integer PRIMARY KEY); => schema fault 1: UpdateTByClientMutationIdInput.clientMutationId
CREATE TABLE client_mutation_ids (a text); => schema fault 1: CreateClientMutationIdInput.clientMutationId
CREATE TABLE \"é\" (a text); => schema fault 2: é
CREATE TABLE \"1st\" (a text); => schema fault 2: 1st
CREATE TABLE t (\"a b\" text); => schema fault 2: a b
CREATE TABLE t (a text, \"a b\" text); COMMENT ON COLUMN t.\"a b\" IS '@behavior -select'; => schema fault 2: a b
CREATE TABLE t (\"__a\" text); => schema fault 2: __A_ASC
CREATE TYPE e AS ENUM ('__x'); => schema fault 2: __X
CREATE TABLE t (id integer PRIMARY KEY); COMMENT ON CONSTRAINT t_pkey ON t IS '@fieldName __x'; => schema fault 2: __x
CREATE TABLE t (a integer, \"b-c\" integer, UNIQUE (a, \"b-c\")); COMMENT ON COLUMN t.\"b-c\" IS '@behavior -select -filter -insert -update'; => schema fault 2: tByAAndB-c
CREATE TABLE t (\"b-c\" integer UNIQUE); COMMENT ON COLUMN t.\"b-c\" IS '@name d~@behavior -select'; => schema fault 4: T
CREATE TABLE \"1st\" (a text); COMMENT ON COLUMN \"1st\".a IS '@behavior -select'; => schema fault 2: 1st
CREATE TABLE t (a integer UNIQUE, \"b-c\" integer, UNIQUE (\"b-c\"), UNIQUE (a, \"b-c\")); COMMENT ON COLUMN t.\"b-c\" IS '@behavior -select -filter -insert -update'; COMMENT ON CONSTRAINT \"t_b-c_key\" ON t IS '@fieldName find'; => schema fault 2: b-c
; => schema fault 4: Query
CREATE TABLE t (a text); COMMENT ON TABLE t IS '@behavior -connection'; => schema fault 4: Query
CREATE TABLE t (a text); COMMENT ON COLUMN t.a IS '@behavior -select'; => schema fault 4: T
CREATE TABLE t (a_b text, \"aB\" text, \"c d\" text); => schema fault 2: c d
CREATE TABLE t (a_b text, \"aB\" text); CREATE TABLE u (\"c d\" text); => schema fault 1: T.aB
CREATE TABLE int (a_b text, \"aB\" text); => schema fault 1: Int
CREATE TABLE query (a text); CREATE TABLE u (\"c d\" text); => schema fault 2: c d
CREATE TABLE int (\"a b\" text); => schema fault 2: a b
CREATE TABLE int (a text); COMMENT ON COLUMN int.a IS '@behavior -select'; => schema fault 4: Int
CREATE TABLE t (a_b integer, \"aB\" integer, UNIQUE (a_b, \"aB\"), UNIQUE (\"aB\")); COMMENT ON COLUMN t.a_b IS '@behavior -select -order -filter -insert -update'; COMMENT ON CONSTRAINT \"t_aB_key\" ON t IS '@fieldName allTs'; => schema fault 1: Query.aB
CREATE TABLE t (a_b integer, \"aB\" integer, UNIQUE (\"aB\"), UNIQUE (a_b, \"aB\")); COMMENT ON COLUMN t.a_b IS '@behavior -select -order -filter -insert -update'; COMMENT ON CONSTRAINT \"t_aB_key\" ON t IS '@fieldName allTs'; => schema fault 1: Query.allTs
CREATE TABLE t (a text, \"_\" text); => schema fault 2: ";

/// A text with a line end for each `~`.
fn with_line_ends(alloc: Global, text: &str) -> Result<Vec<u8>, AllocError> {
    let mut lines = Vec::new(alloc);
    for byte in text.as_bytes() {
        lines.push(if *byte == b'~' { b'\n' } else { *byte })?;
    }
    Ok(lines)
}

/// The text of the script's schema, or the line that tells why it has none.
pub(crate) fn outcome_of(alloc: Global, script: &[u8]) -> Result<Vec<u8>, Fail> {
    let Ok(script) = read_script(alloc, script) else {
        return Err("no script".into());
    };
    let mut outcome = Vec::new(alloc);
    match build(alloc, &script.catalog) {
        Ok(schema) => outcome.extend_from_slice(print_schema(alloc, &schema)?.bytes())?,
        Err(fault) => put_fault_line(&mut outcome, &fault)?,
    }
    Ok(outcome)
}

#[test]
fn schemas_have_these_parts(rt: HostRuntime) -> Result<(), Fail> {
    for row in PARTS.lines() {
        let (script, part) = row.split_once(" => ").ok_or("no row")?;
        let script = with_line_ends(rt.alloc(), script)?;
        let outcome = outcome_of(rt.alloc(), script.as_slice())?;
        let text = str::from_utf8(outcome.as_slice()).ok().ok_or("no text")?;
        let stands = !part.starts_with('!');
        let part = with_line_ends(rt.alloc(), part.strip_prefix('!').unwrap_or(part))?;
        let part = str::from_utf8(part.as_slice()).ok().ok_or("no text")?;
        assert_eq!(rt; text.contains(part), stands);
    }
    Ok(())
}

#[test]
fn scripts_have_no_schema_for_these_reasons(rt: HostRuntime) -> Result<(), Fail> {
    for row in FAULTS.lines() {
        let (script, line) = row.split_once(" => ").ok_or("no row")?;
        let script = with_line_ends(rt.alloc(), script)?;
        let outcome = outcome_of(rt.alloc(), script.as_slice())?;
        assert_eq!(rt; outcome.as_slice(), line.as_bytes());
    }
    Ok(())
}
