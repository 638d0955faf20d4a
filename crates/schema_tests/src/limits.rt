//! Whole schemas: of the smallest script, of a blog, and of the largest scripts.

use crate::schemas::outcome_of;
use std::alloc::{AllocError, Global};
use std::test::Fail;

const ONE_TABLE: &str = "CREATE TABLE t (id integer PRIMARY KEY);";

const ONE_TABLE_SCHEMA: &str = "\
scalar BigInt

scalar Cursor

type PageInfo {
  hasNextPage: Boolean!
  hasPreviousPage: Boolean!
  startCursor: Cursor
  endCursor: Cursor
}

type T {
  id: Int!
}

type TsConnection {
  nodes: [T!]!
  edges: [TsEdge!]!
  pageInfo: PageInfo!
  totalCount: Int!
}

type TsEdge {
  cursor: Cursor!
  node: T!
}

enum TsOrderBy {
  NATURAL
  ID_ASC
  ID_DESC
}

input TCondition {
  id: Int
}

input TInput {
  id: Int!
}

input TPatch {
  id: Int
}

type Query {
  allTs(first: Int, last: Int, offset: Int, before: Cursor, after: Cursor, orderBy: [TsOrderBy!], condition: TCondition): TsConnection
  tById(id: Int!): T
}

type Mutation {
  createT(input: CreateTInput!): CreateTPayload
  updateTById(input: UpdateTByIdInput!): UpdateTPayload
  deleteTById(input: DeleteTByIdInput!): DeleteTPayload
}

input CreateTInput {
  clientMutationId: String
  t: TInput!
}

type CreateTPayload {
  clientMutationId: String
  t: T
}

input UpdateTByIdInput {
  clientMutationId: String
  id: Int!
  tPatch: TPatch!
}

type UpdateTPayload {
  clientMutationId: String
  t: T
}

input DeleteTByIdInput {
  clientMutationId: String
  id: Int!
}

type DeleteTPayload {
  clientMutationId: String
  t: T
}
";

/// What comments say of the same table that is no tag, or a tag that means nothing there.
const ONE_TABLE_COMMENTS: &str = "
COMMENT ON TABLE t IS '@fieldName a\n@foreignFieldName b\n@deprecated c\n@other d\nA table.\n@name e';
COMMENT ON COLUMN t.id IS '@fieldName a\n@foreignFieldName b\n@behavior -list -connection -delete\nA number.';
COMMENT ON CONSTRAINT t_pkey ON t IS '@name a\n@foreignFieldName b
@behavior -select -list -connection -insert -update -delete -order -filter';";

/// A key in the last of the largest tables: its field of Query is the 20,001st, and its name is none.
const ONE_KEY_MORE: &str = "
ALTER TABLE t195 ADD UNIQUE (a); COMMENT ON TABLE t195 IS '@behavior -insert -update -delete';
COMMENT ON CONSTRAINT t195_a_key ON t195 IS '@fieldName 1';";

/// A name that is none in an earlier type.
const ONE_COLUMN_RENAMED: &str = "COMMENT ON COLUMN t195.c1 IS '@name 2';";

const BLOG: &str = "
CREATE TABLE users (id serial PRIMARY KEY, name text NOT NULL, email text UNIQUE);
CREATE TABLE posts (id serial PRIMARY KEY, author_id integer REFERENCES users, title text NOT NULL);
CREATE TABLE comments (id serial PRIMARY KEY, post_id integer NOT NULL REFERENCES posts (id), body text NOT NULL);";

/// All that stands in the blog's schema after `PageInfo` and before the types of its mutations.
const BLOG_TYPES: &str = "

type User {
  id: Int!
  name: String!
  email: String
  postsByAuthorId(first: Int, last: Int, offset: Int, before: Cursor, after: Cursor, orderBy: [PostsOrderBy!], condition: PostCondition): PostsConnection
}

type UsersConnection {
  nodes: [User!]!
  edges: [UsersEdge!]!
  pageInfo: PageInfo!
  totalCount: Int!
}

type UsersEdge {
  cursor: Cursor!
  node: User!
}

enum UsersOrderBy {
  NATURAL
  ID_ASC
  ID_DESC
  NAME_ASC
  NAME_DESC
  EMAIL_ASC
  EMAIL_DESC
}

input UserCondition {
  id: Int
  name: String
  email: String
}

input UserInput {
  id: Int
  name: String!
  email: String
}

input UserPatch {
  id: Int
  name: String
  email: String
}

type Post {
  id: Int!
  authorId: Int
  title: String!
  userByAuthorId: User
  commentsByPostId(first: Int, last: Int, offset: Int, before: Cursor, after: Cursor, orderBy: [CommentsOrderBy!], condition: CommentCondition): CommentsConnection
}

type PostsConnection {
  nodes: [Post!]!
  edges: [PostsEdge!]!
  pageInfo: PageInfo!
  totalCount: Int!
}

type PostsEdge {
  cursor: Cursor!
  node: Post!
}

enum PostsOrderBy {
  NATURAL
  ID_ASC
  ID_DESC
  AUTHOR_ID_ASC
  AUTHOR_ID_DESC
  TITLE_ASC
  TITLE_DESC
}

input PostCondition {
  id: Int
  authorId: Int
  title: String
}

input PostInput {
  id: Int
  authorId: Int
  title: String!
}

input PostPatch {
  id: Int
  authorId: Int
  title: String
}

type Comment {
  id: Int!
  postId: Int!
  body: String!
  postByPostId: Post
}

type CommentsConnection {
  nodes: [Comment!]!
  edges: [CommentsEdge!]!
  pageInfo: PageInfo!
  totalCount: Int!
}

type CommentsEdge {
  cursor: Cursor!
  node: Comment!
}

enum CommentsOrderBy {
  NATURAL
  ID_ASC
  ID_DESC
  POST_ID_ASC
  POST_ID_DESC
  BODY_ASC
  BODY_DESC
}

input CommentCondition {
  id: Int
  postId: Int
  body: String
}

input CommentInput {
  id: Int
  postId: Int!
  body: String!
}

input CommentPatch {
  id: Int
  postId: Int
  body: String
}

type Query {
  allUsers(first: Int, last: Int, offset: Int, before: Cursor, after: Cursor, orderBy: [UsersOrderBy!], condition: UserCondition): UsersConnection
  userById(id: Int!): User
  userByEmail(email: String!): User
  allPosts(first: Int, last: Int, offset: Int, before: Cursor, after: Cursor, orderBy: [PostsOrderBy!], condition: PostCondition): PostsConnection
  postById(id: Int!): Post
  allComments(first: Int, last: Int, offset: Int, before: Cursor, after: Cursor, orderBy: [CommentsOrderBy!], condition: CommentCondition): CommentsConnection
  commentById(id: Int!): Comment
}

type Mutation {
  createUser(input: CreateUserInput!): CreateUserPayload
  updateUserById(input: UpdateUserByIdInput!): UpdateUserPayload
  updateUserByEmail(input: UpdateUserByEmailInput!): UpdateUserPayload
  deleteUserById(input: DeleteUserByIdInput!): DeleteUserPayload
  deleteUserByEmail(input: DeleteUserByEmailInput!): DeleteUserPayload
  createPost(input: CreatePostInput!): CreatePostPayload
  updatePostById(input: UpdatePostByIdInput!): UpdatePostPayload
  deletePostById(input: DeletePostByIdInput!): DeletePostPayload
  createComment(input: CreateCommentInput!): CreateCommentPayload
  updateCommentById(input: UpdateCommentByIdInput!): UpdateCommentPayload
  deleteCommentById(input: DeleteCommentByIdInput!): DeleteCommentPayload
}

input CreateUserInput {
  clientMutationId: String
  user: UserInput!
}

type CreateUserPayload {
  clientMutationId: String
  user: User
}

input UpdateUserByIdInput {
  clientMutationId: String
  id: Int!
  userPatch: UserPatch!
}

input UpdateUserByEmailInput {
  clientMutationId: String
  email: String!
  userPatch: UserPatch!
}

type UpdateUserPayload {
  clientMutationId: String
  user: User
}

input DeleteUserByIdInput {
  clientMutationId: String
  id: Int!
}

input DeleteUserByEmailInput {
  clientMutationId: String
  email: String!
}

type DeleteUserPayload {
  clientMutationId: String
  user: User
}

input CreatePostInput {
  clientMutationId: String
  post: PostInput!
}
";

/// Tables without keys whose objects have 20,000 fields: four of PageInfo, and of each table its columns, six of its
/// connection and its edge, and one of Query. 192 tables have 95 columns and four have 96, the last one more of `extra`.
fn largest_script(alloc: Global, extra: usize) -> Result<String, AllocError> {
    let mut script = String::new(alloc);
    for table in 0..196usize {
        write!(script, "CREATE TABLE t{table} (a text")?;
        let columns = if table < 192 { 95 } else { 96 };
        for column in 1..columns {
            write!(script, ", c{column} text")?;
        }
        if table == 195 {
            for column in 0..extra {
                write!(script, ", d{column} text")?;
            }
        }
        write!(
            script,
            "); COMMENT ON TABLE t{table} IS '@behavior -insert';\n"
        )?;
    }
    Ok(script)
}

#[test]
fn the_smallest_schema_is_printed_whole(rt: HostRuntime) -> Result<(), Fail> {
    let outcome = outcome_of(rt.alloc(), ONE_TABLE.as_bytes())?;
    assert_eq!(rt; outcome.as_slice(), ONE_TABLE_SCHEMA.as_bytes());
    Ok(())
}

#[test]
fn tags_that_mean_nothing_change_nothing(rt: HostRuntime) -> Result<(), Fail> {
    let script = format!(in rt.alloc(); "{ONE_TABLE}{ONE_TABLE_COMMENTS}")?;
    let outcome = outcome_of(rt.alloc(), script.as_bytes())?;
    assert_eq!(rt; outcome.as_slice(), ONE_TABLE_SCHEMA.as_bytes());
    Ok(())
}

#[test]
fn a_blog_has_its_types(rt: HostRuntime) -> Result<(), Fail> {
    let outcome = outcome_of(rt.alloc(), BLOG.as_bytes())?;
    let text = str::from_utf8(outcome.as_slice()).ok().ok_or("no text")?;
    assert!(rt; text.contains(BLOG_TYPES));
    Ok(())
}

#[test]
fn objects_have_at_most_20000_fields(rt: HostRuntime) -> Result<(), Fail> {
    let script = largest_script(rt.alloc(), 0)?;
    let outcome = outcome_of(rt.alloc(), script.as_bytes())?;
    assert!(rt; outcome.as_slice().starts_with(b"scalar BigInt\n"));
    let script = largest_script(rt.alloc(), 1)?;
    let outcome = outcome_of(rt.alloc(), script.as_bytes())?;
    assert_eq!(rt; outcome.as_slice(), b"schema fault 3".as_slice());
    Ok(())
}

#[test]
fn too_many_fields_come_before_other_faults_of_their_type(rt: HostRuntime) -> Result<(), Fail> {
    let mut script = largest_script(rt.alloc(), 0)?;
    script.push_str(ONE_KEY_MORE)?;
    let outcome = outcome_of(rt.alloc(), script.as_bytes())?;
    assert_eq!(rt; outcome.as_slice(), b"schema fault 3".as_slice());
    script.push_str(ONE_COLUMN_RENAMED)?;
    let outcome = outcome_of(rt.alloc(), script.as_bytes())?;
    assert_eq!(rt; outcome.as_slice(), b"schema fault 2: 2".as_slice());
    Ok(())
}
