//! Scripts that tests and examples share, so that none is typed twice.
#![tactic(auto)]

ghost use Rattle.std.specs.Prelude.{◌≡◌, ◌++◌, IfOk};

use pg_base::{Memory, Text};
use std::alloc::Global;

/// A blog: users, their posts, and the comments on them.
pub const BLOG: &str = "\
CREATE TABLE users (id serial PRIMARY KEY, name text NOT NULL, email text UNIQUE);
CREATE TABLE posts (id serial PRIMARY KEY, author_id integer REFERENCES users, title text NOT NULL);
CREATE TABLE comments (id serial PRIMARY KEY, post_id integer NOT NULL REFERENCES posts (id), body text NOT NULL);
INSERT INTO users (name, email) VALUES ('Ann', 'ann@x'), ('Bob', NULL);
INSERT INTO posts (author_id, title) VALUES (1, 'A1'), (1, 'A2'), (1, 'A3'), (NULL, 'N'), (2, 'B1');
INSERT INTO comments (post_id, body) VALUES (1, 'c1'), (3, 'c2'), (5, 'c3');
";

/// A table of users without rows.
pub const NO_USERS: &str = "CREATE TABLE users (id integer PRIMARY KEY);";

/// Three rows in two groups, in another order than their groups'.
pub const GROUPS: &str = "\
CREATE TABLE t (id integer PRIMARY KEY, g integer); INSERT INTO t VALUES (10, 1), (11, 1), (12, 0);";

/// The least number of 64 bits, and a text with a quote, a backslash and a tab.
pub const LEAST_NUMBER: &str = "\
CREATE TABLE n (id bigint PRIMARY KEY, s text); INSERT INTO n VALUES (-9223372036854775808, E'a\"\\\\\\t');";

/// A type that isn't supported.
pub const UNKNOWN_TYPE: &str = "CREATE TABLE t (id uuid);";

/// Two columns whose fields have one name.
pub const NAMES_THAT_MEET: &str = "CREATE TABLE t (id integer PRIMARY KEY, a_b text, \"aB\" text);";

/// Two rows with one key.
pub const DOUBLE_KEY: &str =
    "CREATE TABLE t (id integer PRIMARY KEY); INSERT INTO t VALUES (1), (1);";

/// What may stand before a script and has no effect.
pub const SEARCH_PATH: &str = "SET search_path = public;\n";

/// Another name for a column of the blog.
pub const FULL_NAME: &str = "COMMENT ON COLUMN users.name IS '@name fullName';\n";

fn joined_bytes(alloc: Global, first: &str, second: &str) -> Result<Vec<u8>, Memory>
    ensures { IfOk result (λ bytes. bytes.items ≡ first.now ++ second.now) }
{
    let mut bytes = Vec::from_slice(alloc, first.as_bytes())?;
    bytes.extend_from_slice(second.as_bytes())?;
    Ok(bytes)
}

/// One script after another.
pub fn joined(alloc: Global, first: &str, second: &str) -> Result<Text, Memory>
    ensures { IfOk result (λ text. text ≡ first.now ++ second.now) }
{
    let bytes = joined_bytes(alloc, first, second)?;
    Ok(Text::of_bytes(bytes))
}
