//! The limits, each the greatest number that is accepted. `specs/Limits` has the same numbers for definitions.

/// The most bytes of a script.
pub const MOST_SCRIPT_BYTES: usize = 67_108_864;

/// The most bytes of a document.
pub const MOST_DOCUMENT_BYTES: usize = 65_536;

/// The most bytes of a file of variables.
pub const MOST_VARIABLES_BYTES: usize = 1_048_576;

/// The most tables of a catalog.
pub const MOST_TABLES: usize = 200;

/// The most enums of a catalog.
pub const MOST_ENUMS: usize = 200;

/// The most columns of a table.
pub const MOST_COLUMNS: usize = 100;

/// The most cases of an enum.
pub const MOST_CASES: usize = 200;

/// The most keys and links of a table together.
pub const MOST_CONSTRAINTS: usize = 64;

/// The most columns of a key or of a link.
pub const MOST_KEY_COLUMNS: usize = 8;

/// The most bytes of the name of a table, column, key, link or enum.
pub const MOST_NAME_BYTES: usize = 63;

/// The most rows of a table.
pub const MOST_ROWS: usize = 1_000_000;

/// The most bytes of a text in a row.
pub const MOST_TEXT_BYTES: usize = 1_048_576;

/// The most fields of all object types of a schema together.
pub const MOST_FIELDS: usize = 20_000;

/// The most tokens of a document.
pub const MOST_TOKENS: usize = 8_192;

/// The most brackets that are open at one place of a document.
pub const MOST_OPEN_BRACKETS: usize = 64;

/// The most places of a request's tree.
pub const MOST_PLACES: usize = 2_000;

/// The most rows that a request visits.
pub const MOST_VISITED_ROWS: usize = 200_000;

/// The most bytes of a response's text.
pub const MOST_RESPONSE_BYTES: usize = 67_108_864;

/// The most bytes of the head of an HTTP request.
pub const MOST_HEAD_BYTES: usize = 16_384;

/// The most lines of such a head after the first.
pub const MOST_HEAD_LINES: usize = 64;

/// The most bytes of the body of an HTTP request.
pub const MOST_BODY_BYTES: usize = 1_048_576;

/// The most replies of one session.
pub const MOST_REPLIES: usize = 1_000_000;

/// The most entries of the journal, where the command line names no other number.
pub const MOST_ENTRIES: usize = 1_000_000;

/// The most plans that are kept for reuse at one time.
pub const MOST_PLANS: usize = 64;
