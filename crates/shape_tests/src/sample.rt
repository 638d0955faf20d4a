//! The schema of one table: users (id integer PRIMARY KEY, name text NOT NULL, boss integer REFERENCES users).

use pg_base::{Kind, Pos, Schema, Text};
use pg_catalog::{ColumnPart, KeyPart, LinkPart, Part, TablePart, build};
use schema_build::schema_of;
use sqlite_items::Items;
use std::alloc::{AllocError, Global};
use std::test::Fail;

const AT: Pos = Pos { line: 1, column: 1 };

fn column(alloc: Global, name: &str, kind: Kind, not_null: bool) -> Result<ColumnPart, AllocError> {
    Ok(ColumnPart {
        name: Text::of(alloc, name)?,
        kind,
        not_null,
        default: None,
        identity: false,
    })
}

fn names_of(alloc: Global, name: &str) -> Result<Items<Text>, AllocError> {
    let mut names = Items::new(alloc);
    names.push(Text::of(alloc, name)?)?;
    Ok(names)
}

fn users(alloc: Global) -> Result<Part, AllocError> {
    let mut columns = Items::new(alloc);
    columns.push(column(alloc, "id", Kind::Int, true)?)?;
    columns.push(column(alloc, "name", Kind::Text, true)?)?;
    columns.push(column(alloc, "boss", Kind::Int, false)?)?;
    Ok(Part::Table(TablePart {
        pos: AT,
        name: Text::of(alloc, "users")?,
        columns,
    }))
}

fn key(alloc: Global) -> Result<Part, AllocError> {
    Ok(Part::Key(KeyPart {
        pos: AT,
        table: Text::of(alloc, "users")?,
        name: None,
        columns: names_of(alloc, "id")?,
        primary: true,
    }))
}

fn link(alloc: Global) -> Result<Part, AllocError> {
    Ok(Part::Link(LinkPart {
        pos: AT,
        table: Text::of(alloc, "users")?,
        name: None,
        columns: names_of(alloc, "boss")?,
        target: Text::of(alloc, "users")?,
        target_columns: None,
    }))
}

pub(crate) fn sample_schema(alloc: Global) -> Result<Schema, Fail> {
    let mut parts = Vec::new(alloc);
    parts.push(users(alloc)?)?;
    parts.push(key(alloc)?)?;
    parts.push(link(alloc)?)?;
    let catalog = build(alloc, parts.as_slice()).ok().ok_or("no catalog")?;
    Ok(schema_of(alloc, &catalog)?)
}
