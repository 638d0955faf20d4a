//! The schema of one table: people (id bigint PRIMARY KEY, name text NOT NULL, mood mood, n integer, flag boolean).

use pg_base::{Kind, Pos, Schema, Text};
use pg_catalog::{ColumnPart, EnumPart, KeyPart, Part, TablePart, build};
use schema_build::schema_of;
use sqlite_items::Items;
use std::alloc::Global;
use std::test::Fail;

const AT: Pos = Pos { line: 1, column: 1 };

fn put_column(
    alloc: Global,
    columns: &mut Items<ColumnPart>,
    name: &str,
    kind: Kind,
    not_null: bool,
) -> Result<(), Fail> {
    columns.push(ColumnPart {
        name: Text::of(alloc, name)?,
        kind,
        not_null,
        default: None,
        identity: false,
    })?;
    Ok(())
}

fn moods(alloc: Global) -> Result<Part, Fail> {
    let mut cases = Items::new(alloc);
    cases.push(Text::of(alloc, "sad")?)?;
    cases.push(Text::of(alloc, "ok")?)?;
    Ok(Part::Enum(EnumPart {
        pos: AT,
        name: Text::of(alloc, "mood")?,
        cases,
    }))
}

fn people(alloc: Global) -> Result<Part, Fail> {
    let mut columns = Items::new(alloc);
    put_column(alloc, &mut columns, "id", Kind::BigInt, true)?;
    put_column(alloc, &mut columns, "name", Kind::Text, true)?;
    put_column(alloc, &mut columns, "mood", Kind::Enum(0), false)?;
    put_column(alloc, &mut columns, "n", Kind::Int, false)?;
    put_column(alloc, &mut columns, "flag", Kind::Bool, false)?;
    Ok(Part::Table(TablePart {
        pos: AT,
        name: Text::of(alloc, "people")?,
        columns,
    }))
}

fn key(alloc: Global) -> Result<Part, Fail> {
    let mut columns = Items::new(alloc);
    columns.push(Text::of(alloc, "id")?)?;
    Ok(Part::Key(KeyPart {
        pos: AT,
        table: Text::of(alloc, "people")?,
        name: None,
        columns,
        primary: true,
    }))
}

pub(crate) fn sample_schema(alloc: Global) -> Result<Schema, Fail> {
    let mut parts = Vec::new(alloc);
    parts.push(moods(alloc)?)?;
    parts.push(people(alloc)?)?;
    parts.push(key(alloc)?)?;
    let catalog = build(alloc, parts.as_slice())?;
    Ok(schema_of(alloc, &catalog)?)
}
