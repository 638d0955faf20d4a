//! Copies of what a catalog holds.

ghost use Rattle.std.specs.Prelude.{◌≡◌, true, IfOk};

use pg_base::{Cell, ColumnDef, KeyDef, LinkDef, Memory, Tags, Text};
use sqlite_items::Items;
use std::alloc::Global;

fn copy_optional(alloc: Global, text: &Option<Text>) -> Result<Option<Text>, Memory>
    ensures { IfOk result (λ copy. copy ≡ text.now) }
{
    match text {
        None => Ok(None),
        Some(text) => {
            let copy = text.copy(alloc)?;
            Ok(Some(copy))
        }
    }
}

/// The tags, copied.
pub(crate) fn copy_tags(alloc: Global, tags: &Tags) -> Result<Tags, Memory>
    ensures { IfOk result (λ copy. copy ≡ tags.now) }
{
    let name = copy_optional(alloc, &tags.name)?;
    let field_name = copy_optional(alloc, &tags.field_name)?;
    let foreign_field_name = copy_optional(alloc, &tags.foreign_field_name)?;
    let deprecated = copy_optional(alloc, &tags.deprecated)?;
    let description = copy_optional(alloc, &tags.description)?;
    Ok(Tags {
        name,
        field_name,
        foreign_field_name,
        deprecated,
        description,
        behavior: tags.behavior,
    })
}

/// The texts, copied.
pub(crate) fn copy_texts(alloc: Global, texts: &[Text]) -> Result<Items<Text>, Memory>
    ensures { IfOk result (λ copies. copies ≡ texts.now) }
{
    let mut copies = Items::new(alloc);
    for text in texts {
        let copy = text.copy(alloc)?;
        copies.push(copy)?;
    }
    Ok(copies)
}

fn copy_cell(alloc: Global, cell: &Option<Cell>) -> Result<Option<Cell>, Memory>
    ensures { IfOk result (λ copy. copy ≡ cell.now) }
{
    match cell {
        None => Ok(None),
        Some(cell) => {
            let copy = cell.copy(alloc)?;
            Ok(Some(copy))
        }
    }
}

/// The column with other tags.
pub(crate) fn column_with_tags(
    alloc: Global,
    column: &ColumnDef,
    tags: &Tags,
) -> Result<ColumnDef, Memory>
    ensures { IfOk result (λ made. made ≡ record column.now { tags = tags.now }) }
{
    let name = column.name.copy(alloc)?;
    let default = copy_cell(alloc, &column.default)?;
    let tags = copy_tags(alloc, tags)?;
    Ok(ColumnDef {
        name,
        kind: column.kind,
        not_null: column.not_null,
        default,
        identity: column.identity,
        tags,
    })
}

/// The column, which takes no null.
pub(crate) fn column_without_null(alloc: Global, column: &ColumnDef) -> Result<ColumnDef, Memory>
    ensures { IfOk result (λ made. made ≡ record column.now { not_null = true }) }
{
    let mut copy = column_with_tags(alloc, column, &column.tags)?;
    copy.not_null = true;
    Ok(copy)
}

/// The key with other tags.
pub(crate) fn key_with_tags(alloc: Global, key: &KeyDef, tags: &Tags) -> Result<KeyDef, Memory>
    ensures { IfOk result (λ made. made ≡ record key.now { tags = tags.now }) }
{
    let name = key.name.copy(alloc)?;
    let columns = Items::from_slice(alloc, key.columns.as_slice())?;
    let tags = copy_tags(alloc, tags)?;
    Ok(KeyDef {
        name,
        columns,
        primary: key.primary,
        tags,
    })
}

/// The link with other tags.
pub(crate) fn link_with_tags(alloc: Global, link: &LinkDef, tags: &Tags) -> Result<LinkDef, Memory>
    ensures { IfOk result (λ made. made ≡ record link.now { tags = tags.now }) }
{
    let name = link.name.copy(alloc)?;
    let columns = Items::from_slice(alloc, link.columns.as_slice())?;
    let target_columns = Items::from_slice(alloc, link.target_columns.as_slice())?;
    let tags = copy_tags(alloc, tags)?;
    Ok(LinkDef {
        name,
        columns,
        target: link.target,
        target_columns,
        tags,
    })
}
