//! Comments: their tags take the place of those before.

ghost use Rattle.std.specs.Prelude.{◌≡◌, map, position, IfOk, OnOk};
ghost use Rattle.std.specs.Str.{bytes_eq};
ghost use Rattle.pg_catalog.specs.Added.{added, changed_named, commented_on, with_named_tags};
ghost use Rattle.pg_catalog.specs.Names.{changed, place_of};
ghost use Rattle.pg_catalog.specs.declared.part.Commented.TheVariants as commented;
ghost use Rattle.pg_catalog.specs.declared.part.Part.TheVariants as variant;

use crate::copies::{column_with_tags, copy_tags, key_with_tags, link_with_tags};
use crate::growing::{Growing, indexed};
use crate::texts::know_tags;
use crate::{CommentPart, Commented};
use pg_base::{ColumnDef, KeyDef, LinkDef, Memory, TableDef, Tags, Text};
use sqlite_items::{Items, at};
use std::alloc::Global;

fn tag_column(
    alloc: Global,
    columns: &mut Items<ColumnDef>,
    place: Option<usize>,
    tags: &Tags,
) -> Result<(), Memory>
    ensures { OnOk result (columns.new
        ≡ changed_named columns.old place (λ column. record column { tags = tags.now })) }
{
    let Some(place) = place else {
        return Ok(());
    };
    let Some(column) = at(columns.as_slice(), place) else {
        return Ok(());
    };
    let column = column_with_tags(alloc, column, tags)?;
    if place < columns.len() {
        columns.set(place, column);
    }
    Ok(())
}

fn tag_key(alloc: Global, keys: &mut Items<KeyDef>, place: usize, tags: &Tags) -> Result<(), Memory>
    ensures { OnOk result
        (keys.new ≡ changed keys.old place (λ k. record k { tags = tags.now })) }
{
    let Some(key) = at(keys.as_slice(), place) else {
        return Ok(());
    };
    let key = key_with_tags(alloc, key, tags)?;
    if place < keys.len() {
        keys.set(place, key);
    }
    Ok(())
}

fn tag_link(
    alloc: Global,
    links: &mut Items<LinkDef>,
    place: usize,
    tags: &Tags,
) -> Result<(), Memory>
    ensures { OnOk result
        (links.new ≡ changed links.old place (λ l. record l { tags = tags.now })) }
{
    let Some(link) = at(links.as_slice(), place) else {
        return Ok(());
    };
    let link = link_with_tags(alloc, link, tags)?;
    if place < links.len() {
        links.set(place, link);
    }
    Ok(())
}

fn replace(tags: &mut Tags, by: Tags)
    ensures { tags.new ≡ by }
{
    *tags = by;
}

fn key_at(keys: &[KeyDef], name: &Text) -> Option<usize>
    ensures { result ≡ position (λ k. bytes_eq name.now k.name) keys.now }
{
    keys.iter().position(|key| *name == key.name)
}

fn link_at(links: &[LinkDef], name: &Text) -> Option<usize>
    ensures { result ≡ position (λ l. bytes_eq name.now l.name) links.now }
{
    links.iter().position(|link| *name == link.name)
}

fn key_place(table: &TableDef, name: &Text) -> Option<usize>
    ensures { result ≡ place_of (map (λ k. k.name) table.now.keys) name.now }
{
    key_at(table.keys.as_slice(), name)
}

fn link_place(table: &TableDef, name: &Text) -> Option<usize>
    ensures { result ≡ place_of (map (λ l. l.name) table.now.links) name.now }
{
    link_at(table.links.as_slice(), name)
}

fn tag_constraint(
    alloc: Global,
    table: &mut TableDef,
    name: &Text,
    tags: &Tags,
) -> Result<(), Memory>
    ensures { OnOk result (table.new ≡ with_named_tags tags.now name.now table.old) }
{
    if let Some(place) = key_place(table, name) {
        tag_key(alloc, &mut table.keys, place, tags)?;
        return Ok(());
    }
    if let Some(place) = link_place(table, name) {
        tag_link(alloc, &mut table.links, place, tags)?;
        return Ok(());
    }
    Ok(())
}

impl Growing {
    fn with_enum_tags(self, alloc: Global, name: &Text, tags: &Tags) -> Result<Growing, Memory>
        ensures { IfOk result
            (λ grown. grown ≡ commented_on self (commented.Enum name.now) tags.now) }
    {
        know_tags(tags);
        let Some(place) = self.enum_place(name) else {
            return Ok(self);
        };
        let copy = copy_tags(alloc, tags)?;
        let Growing {
            mut enums,
            tables,
            enum_names,
            table_names,
            column_names,
        } = self;
        replace(&mut enums[place].tags, copy);
        Ok(indexed(enums, tables, enum_names, table_names, column_names))
    }

    fn with_table_tags(self, alloc: Global, name: &Text, tags: &Tags) -> Result<Growing, Memory>
        ensures { IfOk result
            (λ grown. grown ≡ commented_on self (commented.Table name.now) tags.now) }
    {
        know_tags(tags);
        let Some(place) = self.table_place(name) else {
            return Ok(self);
        };
        let copy = copy_tags(alloc, tags)?;
        let Growing {
            enums,
            mut tables,
            enum_names,
            table_names,
            column_names,
        } = self;
        replace(&mut tables[place].tags, copy);
        Ok(indexed(enums, tables, enum_names, table_names, column_names))
    }

    fn with_column_tags(
        self,
        alloc: Global,
        table: &Text,
        name: &Text,
        tags: &Tags,
    ) -> Result<Growing, Memory>
        ensures { IfOk result (λ grown. grown
            ≡ commented_on self (commented.Column table.now name.now) tags.now) }
    {
        know_tags(tags);
        let Some(place) = self.table_place(table) else {
            return Ok(self);
        };
        let column = self.column_place(place, name);
        let Growing {
            enums,
            mut tables,
            enum_names,
            table_names,
            column_names,
        } = self;
        let found = &mut tables[place];
        tag_column(alloc, &mut found.columns, column, tags)?;
        Ok(indexed(enums, tables, enum_names, table_names, column_names))
    }

    fn with_constraint_tags(
        self,
        alloc: Global,
        table: &Text,
        name: &Text,
        tags: &Tags,
    ) -> Result<Growing, Memory>
        ensures { IfOk result (λ grown. grown
            ≡ commented_on self (commented.Constraint table.now name.now) tags.now) }
    {
        know_tags(tags);
        let Some(place) = self.table_place(table) else {
            return Ok(self);
        };
        let Growing {
            enums,
            mut tables,
            enum_names,
            table_names,
            column_names,
        } = self;
        tag_constraint(alloc, &mut tables[place], name, tags)?;
        Ok(indexed(enums, tables, enum_names, table_names, column_names))
    }

    /// The catalog with a comment's tags.
    #[tactic(auto, unfolding(crate::specs::Added::added))]
    pub(crate) fn with_comment(self, alloc: Global, part: &CommentPart) -> Result<Growing, Memory>
        ensures { IfOk result (λ grown. grown ≡ added self (variant.Comment part.now)) }
    {
        let tags = &part.tags;
        match &part.on {
            Commented::Enum(name) => self.with_enum_tags(alloc, name, tags),
            Commented::Table(name) => self.with_table_tags(alloc, name, tags),
            Commented::Column(table, name) => self.with_column_tags(alloc, table, name, tags),
            Commented::Constraint(table, name) => {
                self.with_constraint_tags(alloc, table, name, tags)
            }
        }
    }
}
