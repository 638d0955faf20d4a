//! The faults of a part in the catalog so far, number by number.

ghost use Rattle.std.specs.Prelude.{◌≡◌, ◌∷◌, map, find, IfOk};
ghost use Rattle.std.specs.List.{list_any};
ghost use Rattle.std.specs.Option.{option_copied, option_or};
ghost use Rattle.std.specs.Str.{bytes_eq};
ghost use Rattle.pg_base.specs.Catalog.{constraint_names};
ghost use Rattle.pg_catalog.specs.Names.{is_long, stands, first_double, places_of, column_names};
ghost use Rattle.pg_catalog.specs.Added.{is_target};
ghost use Rattle.pg_catalog.specs.Built.{Tells};
ghost use Rattle.pg_catalog.specs.declared.part.Commented.TheVariants as commented;
ghost use Rattle.pg_catalog.specs.Constraints.{key_name, link_name};
ghost use Rattle.pg_catalog.specs.Faults as spec;
ghost use Rattle.pg_catalog.specs.declared.part.Part.TheVariants as variant;
ghost use Rattle.pg_catalog.specs.declared.part.LinkPart.{LinkPart};

use crate::columns::{first_unsound, names_of};
use crate::constraints::{are_comparable, are_key};
use crate::fault::{
    DOUBLE_COLUMN, DOUBLE_CONSTRAINT, DOUBLE_NAME, LIMIT, LONG_NAME, NO_KEY, TWO_PRIMARY_KEYS,
    TYPES_DIFFER, UNKNOWN_COLUMN, UNKNOWN_TABLE,
};
use crate::growing::Growing;
use crate::names::{first_double, is_long, when};
use crate::{
    BuildError, CatalogFault, ColumnPart, Commented, EnumPart, KeyPart, LinkPart, TablePart,
};
use pg_base::limits::{
    MOST_CASES, MOST_COLUMNS, MOST_CONSTRAINTS, MOST_ENUMS, MOST_KEY_COLUMNS, MOST_TABLES,
};
use pg_base::{Memory, Pos, TableDef, Text};
use sqlite_items::Items;
use std::alloc::Global;

/// The fault of this number at the name, if there is one.
fn refuse(alloc: Global, pos: Pos, which: u8, found: Option<&Text>) -> Result<(), BuildError>
    ensures { Tells (spec.else_next pos which (option_copied found.entry) None) result }
{
    let Some(name) = found else {
        return Ok(());
    };
    let name = name.copy(alloc)?;
    Err(BuildError::Fault(CatalogFault { which, pos, name }))
}

fn has_key(table: &TableDef, name: &Text) -> bool
    ensures { result ≡ list_any (λ k. bytes_eq name.now k.name) table.now.keys }
{
    table.keys.as_slice().iter().any(|key| *name == key.name)
}

fn has_link(table: &TableDef, name: &Text) -> bool
    ensures { result ≡ list_any (λ l. bytes_eq name.now l.name) table.now.links }
{
    table.links.as_slice().iter().any(|link| *name == link.name)
}

#[tactic(auto, using(crate::proofs::ConstraintNames::stands_in_constraints))]
fn has_constraint(table: &TableDef, name: &Text) -> bool
    ensures { result ≡ stands (constraint_names table.now) name.now }
{
    has_key(table, name) || has_link(table, name)
}

fn has_primary(table: &TableDef) -> bool
    ensures { result ≡ list_any (λ key. key.primary) table.now.keys }
{
    table.keys.as_slice().iter().any(|key| key.primary)
}

fn is_second(primary: bool, table: &TableDef) -> bool
    ensures { result ≡ spec.is_second primary table.now }
{
    primary && has_primary(table)
}

fn is_past_constraints(table: &TableDef, columns: &[Text]) -> bool
    ensures { result ≡ spec.is_past_constraints table.now columns.now }
{
    let keys = table.keys.len();
    if keys >= MOST_CONSTRAINTS {
        return true;
    }
    table.links.len() >= MOST_CONSTRAINTS - keys || columns.len() > MOST_KEY_COLUMNS
}

/// Whether the places are as many as the columns, and those of a key.
fn meets_key(count: usize, target: &TableDef, places: &Option<Items<u32>>) -> bool
    ensures { result ≡ spec.meets_key count target.now places.now }
{
    let Some(places) = places else {
        return false;
    };
    count == places.len() && are_key(target, places.as_slice())
}

/// Whether each of a link's columns has the kind of its target.
fn meets_kinds(
    table: &TableDef,
    target: &TableDef,
    columns: &[u32],
    places: &Option<Items<u32>>,
) -> bool
    ensures { (l : LinkPart) → columns.now ≡ places_of (column_names table.now) l.columns
        → result ≡ spec.meets_kinds table.now target.now l places.now }
{
    let Some(places) = places else {
        return false;
    };
    are_comparable(table, target, columns, places.as_slice())
}

/// The first column that a link names twice, of its own or of the target.
fn double_of_link(alloc: Global, part: &LinkPart) -> Result<Option<&Text>, Memory>
    ensures { IfOk result (λ found. option_copied found
        ≡ option_or (first_double part.now.columns) (spec.double_in part.now.target_columns)) }
{
    if let Some(name) = first_double(alloc, part.columns.as_slice())? {
        return Ok(Some(name));
    }
    match &part.target_columns {
        None => Ok(None),
        Some(columns) => first_double(alloc, columns.as_slice()),
    }
}

/// The first name that is too long, of the table or of a column.
fn first_long<'a>(name: &'a Text, columns: &'a [ColumnPart]) -> Option<&'a Text>
    ensures { option_copied result
        ≡ find is_long (name.now ∷ map (λ column. column.name) columns.now) }
{
    if is_long(name) {
        return Some(name);
    }
    first_long_column(columns)
}

fn first_long_column(columns: &[ColumnPart]) -> Option<&Text>
    ensures { option_copied result ≡ find is_long (map (λ column. column.name) columns.now) }
{
    for column in columns {
        if is_long(&column.name) {
            return Some(&column.name);
        }
    }
    None
}

impl Growing {
    #[tactic(auto, unfolding(crate::specs::Faults::fault_of))]
    pub(crate) fn check_enum(&self, alloc: Global, part: &EnumPart) -> Result<(), BuildError>
        ensures { Tells (spec.fault_of self.now (variant.Enum part.now)) result }
    {
        let pos = part.pos;
        let name = &part.name;
        refuse(alloc, pos, DOUBLE_NAME, when(self.has_name(name), name))?;
        refuse(alloc, pos, LONG_NAME, when(is_long(name), name))?;
        refuse(alloc, pos, LIMIT, when(self.is_past_enums(part), name))
    }

    fn is_past_enums(&self, part: &EnumPart) -> bool
        ensures { result ≡ spec.is_past_enums self.now part.now }
    {
        self.enums().len() >= MOST_ENUMS || part.cases.len() > MOST_CASES
    }

    #[tactic(auto, unfolding(crate::specs::Faults::fault_of))]
    fn check_columns(
        &self,
        alloc: Global,
        part: &TablePart,
        columns: &[Text],
    ) -> Result<(), BuildError>
        requires { columns.now ≡ map (λ column. column.name) part.now.columns }
        ensures { Tells (spec.fault_of self.now (variant.Table part.now)) result }
    {
        let pos = part.pos;
        let name = &part.name;
        let parts = part.columns.as_slice();
        refuse(alloc, pos, DOUBLE_NAME, when(self.has_name(name), name))?;
        refuse(alloc, pos, DOUBLE_COLUMN, first_double(alloc, columns)?)?;
        self.know();
        refuse(
            alloc,
            pos,
            TYPES_DIFFER,
            first_unsound(alloc, self.enums(), parts)?,
        )?;
        refuse(alloc, pos, LONG_NAME, first_long(name, parts))?;
        refuse(alloc, pos, LIMIT, when(self.is_past_tables(part), name))
    }

    pub(crate) fn check_table(&self, alloc: Global, part: &TablePart) -> Result<(), BuildError>
        ensures { Tells (spec.fault_of self.now (variant.Table part.now)) result }
    {
        let columns = names_of(alloc, part.columns.as_slice())?;
        self.check_columns(alloc, part, columns.as_slice())
    }

    fn is_past_tables(&self, part: &TablePart) -> bool
        ensures { result ≡ spec.is_past_tables self.now part.now }
    {
        self.tables().len() >= MOST_TABLES || part.columns.len() > MOST_COLUMNS
    }

    #[tactic(auto, unfolding(crate::specs::Faults::fault_of))]
    pub(crate) fn check_key(
        &self,
        alloc: Global,
        part: &KeyPart,
        name: &Text,
    ) -> Result<(), BuildError>
        requires { name.now ≡ key_name part.now }
        ensures { Tells (spec.fault_of self.now (variant.Key part.now)) result }
    {
        let pos = part.pos;
        let table = &part.table;
        let columns = part.columns.as_slice();
        refuse(alloc, pos, DOUBLE_COLUMN, first_double(alloc, columns)?)?;
        refuse(alloc, pos, UNKNOWN_TABLE, self.unknown(table))?;
        refuse(alloc, pos, UNKNOWN_COLUMN, self.unknown_of(table, columns))?;
        refuse(alloc, pos, TWO_PRIMARY_KEYS, self.second_primary(part))?;
        refuse(alloc, pos, DOUBLE_CONSTRAINT, self.clash(table, name))?;
        refuse(alloc, pos, LONG_NAME, when(is_long(name), name))?;
        refuse(alloc, pos, LIMIT, self.past_constraints(table, columns))
    }

    #[tactic(auto, unfolding(crate::specs::Faults::fault_of))]
    pub(crate) fn check_link(
        &self,
        alloc: Global,
        part: &LinkPart,
        name: &Text,
    ) -> Result<(), BuildError>
        requires { name.now ≡ link_name part.now }
        ensures { Tells (spec.fault_of self.now (variant.Link part.now)) result }
    {
        let pos = part.pos;
        let columns = part.columns.as_slice();
        refuse(alloc, pos, DOUBLE_COLUMN, double_of_link(alloc, part)?)?;
        refuse(alloc, pos, UNKNOWN_TABLE, self.unknown_of_link(part))?;
        refuse(
            alloc,
            pos,
            UNKNOWN_COLUMN,
            self.unknown_column_of_link(part),
        )?;
        refuse(alloc, pos, NO_KEY, self.no_key(alloc, part, name)?)?;
        refuse(
            alloc,
            pos,
            TYPES_DIFFER,
            self.other_kinds(alloc, part, name)?,
        )?;
        refuse(alloc, pos, DOUBLE_CONSTRAINT, self.clash(&part.table, name))?;
        refuse(alloc, pos, LONG_NAME, when(is_long(name), name))?;
        refuse(
            alloc,
            pos,
            LIMIT,
            self.past_constraints(&part.table, columns),
        )
    }

    /// Whether no table has the name.
    fn unknown<'a>(&self, name: &'a Text) -> Option<&'a Text>
        ensures { option_copied result ≡ spec.unknown self.now name.now }
    {
        when(self.table(name).is_none(), name)
    }

    fn unknown_of_link<'a>(&self, part: &'a LinkPart) -> Option<&'a Text>
        ensures { option_copied result ≡ spec.unknown_table self.now (variant.Link part.now) }
    {
        if let Some(name) = self.unknown(&part.table) {
            return Some(name);
        }
        self.unknown(&part.target)
    }

    /// The first of the columns that the table of the name hasn't.
    fn unknown_of<'a>(&self, table: &Text, columns: &'a [Text]) -> Option<&'a Text>
        ensures { option_copied result ≡ spec.unknown_of self.now table.now columns.now }
    {
        let names = self.columns(table)?;
        names.first_missing(columns)
    }

    fn unknown_column_of_link<'a>(&self, part: &'a LinkPart) -> Option<&'a Text>
        ensures { option_copied result ≡ spec.unknown_column self.now (variant.Link part.now) }
    {
        if let Some(name) = self.unknown_of(&part.table, part.columns.as_slice()) {
            return Some(name);
        }
        match &part.target_columns {
            None => None,
            Some(columns) => self.unknown_of(&part.target, columns.as_slice()),
        }
    }

    fn second_primary<'a>(&self, part: &'a KeyPart) -> Option<&'a Text>
        ensures { option_copied result ≡ spec.second_primary self.now (variant.Key part.now) }
    {
        let table = self.table(&part.table)?;
        when(is_second(part.primary, table), &part.table)
    }

    fn clash<'a>(&self, table: &Text, name: &'a Text) -> Option<&'a Text>
        ensures { option_copied result ≡ spec.clash self.now table.now name.now }
    {
        let table = self.table(table)?;
        when(has_constraint(table, name), name)
    }

    fn past_constraints<'a>(&self, table: &'a Text, columns: &[Text]) -> Option<&'a Text>
        ensures { option_copied result ≡ spec.past_constraints self.now table.now columns.now }
    {
        let found = self.table(table)?;
        when(is_past_constraints(found, columns), table)
    }

    fn no_key<'a>(
        &self,
        alloc: Global,
        part: &LinkPart,
        name: &'a Text,
    ) -> Result<Option<&'a Text>, Memory>
        requires { name.now ≡ link_name part.now }
        ensures { IfOk result
            (λ found. option_copied found ≡ spec.no_key self.now (variant.Link part.now)) }
    {
        let Some(target) = self.table(&part.target) else {
            return Ok(None);
        };
        let places = self.target_places(alloc, part)?;
        Ok(when(!meets_key(part.columns.len(), target, &places), name))
    }

    fn other_kinds<'a>(
        &self,
        alloc: Global,
        part: &LinkPart,
        name: &'a Text,
    ) -> Result<Option<&'a Text>, Memory>
        requires { name.now ≡ link_name part.now }
        ensures { IfOk result
            (λ found. option_copied found ≡ spec.bad_type self.now (variant.Link part.now)) }
    {
        let Some(table) = self.table(&part.table) else {
            return Ok(None);
        };
        let Some(target) = self.table(&part.target) else {
            return Ok(None);
        };
        let Some(columns) = self.places_in(alloc, &part.table, part.columns.as_slice())? else {
            return Ok(None);
        };
        let places = self.target_places(alloc, part)?;
        Ok(when(
            !meets_kinds(table, target, columns.as_slice(), &places),
            name,
        ))
    }

    /// Whether what a comment speaks of stands.
    pub fn has_target(&self, on: &Commented) -> bool
        ensures { result ≡ is_target self.now on.now }
    {
        match on {
            Commented::Enum(name) => self.has_enum(name),
            Commented::Table(name) => self.has_table(name),
            Commented::Column(table, name) => self.has_column(table, name),
            Commented::Constraint(table, name) => self.has_named_constraint(table, name),
        }
    }

    fn has_column(&self, table: &Text, name: &Text) -> bool
        ensures { result ≡ is_target self.now (commented.Column table.now name.now) }
    {
        match self.columns(table) {
            Some(names) => names.has(name),
            None => false,
        }
    }

    fn has_named_constraint(&self, table: &Text, name: &Text) -> bool
        ensures { result ≡ is_target self.now (commented.Constraint table.now name.now) }
    {
        match self.table(table) {
            Some(table) => has_constraint(table, name),
            None => false,
        }
    }
}
