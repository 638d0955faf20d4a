//! The catalog of parts.

ghost use Rattle.pg_catalog.specs.Built.{Answers, step, catalog_of};
ghost use Rattle.pg_catalog.specs.declared.part.Part.TheVariants as variant;

use crate::constraints::{key_name, link_name};
use crate::growing::Growing;
use crate::{BuildError, CommentPart, EnumPart, KeyPart, LinkPart, Part, TablePart};
use pg_base::Catalog;
use std::alloc::Global;

impl Growing {
    fn add_enum(self, alloc: Global, part: &EnumPart) -> Result<Growing, BuildError>
        ensures { Answers (step self (variant.Enum part.now)) result }
    {
        self.check_enum(alloc, part)?;
        let grown = self.with_enum(alloc, part)?;
        Ok(grown)
    }

    fn add_table(self, alloc: Global, part: &TablePart) -> Result<Growing, BuildError>
        ensures { Answers (step self (variant.Table part.now)) result }
    {
        self.check_table(alloc, part)?;
        let grown = self.with_table(alloc, part)?;
        Ok(grown)
    }

    fn add_key(self, alloc: Global, part: &KeyPart) -> Result<Growing, BuildError>
        ensures { Answers (step self (variant.Key part.now)) result }
    {
        let name = key_name(alloc, part)?;
        self.check_key(alloc, part, &name)?;
        let grown = self.with_key(alloc, part, name)?;
        Ok(grown)
    }

    fn add_link(self, alloc: Global, part: &LinkPart) -> Result<Growing, BuildError>
        ensures { Answers (step self (variant.Link part.now)) result }
    {
        let name = link_name(alloc, part)?;
        self.check_link(alloc, part, &name)?;
        let grown = self.with_link(alloc, part, name)?;
        Ok(grown)
    }

    fn add_comment(self, alloc: Global, part: &CommentPart) -> Result<Growing, BuildError>
        ensures { Answers (step self (variant.Comment part.now)) result }
    {
        let grown = self.with_comment(alloc, part)?;
        Ok(grown)
    }

    /// The catalog with one part more. A name that is taken is a fault, and IF NOT EXISTS has no say here; a comment on
    /// what doesn't stand changes nothing.
    ///
    /// # Errors
    /// The part's fault of the least number, or out of memory.
    pub fn add(self, alloc: Global, part: &Part) -> Result<Growing, BuildError>
        ensures { Answers (step self part.now) result }
    {
        match part {
            Part::Enum(made) => self.add_enum(alloc, made),
            Part::Table(made) => self.add_table(alloc, made),
            Part::Key(made) => self.add_key(alloc, made),
            Part::Link(made) => self.add_link(alloc, made),
            Part::Comment(made) => self.add_comment(alloc, made),
        }
    }
}

/// The catalog of the parts, each added in turn.
///
/// # Errors
/// The fault of the first part that has one, of the least number that it has, or out of memory.
pub fn build(alloc: Global, parts: &[Part]) -> Result<Catalog, BuildError>
    ensures { Answers (catalog_of parts.now) result }
{
    let mut growing = Growing::new(alloc);
    for part in parts {
        growing = growing.add(alloc, part)?;
    }
    Ok(growing.finish())
}
