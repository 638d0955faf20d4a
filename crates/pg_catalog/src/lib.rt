//! Catalogs, built part after part.
#![tactic(auto)]

mod additions;
mod building;
mod checks;
mod columns;
mod comments;
mod constraints;
mod copies;
mod fault;
mod growing;
pub mod laws;
mod names;
mod part;
mod texts;

pub use building::build;
pub use fault::{BuildError, CatalogFault};
pub use growing::Growing;
pub use part::{
    ColumnPart, CommentPart, Commented, EnumPart, KeyPart, LinkPart, Literal, Part, TablePart,
};
