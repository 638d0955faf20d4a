//! A catalog with its schema.

ghost use Rattle.std.specs.Prelude.{◌≡◌};
ghost use Rattle.pg_base.specs.Base.{IsBase};

use crate::{Catalog, Schema};
use std::marker::Model;

/// A catalog with its schema, which is `schema_of` the catalog by this type.
#[derive(Drop)]
pub struct Base {
    catalog: Catalog,
    schema: Schema,
}

impl Model for Base {
    ghost use Rattle.pg_base.specs.Base.{BaseParts, IsBase};

    ghost Value = { BaseParts };

    ghost view = { λ base. record { catalog = base.catalog; schema = base.schema } };

    ghost invariant = { λ base. IsBase (record { catalog = base.catalog; schema = base.schema }) };
}

impl Base {
    pub fn of(catalog: Catalog, schema: Schema) -> Base
        requires { IsBase (record { catalog = catalog; schema = schema }) }
        ensures { result ≡ record { catalog = catalog; schema = schema } }
    {
        Base { catalog, schema }
    }

    pub fn catalog(&self) -> &Catalog
        ensures { result.now ≡ self.now.catalog }
    {
        &self.catalog
    }

    pub fn schema(&self) -> &Schema
        ensures { result.now ≡ self.now.schema }
    {
        &self.schema
    }

    /// Tells what the type keeps, and does nothing.
    pub fn know(&self)
        ensures { IsBase self.now }
    {
        let _ = &self.schema;
    }
}
