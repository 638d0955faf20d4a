//! Laws of the definitions: functions that do nothing, each with a law as its contract.

ghost use Rattle.std.specs.Prelude.{◌≡◌, List, Ok, None};
ghost use Rattle.pg_base.specs.Lists.{Each};
ghost use Rattle.pg_base.specs.Catalog.{CatalogParts, IsValidCatalog};
ghost use Rattle.pg_catalog.specs.declared.part.Part.{Part};
ghost use Rattle.pg_catalog.specs.Faults.{fault_of};
ghost use Rattle.pg_catalog.specs.Added.{added};
ghost use Rattle.pg_catalog.specs.Built.{catalog_of};
ghost use Rattle.pg_catalog.specs.Texts.{HasTexts};

/// What a part without a fault makes of a valid catalog is valid.
pub fn added_is_valid()
    ensures { (c : CatalogParts) (p : Part) → IsValidCatalog c → HasTexts p
        → fault_of c p ≡ None → IsValidCatalog (added c p) }
{}

/// The catalog of parts is valid.
pub fn catalog_is_valid()
    ensures { (parts : List Part) (c : CatalogParts) → Each HasTexts parts
        → catalog_of parts ≡ Ok c → IsValidCatalog c }
{}
