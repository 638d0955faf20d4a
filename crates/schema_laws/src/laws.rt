//! Laws of schemas: functions that do nothing, each with a law as its contract.

ghost use Rattle.std.specs.Prelude.{◌≡◌, ℕ, None, Some, slice_get, IfSome};
ghost use Rattle.name_rules.specs.Names.{enum_case_of};
ghost use Rattle.pg_base.specs.declared.table_def.TableDef.{TableDef};
ghost use Rattle.pg_base.specs.Lists.{Each};
ghost use Rattle.pg_base.specs.Catalog.{IsValidCatalog};
ghost use Rattle.pg_base.specs.EnumCases.{case_of_label};
ghost use Rattle.pg_base.specs.Schema.{IsValidSchema};
ghost use Rattle.pg_base.specs.SchemaOf.{schema_of};
ghost use Rattle.pg_base.specs.SchemaFaults.{build_fault};
ghost use Rattle.schema_laws.specs.Examples.{valid_catalogs, invalid_catalogs};
ghost use Rattle.schema_laws.specs.Leads.{AreKinds, OfMutation, kinds_of, base_of};
ghost use Rattle.schema_laws.specs.Named.{AreNamed};
ghost use Rattle.schema_laws.specs.Ordered.{HasOrders, HasInputs};
ghost use Rattle.schema_laws.specs.Shapes.{HaveShapes};
ghost use Rattle.schema_laws.specs.Texts.{IsTextType};
ghost use Rattle.schema_laws.specs.WorkedFaults.{all_faulty};
ghost use Rattle.schema_laws.specs.WorkedSchemas.{all_worked, IsWorked};

use pg_base::Catalog;

/// The case of a label by its bytes is the one that its characters give.
pub fn case_is_by_characters(label: &str)
    ensures { case_of_label label.now ≡ enum_case_of label.now }
{}

/// Where the schema of a catalog has no fault, its names are names of GraphQL, and no two that stand in one place are
/// equal.
pub fn names_are_distinct(catalog: &Catalog)
    requires { build_fault catalog.now ≡ None }
    ensures { AreNamed (schema_of catalog.now).types }
{}

/// The cases of a table's order, and the fields of its condition, input and patch, stand for its columns in their
/// order, and have their types.
pub fn names_stand_for_columns(catalog: &Catalog)
    ensures orders { (table : ℕ) (t : TableDef)
        → slice_get catalog.now.tables table ≡ Some t → HasOrders catalog.now table t }
    ensures inputs { (table : ℕ) (t : TableDef)
        → slice_get catalog.now.tables table ≡ Some t → HasInputs catalog.now table t }
{}

/// The schema of a valid catalog is valid. Each of its fields belongs to its type, its own type is of the kind to which
/// it leads, and what it does tells its type and arguments.
pub fn fields_lead_to_their_types(catalog: &Catalog)
    ensures valid { IsValidSchema (schema_of catalog.now) }
    ensures kinds { AreKinds (base_of catalog.now) (kinds_of catalog.now) }
    ensures mutation { IfSome (schema_of catalog.now).mutation
        (λ ty. kinds_of catalog.now ty ≡ OfMutation) }
    ensures shapes { HaveShapes catalog.now }
{
    catalog.know();
}

/// Examples of catalogs that are valid, and of others that aren't.
pub fn example_catalogs()
    ensures valid { Each IsValidCatalog valid_catalogs }
    ensures invalid { Each (λ c. IsValidCatalog c → ⊥) invalid_catalogs }
{}

/// Examples of catalogs with their schemas, which have no fault.
pub fn example_schemas()
    ensures { Each IsWorked all_worked }
{}

/// Examples of catalogs without a schema, each with the first fault that is found.
pub fn example_faults()
    ensures { Each (λ w. build_fault w.catalog ≡ Some w.fault) all_faulty }
{}

/// All that is named and said in the schema of a valid catalog is UTF-8.
pub fn names_are_text(catalog: &Catalog)
    ensures { Each IsTextType (schema_of catalog.now).types }
{
    catalog.know();
}
