//! One answer: what a script and a pair of files give is one value. The bodies are empty; the contracts are the laws.

ghost use Rattle.std.specs.Prelude.{◌≡◌, ℕ, List};
ghost use Rattle.pg_base.specs.Base.{BaseParts};
ghost use Rattle.rel_model.specs.declared.tables.Tables.{Tables};
ghost use Rattle.request_core.specs.Load.{Loads, IsLoadFault};
ghost use Rattle.request_core.specs.declared.loading.LoadFault.{LoadFault};
ghost use Rattle.request_core.specs.Request.{Request};
ghost use Rattle.graphile_prog.specs.Commands.{IsResponse};

/// A script gives one catalog, with its schema, and one table set.
pub fn script_gives_one_catalog()
    ensures { (script : List ℕ) (base other : BaseParts) (tables more : Tables)
        → Loads script base tables
        → Loads script other more
        → (base ≡ other) × (tables ≡ more) }
{}

/// A script that gives something has no fault.
pub fn script_has_no_fault()
    ensures { (script : List ℕ) (base : BaseParts) (tables : Tables) (fault : LoadFault)
        → Loads script base tables
        → IsLoadFault script fault
        → ⊥ }
{}

/// A script and a request have one response.
pub fn files_have_one_response()
    ensures { (script text other : List ℕ) (request : Request)
        → IsResponse text script request
        → IsResponse other script request
        → text ≡ other }
{}
