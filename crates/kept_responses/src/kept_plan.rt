//! Plans that are kept.

ghost use Rattle.std.specs.Prelude.{◌≡◌, IfOk, option_map};
ghost use Rattle.plan_cache.specs.Shelf.{key_of};
ghost use Rattle.kept_responses.specs.Kept.{kept_parts, Fits};

use crate::copying::{copy_constraints, copy_text};
use batch_execute::ReadyEntry;
use pg_base::{Blob, Memory, Text};
use plan_cache::{Filed, ShelfKey};
use std::alloc::Global;
use std::marker::Model;

/// A plan that is ready to be run, with the text of the document and the name of the operation that it was made for. It
/// fits them: with all variables that meet its constraints that operation asks for the plan's tree. There is no kept plan
/// that doesn't.
#[derive(Drop)]
pub struct KeptPlan {
    text: Blob,
    operation: Option<Text>,
    ready: ReadyEntry,
}

impl Model for KeptPlan {
    ghost use Rattle.std.specs.Coded.{codes};
    ghost use Rattle.batch_execute.specs.contracts.ready.ReadyEntry as ready_entry;
    ghost use Rattle.kept_responses.specs.Kept.{KeptParts, kept_parts, Fits};

    ghost Value = { KeptParts };

    ghost coded = { Prim.hlevel (codes, ready_entry.the_row.coded) };

    ghost view = { λ k. kept_parts k.text k.operation k.ready };

    ghost invariant = { λ k. Fits (kept_parts k.text k.operation k.ready) };
}

impl Filed for KeptPlan {
    ghost base = { λ k. k.planned.base };

    ghost text = { λ k. k.text };

    ghost operation = { λ k. k.operation };

    ghost constraints = { λ k. k.planned.constraints };
}

fn copy_name(alloc: Global, name: Option<&Text>) -> Result<Option<Text>, Memory>
    ensures { IfOk result (λ copy. copy ≡ option_map (λ n. n.now) name.entry) }
{
    match name {
        None => Ok(None),
        Some(name) => {
            let copy = name.copy(alloc)?;
            Ok(Some(copy))
        }
    }
}

impl KeptPlan {
    /// A plan for the text of a document and the name of an operation, which are copied.
    ///
    /// # Errors
    /// Out of memory.
    pub fn of(
        alloc: Global,
        text: &[u8],
        operation: Option<&Text>,
        ready: ReadyEntry,
    ) -> Result<KeptPlan, Memory>
        requires { Fits (kept_parts text.now (option_map (λ n. n.now) operation) ready) }
        ensures { IfOk result (λ kept. kept
            ≡ kept_parts text.now (option_map (λ n. n.now) operation.entry) ready) }
    {
        let text = copy_text(alloc, text)?;
        let operation = copy_name(alloc, operation)?;
        Ok(KeptPlan {
            text,
            operation,
            ready,
        })
    }

    /// Tells what the type keeps, and does nothing.
    pub fn know(&self)
        ensures { Fits self.now }
    {
        let _ = &self.ready;
    }

    pub fn ready(&self) -> &ReadyEntry
        ensures { result.now ≡ self.now.planned }
    {
        &self.ready
    }

    /// What it is kept under, as a copy.
    ///
    /// # Errors
    /// Out of memory.
    pub fn key(&self, alloc: Global) -> Result<ShelfKey, Memory>
        ensures { IfOk result (λ key. key_of key.text key.operation key.constraints
            ≡ key_of self.now.text self.now.operation self.now.planned.constraints) }
    {
        let text = copy_text(alloc, self.text.bytes())?;
        let operation = copy_name(alloc, self.operation.as_ref())?;
        let constraints = copy_constraints(alloc, self.ready.entry().constraints())?;
        Ok(ShelfKey {
            text,
            operation,
            constraints,
        })
    }
}
