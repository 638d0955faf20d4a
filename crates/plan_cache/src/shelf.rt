//! The shelf.

ghost use Rattle.std.specs.Prelude.{◌≡◌, [], ◌∷◌, ◌++◌, List, option_map, IfOk, IfSome};
ghost use Rattle.std.specs.Arc.{arc_value};
ghost use Rattle.plan_cache.specs.Shelf as spec;

use crate::filed::Filed;
use crate::kept::Kept;
use crate::key::ShelfKey;
use circular_buffer::HeapCircularBuffer;
use pg_base::{Base, Memory, Text, Vars};
use std::alloc::Global;
use std::marker::Model;
use std::sync::Arc;

/// How many plans serve at most.
const MOST_LIVE: usize = 64;

/// The plans of a base that serve, oldest first. Contracts see it as the base and these plans.
#[derive(Drop)]
pub struct Shelf<E: Filed + Drop> {
    base: Arc<Base>,
    kept: HeapCircularBuffer<Kept<E>>,
}

impl<E: Filed + Drop> Model for Shelf<E> {
    ghost use Rattle.std.specs.Prelude.{◌≡◌, map};
    ghost use Rattle.std.specs.Arc.{arc_value};
    ghost use Rattle.std.specs.Coded.{codes};
    ghost use Rattle.pg_base.specs.Lists.{Each};
    ghost use Rattle.plan_cache.specs.Shelf.{Shelved, shelved, shelved_code, key_of, most_live};

    ghost Value = { Shelved E };

    ghost coded = { shelved_code (Prim.hlevel codes) E.code };

    ghost view = { λ s. shelved (arc_value s.base) (map (λ k. arc_value k.entry) s.kept.items) };

    ghost invariant = { λ s. (s.kept.capacity ≡ most_live) × Each (λ k.
        (E.base (arc_value k.entry) ≡ arc_value s.base)
        × (key_of k.key.text k.key.operation k.key.constraints
        ≡ key_of (E.text (arc_value k.entry)) (E.operation (arc_value k.entry))
        (E.constraints (arc_value k.entry)))) s.kept.items };
}

/// The oldest that answers.
fn find_kept<'a, E: Filed + Drop>(
    kept: &'a HeapCircularBuffer<Kept<E>>,
    text: &[u8],
    operation: Option<&Text>,
    vars: &Vars,
) -> Option<&'a Kept<E>>
    ensures { spec.IsOldest (λ k. spec.key_of k.key.text k.key.operation k.key.constraints)
        (spec.asked_for text.now (option_map (λ name. name.now) operation.entry) vars.now)
        kept.now.items (option_map (λ k. k.now) result) }
{
    for one in kept.iter() {
        if one.key.answers(text, operation, vars) {
            return Some(one);
        }
    }
    None
}

impl<E: Filed + Drop> Shelf<E> {
    /// An empty shelf for plans of this base, with room for all that may serve.
    ///
    /// # Errors
    /// Out of memory.
    pub fn make(alloc: Global, base: Arc<Base>) -> Result<Shelf<E>, Memory>
        ensures { IfOk result (λ shelf. shelf ≡ spec.shelved (arc_value base) []) }
    {
        let kept = HeapCircularBuffer::with_capacity(alloc, MOST_LIVE)?;
        Ok(Shelf { base, kept })
    }

    /// The oldest plan that serves, with this text, this name of an operation, and constraints that hold of the
    /// variables; None exactly where there is none.
    ///
    /// # Errors
    /// Out of memory, where one more owner of the plan can't be made.
    pub fn look(
        &self,
        text: &[u8],
        operation: Option<&Text>,
        vars: &Vars,
    ) -> Result<Option<Arc<E>>, Memory>
        // Whatever was ever entered, of which the shelf has the last.
        ensures look { (history : List E) → spec.Shows self.now history
            → IfOk result (λ found. spec.Look
            (λ e. spec.key_of (E.text e) (E.operation e) (E.constraints e))
            (spec.asked_for text.now (option_map (λ name. name.now) operation.entry) vars.now)
            history (option_map arc_value found)) }
        // The same of the plans that serve.
        ensures oldest { IfOk result (λ found. spec.IsOldest
            (λ e. spec.key_of (E.text e) (E.operation e) (E.constraints e))
            (spec.asked_for text.now (option_map (λ name. name.now) operation.entry) vars.now)
            self.now.entries (option_map arc_value found)) }
        // What is found is a plan of the shelf's base.
        ensures base { IfOk result (λ found. IfSome found
            (λ e. E.base (arc_value e) ≡ self.now.base)) }
    {
        match find_kept(&self.kept, text, operation, vars) {
            None => Ok(None),
            Some(one) => {
                let entry = Arc::try_clone(&one.entry)?;
                Ok(Some(entry))
            }
        }
    }

    /// Enters a plan. The oldest of 64 goes.
    pub fn enter(&mut self, key: ShelfKey, entry: Arc<E>)
        requires base { E.base (arc_value entry) ≡ self.old.base }
        requires text { E.text (arc_value entry) ≡ key.text }
        requires operation { E.operation (arc_value entry) ≡ key.operation }
        requires constraints { E.constraints (arc_value entry) ≡ key.constraints }
        // Whatever was ever entered before.
        ensures enter { (before after : List E) → spec.Shows self.old before
            → spec.Enter (arc_value entry) before after → spec.Shows self.new after }
        ensures base { self.new.base ≡ self.old.base }
    {
        let _oldest = self.kept.push_back(Kept { key, entry });
    }
}
