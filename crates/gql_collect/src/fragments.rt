//! The fragments of a document, by their names.

ghost use Rattle.std.specs.Prelude.{◌≡◌, ◌∷◌, [], ℕ, List, IfOk, OnOk, length, option_map};
ghost use Rattle.gql_collect.specs.Fragments.{found, found_or};
ghost use Rattle.gql_collect.specs.Collected.{fragment_in};

use gql_reader::{Definition, FragmentDefinition};
use indexmap::IndexMap;
use pg_base::{Memory, Text};
use std::alloc::Global;
use std::marker::Model;

/// The fragments of a document, which contracts see as its definitions. Of several with one name the first counts.
#[derive(Drop)]
pub(crate) struct Fragments<'a> {
    definitions: &'a [Definition],
    by_name: IndexMap<Text, &'a FragmentDefinition>,
}

impl<'a> Model for Fragments<'a> {
    ghost use Rattle.std.specs.Prelude.{◌≡◌, ℕ, List, option_map};
    ghost use Rattle.std.specs.Str.{bytes_eq};
    ghost use Rattle.indexmap.specs.IndexMap.{get};
    ghost use Rattle.gql_reader.specs.declared.tree.Definition.{Definition};
    ghost use Rattle.gql_collect.specs.Collected.{fragment_in};
    ghost use Rattle.std.specs.Coded.{codes};
    ghost use Rattle.gql_reader.specs.contracts.tree.Type as ref;
    ghost use Rattle.gql_reader.specs.contracts.tree.Selection as selection;
    ghost use Rattle.gql_reader.specs.contracts.tree.ValueKind as kind;

    ghost Value = { List Definition };

    ghost coded = { Prim.hlevel
        (codes, ref.the_row.coded, selection.the_row.coded, kind.the_row.coded) };

    ghost view = { λ f. f.definitions.now };

    ghost invariant = { λ f. (name : List ℕ) → option_map (λ d. d.now) (get bytes_eq f.by_name name)
        ≡ fragment_in f.definitions.now name };
}

impl<'a> Fragments<'a> {
    pub fn of(alloc: Global, definitions: &'a [Definition]) -> Result<Fragments<'a>, Memory>
        ensures { IfOk result (λ f. f ≡ definitions.now) }
    {
        let mut by_name = IndexMap::new(alloc);
        for definition in definitions {
            add_fragment(alloc, &mut by_name, definition)?;
        }
        Ok(Fragments {
            definitions,
            by_name,
        })
    }

    /// How many definitions there are, and so at most fragments.
    pub fn count(&self) -> usize
        ensures { result ≡ length self.now }
    {
        self.definitions.len()
    }

    /// The first fragment with the name.
    pub fn named(&self, name: &Text) -> Option<&'a FragmentDefinition>
        ensures { option_map (λ f. f.now) result ≡ fragment_in self.now name.now }
    {
        let _definitions = self.definitions;
        self.by_name.get(name).copied()
    }
}

fn add_fragment<'a>(
    alloc: Global,
    by_name: &mut IndexMap<Text, &'a FragmentDefinition>,
    definition: &'a Definition,
) -> Result<(), Memory>
    ensures { OnOk result ((name : List ℕ) → found by_name.new name
        ≡ found_or by_name.old name (fragment_in (definition.now ∷ []) name)) }
{
    if let Definition::Fragment(fragment) = definition {
        if !by_name.contains_key(&fragment.name) {
            by_name.insert(fragment.name.copy(alloc)?, fragment)?;
        }
    }
    Ok(())
}
