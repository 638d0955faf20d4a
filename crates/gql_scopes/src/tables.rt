//! What is gathered from the nodes once.

ghost use Rattle.std.specs.Prelude.{◌≡◌, ◌≤◌, ◌<◌, ◌==◌, ◌++◌, [], ◌∷◌, ℕ, List, length, if◌then◌else◌, IsTrue, IfOk, IfErr, IfSome, OnOk, Some, slice_get, option_map};
ghost use Rattle.pg_base.specs.Lists.{Each};
ghost use Rattle.gql_nodes.specs.Listed.{at_view, views};
ghost use Rattle.gql_nodes.specs.declared.fault.RuleError.TheVariants.{Memory as RuleMemory};
ghost use Rattle.gql_nodes.specs.Names.{is_among, with_name, place_in, first_of};
ghost use Rattle.gql_reader.specs.declared.tree.Definition.{Definition as DefinitionParts};
ghost use Rattle.gql_nodes.specs.Reached.{IsClosure};
ghost use Rattle.gql_nodes.specs.Uses as uses;
ghost use Rattle.gql_scopes.specs.Tables as spec;
ghost use Rattle.std.proofs.lemmas.Bool.Decides.{Decides-eqb};

use crate::names::NameSet;
use crate::order::is_ordered;
use crate::places::PlaceSet;
use crate::uses::{spread_name, used_name};
use crate::wanted::gather_wanted;
use gql_nodes::{At, Graph, Places, RuleError, reached};
use gql_reader::{Definition, Document, OperationDefinition, VariableDefinition};
use pg_base::{Memory, Sequence, Text};
use std::alloc::Global;
use std::marker::Model;

/// What is gathered from the definitions and nodes of a document: where fragments stand, by their names; the variables
/// of each operation, by their names; the names that spreads name; for each definition, by its place, the variables that
/// it uses; whether an order of the definitions shows that spreads form no cycle; and what definitions reach, where that is
/// wanted.
#[derive(Drop)]
pub(crate) struct Tables {
    fragments: Places,
    variables: Vec<Places>,
    spreads: NameSet,
    used: Vec<NameSet>,
    ordered: bool,
    reached: Vec<PlaceSet>,
}

impl Model for Tables {
    ghost use Rattle.gql_scopes.specs.Tables.{TablesParts};

    ghost Value = { TablesParts };

    ghost view = { λ t. record {
      fragments = t.fragments;
      variables = t.variables.items;
      spreads = t.spreads;
      used = t.used.items;
      ordered = t.ordered;
      reached = t.reached.items;
    } };
}

impl Tables {
    /// The place of the fragment with the name.
    pub(crate) fn fragment(&self, name: &Text) -> Option<usize>
        ensures { result ≡ place_in self.now.fragments name.now }
    {
        self.fragments.find(name)
    }

    fn variable_place(&self, place: usize, name: &Text) -> Option<usize>
        ensures { result ≡ place_in (spec.row self.now.variables place) name.now }
    {
        match self.variables.get(place) {
            None => None,
            Some(places) => places.find(name),
        }
    }

    /// The variable of the operation at the place, by its name.
    pub(crate) fn variable<'a>(
        &self,
        place: usize,
        operation: &'a OperationDefinition,
        name: &Text,
    ) -> Option<&'a VariableDefinition>
        ensures { option_map (λ v. v.now) result
            ≡ spec.found_variable self.now place operation.now name.now }
    {
        match self.variable_place(place, name) {
            None => None,
            Some(at) => operation.variables.get(at),
        }
    }

    pub(crate) fn spreads(&self) -> &NameSet
        ensures { result.now ≡ self.now.spreads }
    {
        &self.spreads
    }

    /// Whether the definition at the place uses the variable.
    pub(crate) fn uses(&self, place: usize, name: &Text) -> bool
        ensures { result ≡ is_among name.now (spec.row self.now.used place) }
    {
        match self.used.get(place) {
            None => false,
            Some(names) => names.has(name),
        }
    }

    /// The places that the definition at the place reaches.
    pub(crate) fn reached(&self, place: usize) -> &[usize]
        ensures { result.now ≡ spec.row self.now.reached place }
    {
        match self.reached.get(place) {
            None => &[],
            Some(places) => places.as_slice(),
        }
    }

    /// Whether an order of the definitions shows that spreads form no cycle.
    pub(crate) fn ordered(&self) -> bool
        ensures { result ≡ self.now.ordered }
    {
        self.ordered
    }

    /// Whether the definition at the place reaches the other one.
    pub(crate) fn reaches(&self, place: usize, other: usize) -> bool
        ensures { result ≡ spec.has (spec.row self.now.reached place) other }
    {
        match self.reached.get(place) {
            None => false,
            Some(places) => places.has(other),
        }
    }
}

/// The names that spreads name.
fn gather_spreads(alloc: Global, nodes: &[At<'_>]) -> Result<NameSet, Memory>
    ensures { IfOk result (λ found. (name : List ℕ)
        → is_among name found ≡ is_among name (uses.spread_names (views nodes.now))) }
{
    let mut found = NameSet::new(alloc);
    for at in nodes {
        let Some(name) = spread_name(&at.node) else {
            continue;
        };
        found.put(alloc, name)?;
    }
    Ok(found)
}

/// Rows for the definitions and for all places where nodes stand; none where there are too many to be counted.
fn count_rows(document: &Document, nodes: &[At<'_>]) -> Option<usize>
    ensures { IfSome result (λ count. (length document.now.definitions ≤ count)
        × Each (λ x. x.within < count) (views nodes.now)) }
{
    let mut count = document.definitions.len();
    for at in nodes {
        let after = at.within.checked_add(1)?;
        count = count.max(after);
    }
    Some(count)
}

fn empty_names(alloc: Global, count: usize) -> Result<Vec<NameSet>, Memory>
    ensures len { IfOk result (λ rows. length rows.items ≡ count) }
    ensures empty { IfOk result (λ rows. (place : ℕ) → spec.row rows.items place ≡ []) }
{
    let mut rows = Vec::new(alloc);
    for _place in 0..count {
        rows.push(NameSet::new(alloc))?;
    }
    Ok(rows)
}

fn put_name(alloc: Global, rows: &mut Vec<NameSet>, place: usize, name: &Text) -> Result<(), Memory>
    requires { place < length rows.old.items }
    ensures len { length rows.new.items ≡ length rows.old.items }
    ensures row { OnOk result ((other : ℕ) → spec.row rows.new.items other
        ≡ (if place == other then with_name (spec.row rows.old.items other) name.now
        else spec.row rows.old.items other)) }
{
    rows[place].put(alloc, name)?;
    Ok(())
}

/// The variables that each definition uses.
fn gather_used(alloc: Global, nodes: &[At<'_>], count: usize) -> Result<Vec<NameSet>, Memory>
    requires { Each (λ x. x.within < count) (views nodes.now) }
    ensures { IfOk result (λ rows. (place : ℕ) (name : List ℕ)
        → is_among name (spec.row rows.items place)
        ≡ is_among name (uses.used_names (views nodes.now) place)) }
{
    let mut rows = empty_names(alloc, count)?;
    for at in nodes {
        let Some(name) = used_name(&at.node) else {
            continue;
        };
        put_name(alloc, &mut rows, at.within, name)?;
    }
    Ok(rows)
}

fn empty_places(alloc: Global, count: usize) -> Result<Vec<Sequence<usize>>, Memory>
    ensures len { IfOk result (λ rows. length rows.items ≡ count) }
    ensures empty { IfOk result (λ rows. (place : ℕ) → spec.row rows.items place ≡ []) }
{
    let mut rows = Vec::new(alloc);
    for _place in 0..count {
        rows.push(Sequence::new(alloc))?;
    }
    Ok(rows)
}

fn put_place(rows: &mut Vec<Sequence<usize>>, place: usize, target: usize) -> Result<(), Memory>
    requires { place < length rows.old.items }
    ensures len { length rows.new.items ≡ length rows.old.items }
    ensures row { OnOk result ((other : ℕ) → spec.row rows.new.items other
        ≡ (if place == other then spec.row rows.old.items other ++ target ∷ []
        else spec.row rows.old.items other)) }
{
    rows[place].push(target)?;
    Ok(())
}

/// The place of the fragment that a node spreads.
fn target_of(fragments: &Places, at: &At<'_>) -> Option<usize>
    ensures { result ≡ spec.target_of fragments.now (at_view at.now) }
{
    match spread_name(&at.node) {
        None => None,
        Some(name) => fragments.find(name),
    }
}

/// The places of the fragments that each definition spreads.
fn gather_targets(
    alloc: Global,
    fragments: &Places,
    nodes: &[At<'_>],
    count: usize,
) -> Result<Vec<Sequence<usize>>, Memory>
    requires { Each (λ x. x.within < count) (views nodes.now) }
    ensures { IfOk result (λ rows. (place : ℕ)
        → spec.row rows.items place ≡ spec.targets_in fragments.now (views nodes.now) place) }
{
    let mut rows = empty_places(alloc, count)?;
    for at in nodes {
        let Some(target) = target_of(fragments, at) else {
            continue;
        };
        put_place(&mut rows, at.within, target)?;
    }
    Ok(rows)
}

/// The graph of spreads among definitions.
#[derive(Drop)]
struct Spreads {
    rows: Vec<Sequence<usize>>,
}

impl Graph for Spreads {
    type Node = usize;

    ghost steps = { λ spreads node. spec.row spreads.rows.items node };

    fn put_steps(&self, node: usize, out: &mut Vec<usize>) -> Result<(), Memory> {
        let Some(row) = self.rows.get(node) else {
            return Ok(());
        };
        out.extend_from_slice(row.as_slice())?;
        Ok(())
    }

    ghost tells = { λ m n h. (Decides-eqb m n).0 h };
}

/// What the definition at the place reaches, where that is wanted.
fn reached_if(
    alloc: Global,
    spreads: &Spreads,
    place: usize,
    wanted: bool,
) -> Result<PlaceSet, Memory>
    ensures { IfOk result (λ found. IsTrue wanted
        → IsClosure (place ∷ []) (λ n. spec.row spreads.now.rows.items n) found) }
{
    if !wanted {
        return Ok(PlaceSet::new(alloc));
    }
    let found = reached(alloc, spreads, &[place])?;
    Ok(PlaceSet::of(found))
}

/// What definitions reach, where that is wanted.
fn gather_reached(
    alloc: Global,
    spreads: &Spreads,
    wanted: &[bool],
) -> Result<Vec<PlaceSet>, Memory>
    ensures len { IfOk result (λ rows. length rows.items ≡ length wanted.now) }
    ensures reached { IfOk result (λ rows. (place : ℕ) → place < length wanted.now
        → IsTrue (spec.is_marked wanted.now place)
        → IsClosure (place ∷ []) (λ n. spec.row spreads.now.rows.items n)
        (spec.row rows.items place)) }
{
    let mut rows = Vec::new(alloc);
    for (place, is_wanted) in wanted.iter().enumerate() {
        let found = reached_if(alloc, spreads, place, *is_wanted)?;
        rows.push(found)?;
    }
    Ok(rows)
}

/// Puts the place of a fragment to its name.
fn put_fragment(
    alloc: Global,
    fragments: &mut Places,
    definition: &Definition,
    place: usize,
) -> Result<(), Memory>
    ensures { OnOk result ((name : List ℕ) → place_in fragments.new name
        ≡ first_of (place_in fragments.old name) (spec.fragment_here definition.now place name)) }
{
    match definition {
        Definition::Operation(_) => Ok(()),
        Definition::Fragment(fragment) => {
            fragments.put_first(alloc, &fragment.name, place)?;
            Ok(())
        }
        Definition::Foreign(_) => Ok(()),
    }
}

/// Where fragments stand, by their names.
fn gather_fragments(alloc: Global, definitions: &[Definition]) -> Result<Places, Memory>
    ensures { IfOk result (λ found. (name : List ℕ)
        → place_in found name ≡ uses.place_from 0 definitions.now name) }
{
    let mut found = Places::new(alloc);
    for (place, definition) in definitions.iter().enumerate() {
        put_fragment(alloc, &mut found, definition, place)?;
    }
    Ok(found)
}

/// Where variables stand, by their names.
fn variable_places(alloc: Global, variables: &[VariableDefinition]) -> Result<Places, Memory>
    ensures { IfOk result (λ found. (name : List ℕ)
        → place_in found name ≡ spec.variable_from 0 variables.now name) }
{
    let mut found = Places::new(alloc);
    for (place, variable) in variables.iter().enumerate() {
        found.put_first(alloc, &variable.name, place)?;
    }
    Ok(found)
}

/// Where the variables of a definition stand, if it is an operation.
fn variables_of(alloc: Global, definition: &Definition) -> Result<Places, Memory>
    ensures { IfOk result (spec.TellsVariables definition.now) }
{
    match definition {
        Definition::Operation(operation) => {
            let places = variable_places(alloc, operation.variables.as_slice())?;
            Ok(places)
        }
        Definition::Fragment(_) => Ok(Places::new(alloc)),
        Definition::Foreign(_) => Ok(Places::new(alloc)),
    }
}

/// The same for each definition.
fn gather_variables(alloc: Global, definitions: &[Definition]) -> Result<Vec<Places>, Memory>
    ensures { IfOk result (λ rows. (place : ℕ) (d : DefinitionParts)
        → place < length definitions.now → slice_get definitions.now place ≡ Some d
        → spec.TellsVariables d (spec.row rows.items place)) }
{
    let mut rows = Vec::new(alloc);
    for definition in definitions {
        let places = variables_of(alloc, definition)?;
        rows.push(places)?;
    }
    Ok(rows)
}

/// What is gathered from the nodes of a document.
pub(crate) fn gather(
    alloc: Global,
    document: &Document,
    nodes: &[At<'_>],
) -> Result<Tables, RuleError>
    ensures tables { IfOk result (spec.AreTables document.now (views nodes.now)) }
    ensures memory { IfErr result (λ e. e ≡ RuleMemory) }
{
    let Some(count) = count_rows(document, nodes) else {
        return Err(RuleError::Memory);
    };
    let fragments = gather_fragments(alloc, document.definitions.as_slice())?;
    let variables = gather_variables(alloc, document.definitions.as_slice())?;
    let spreads = gather_spreads(alloc, nodes)?;
    let used = gather_used(alloc, nodes, count)?;
    let rows = gather_targets(alloc, &fragments, nodes, count)?;
    let ordered = is_ordered(alloc, rows.as_slice())?;
    let wanted = gather_wanted(alloc, document, nodes, ordered, count)?;
    let reached = gather_reached(alloc, &Spreads { rows }, wanted.as_slice())?;
    Ok(Tables {
        fragments,
        variables,
        spreads,
        used,
        ordered,
        reached,
    })
}
