//! Pairs of plain selection sets: whether fields of the two differ, and the steps to other pairs.

ghost use Rattle.std.specs.Prelude.{◌≡◌, ◌++◌, ◌&&◌, OnOk, IfOk};
ghost use Rattle.gql_nodes.specs.Listed.{views};
ghost use Rattle.gql_validate.specs.SetPairs as spec;
ghost use Rattle.gql_validate.specs.Merged as merged;

use crate::paired_fields::{differ, meet};
use crate::pairs::Pair;
use crate::tables::{Tables, list_at};
use gql_nodes::At;
use pg_base::Memory;
use std::alloc::Global;

// ---- clashes

fn clash_when(alloc: Global, nodes: &[At<'_>], f: usize, g: usize) -> Result<bool, Memory>
    ensures { IfOk result (λ clash. clash ≡ merged.clash_when (views nodes.now) f g) }
{
    if meet(nodes, f, g) {
        let differ = differ(alloc, nodes, f, g)?;
        Ok(differ)
    } else {
        Ok(false)
    }
}

fn clash_in_order(alloc: Global, nodes: &[At<'_>], f: usize, g: usize) -> Result<bool, Memory>
    ensures { IfOk result (λ clash. clash ≡ merged.clash_in_order (views nodes.now) f g) }
{
    let forth = clash_when(alloc, nodes, f, g)?;
    if forth {
        return Ok(true);
    }
    let back = clash_when(alloc, nodes, g, f)?;
    Ok(back)
}

fn clash_with(alloc: Global, nodes: &[At<'_>], f: usize, gs: &[usize]) -> Result<bool, Memory>
    ensures { IfOk result (λ clash. clash ≡ merged.clash_with (views nodes.now) f gs.now) }
{
    for g in gs {
        let clash = clash_in_order(alloc, nodes, f, *g)?;
        if clash {
            return Ok(true);
        }
    }
    Ok(false)
}

fn clash_of(alloc: Global, nodes: &[At<'_>], fs: &[usize], gs: &[usize]) -> Result<bool, Memory>
    ensures { IfOk result (λ clash. clash ≡ merged.clash_of (views nodes.now) fs.now gs.now) }
{
    for f in fs {
        let clash = clash_with(alloc, nodes, *f, gs)?;
        if clash {
            return Ok(true);
        }
    }
    Ok(false)
}

/// Whether a field of one set and one of the other meet and differ.
pub(crate) fn clashes(
    alloc: Global,
    nodes: &[At<'_>],
    tables: &Tables,
    p: Pair,
) -> Result<bool, Memory>
    ensures { IfOk result (λ clash. clash ≡ merged.clashes_by (views nodes.now) tables.now p) }
{
    let fields = tables.fields.as_slice();
    let firsts = list_at(fields, p.first);
    let seconds = list_at(fields, p.second);
    let clash = clash_of(alloc, nodes, firsts, seconds)?;
    Ok(clash)
}

// ---- steps

pub(crate) fn put_when(
    holds: bool,
    first: usize,
    second: usize,
    out: &mut Vec<Pair>,
) -> Result<(), Memory>
    ensures { OnOk result (out.new.items ≡ out.old.items ++ spec.when holds first second) }
{
    if !holds {
        return Ok(());
    }
    out.push(Pair { first, second })?;
    Ok(())
}

fn is_empty(list: &[usize]) -> bool
    ensures { result ≡ spec.is_empty list.now }
{
    list.is_empty()
}

/// Whether something stands in the set.
pub(crate) fn is_deep(tables: &Tables, set: usize) -> bool
    ensures { result ≡ merged.is_deep_by tables.now set }
{
    if is_empty(list_at(tables.fields.as_slice(), set)) {
        if is_empty(list_at(tables.sets.as_slice(), set)) {
            return false;
        }
        return true;
    }
    true
}

fn both(a: bool, b: bool) -> bool
    ensures { result ≡ (a && b) }
{
    if a { b } else { false }
}

pub(crate) fn put_below_pair(tables: &Tables, p: Pair, out: &mut Vec<Pair>) -> Result<(), Memory>
    ensures { OnOk result (out.new.items ≡ out.old.items ++ merged.below_pair_by tables.now p) }
{
    let first = is_deep(tables, p.first);
    let second = is_deep(tables, p.second);
    put_when(both(first, second), p.first, p.second, out)?;
    put_when(first, p.first, p.first, out)?;
    put_when(second, p.second, p.second, out)?;
    Ok(())
}

fn put_below_when(
    nodes: &[At<'_>],
    tables: &Tables,
    f: usize,
    g: usize,
    out: &mut Vec<Pair>,
) -> Result<(), Memory>
    ensures { OnOk result (out.new.items
        ≡ out.old.items ++ merged.below_when (views nodes.now) tables.now f g) }
{
    if !meet(nodes, f, g) {
        return Ok(());
    }
    let p = Pair {
        first: f,
        second: g,
    };
    put_below_pair(tables, p, out)?;
    Ok(())
}

fn put_below_in_order(
    nodes: &[At<'_>],
    tables: &Tables,
    f: usize,
    g: usize,
    out: &mut Vec<Pair>,
) -> Result<(), Memory>
    ensures { OnOk result (out.new.items
        ≡ out.old.items ++ merged.below_in_order (views nodes.now) tables.now f g) }
{
    put_below_when(nodes, tables, f, g, out)?;
    put_below_when(nodes, tables, g, f, out)?;
    Ok(())
}

fn put_below_with(
    nodes: &[At<'_>],
    tables: &Tables,
    f: usize,
    gs: &[usize],
    out: &mut Vec<Pair>,
) -> Result<(), Memory>
    ensures { OnOk result (out.new.items
        ≡ out.old.items ++ merged.below_with (views nodes.now) tables.now f gs.now) }
{
    for g in gs {
        put_below_in_order(nodes, tables, f, *g, out)?;
    }
    Ok(())
}

fn put_below_of(
    nodes: &[At<'_>],
    tables: &Tables,
    fs: &[usize],
    gs: &[usize],
    out: &mut Vec<Pair>,
) -> Result<(), Memory>
    ensures { OnOk result (out.new.items
        ≡ out.old.items ++ merged.below_of (views nodes.now) tables.now fs.now gs.now) }
{
    for f in fs {
        put_below_with(nodes, tables, *f, gs, out)?;
    }
    Ok(())
}

fn put_with_second(firsts: &[usize], second: usize, out: &mut Vec<Pair>) -> Result<(), Memory>
    ensures { OnOk result (out.new.items ≡ out.old.items ++ spec.with_second firsts.now second) }
{
    for first in firsts {
        out.push(Pair {
            first: *first,
            second,
        })?;
    }
    Ok(())
}

fn put_with_first(first: usize, seconds: &[usize], out: &mut Vec<Pair>) -> Result<(), Memory>
    ensures { OnOk result (out.new.items ≡ out.old.items ++ spec.with_first first seconds.now) }
{
    for second in seconds {
        out.push(Pair {
            first,
            second: *second,
        })?;
    }
    Ok(())
}

/// Appends the pairs to which steps lead from this one.
pub(crate) fn put_steps(
    nodes: &[At<'_>],
    tables: &Tables,
    p: Pair,
    out: &mut Vec<Pair>,
) -> Result<(), Memory>
    ensures { OnOk result (out.new.items
        ≡ out.old.items ++ merged.listed_steps (views nodes.now) tables.now p) }
{
    let sets = tables.sets.as_slice();
    put_with_second(list_at(sets, p.first), p.second, out)?;
    put_with_first(p.first, list_at(sets, p.second), out)?;
    let fields = tables.fields.as_slice();
    let firsts = list_at(fields, p.first);
    let seconds = list_at(fields, p.second);
    put_below_of(nodes, tables, firsts, seconds, out)?;
    Ok(())
}
