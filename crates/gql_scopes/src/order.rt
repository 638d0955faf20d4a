//! An order of the definitions, in which each stands before those that it spreads: where there is one, spreads form no
//! cycle. The order that is found is not trusted; it is looked at spread by spread.

ghost use Rattle.std.specs.Prelude.{◌≡◌, ℕ, length, IfOk, IsTrue};
ghost use Rattle.gql_scopes.specs.Ranks as spec;
ghost use Rattle.gql_scopes.specs.Tables.{row};

use pg_base::{Memory, Sequence};
use std::alloc::Global;

/// Counts each target once more.
fn count_each(counts: &mut Vec<usize>, targets: &[usize]) {
    for target in targets {
        if let Some(count) = counts.get_mut(*target) {
            *count = count.saturating_add(1);
        }
    }
}

/// How often each definition is spread.
fn count_spreads(alloc: Global, rows: &[Sequence<usize>]) -> Result<Vec<usize>, Memory> {
    let mut counts = vec![in alloc; 0usize; rows.len()]?;
    for targets in rows {
        count_each(&mut counts, targets.as_slice());
    }
    Ok(counts)
}

/// The definitions that are spread nowhere.
fn unspread(alloc: Global, counts: &[usize]) -> Result<Vec<usize>, Memory> {
    let mut places = Vec::new(alloc);
    for (place, count) in counts.iter().enumerate() {
        if *count > 0 {
            continue;
        }
        places.push(place)?;
    }
    Ok(places)
}

/// Counts the target once less; whether it is now spread nowhere.
fn count_off(counts: &mut Vec<usize>, target: usize) -> bool {
    match counts.get_mut(target) {
        None => false,
        Some(count) => {
            *count = count.saturating_sub(1);
            *count == 0
        }
    }
}

/// Counts each target once less, and appends those that are now spread nowhere.
fn take_away(
    counts: &mut Vec<usize>,
    targets: &[usize],
    due: &mut Vec<usize>,
) -> Result<(), Memory> {
    for target in targets {
        if !count_off(counts, *target) {
            continue;
        }
        due.push(*target)?;
    }
    Ok(())
}

/// A rank for each definition, as it is met going from those that are spread nowhere to those that are spread by these
/// alone, and so on. Definitions on a cycle, and those that are reached from one, have rank 0.
fn ranks_of(alloc: Global, rows: &[Sequence<usize>]) -> Result<Vec<usize>, Memory>
    ensures { IfOk result (λ ranks. length ranks.items ≡ length rows.now) }
{
    let mut counts = count_spreads(alloc, rows)?;
    let mut due = unspread(alloc, counts.as_slice())?;
    let mut ranks = vec![in alloc; 0usize; rows.len()]?;
    for at in 0..rows.len() {
        let Some(place) = due.get(at) else {
            return Ok(ranks);
        };
        let met = *place;
        if met < rows.len() {
            ranks[met] = at + 1;
            take_away(&mut counts, rows[met].as_slice(), &mut due)?;
        }
    }
    Ok(ranks)
}

fn rank_of(ranks: &[usize], place: usize) -> usize
    ensures { result ≡ spec.rank ranks.now place }
{
    match ranks.get(place) {
        None => 0,
        Some(rank) => *rank,
    }
}

/// Whether the rank of the place is less than that of each target.
fn rises(ranks: &[usize], place: usize, targets: &[usize]) -> bool
    ensures { result ≡ spec.rises ranks.now place targets.now }
{
    let rank = rank_of(ranks, place);
    targets.iter().all(|target| rank < rank_of(ranks, *target))
}

/// Whether ranks rise from each definition to those that it spreads.
fn rise(ranks: &[usize], rows: &[Sequence<usize>]) -> bool
    ensures { result ≡ spec.rises_from ranks.now 0 rows.now }
{
    for (place, targets) in rows.iter().enumerate() {
        if !rises(ranks, place, targets.as_slice()) {
            return false;
        }
    }
    true
}

/// Whether an order of the definitions shows that spreads form no cycle.
pub(crate) fn is_ordered(alloc: Global, rows: &[Sequence<usize>]) -> Result<bool, Memory>
    ensures { IfOk result (λ ordered. IsTrue ordered
        → spec.HasNoCycle (λ n. row rows.now n)) }
{
    let ranks = ranks_of(alloc, rows)?;
    Ok(rise(ranks.as_slice(), rows))
}
