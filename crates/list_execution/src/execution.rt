//! Requests, executed.

ghost use Rattle.std.specs.Prelude.{◌<◌, ◌^◌, IfOk, IfErr, length};
ghost use Rattle.list_execution.specs.Answered.{AreData, IsCause};

use crate::lists::Lists;
use pg_base::limits::MOST_VISITED_ROWS;
use pg_base::{Base, Vars};
use place_tree::{CountFault, Event, Stand, Tree, visit_members};
use rel_model::Tables;
use std::alloc::Global;

/// Why a request has no data.
#[derive(Clone, Copy, Debug, Drop, PartialEq, Eq)]
pub enum ExecutionFault {
    /// It visits more than 200,000 rows.
    TooManyRows,
    Memory,
}

/// The data of a query, as the events of its members.
pub fn execute(
    alloc: Global,
    base: &Base,
    tables: &Tables,
    vars: &Vars,
    tree: &Tree,
) -> Result<Vec<Event>, ExecutionFault>
    requires few { length tree.now.places < 2 ^ 32 }
    ensures ok { IfOk result (λ events.
        AreData base.now tables.now vars.now tree.now events.items) }
    ensures err { IfErr result (IsCause base.now tables.now vars.now tree.now) }
{
    let places = tree.places.as_slice();
    let lists = Lists {
        base,
        tables,
        vars,
        places,
    };
    let mut left = MOST_VISITED_ROWS as u64;
    let mut events = Vec::new(alloc);
    match visit_members(
        alloc,
        &lists,
        places,
        0,
        None,
        &Stand::Root,
        &mut left,
        &mut events,
    ) {
        Ok(()) => Ok(events),
        Err(CountFault::TooMany) => Err(ExecutionFault::TooManyRows),
        Err(CountFault::Memory) => Err(ExecutionFault::Memory),
    }
}
