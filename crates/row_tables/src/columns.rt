//! What a table set keeps of its catalog.

ghost use Rattle.std.specs.Prelude.{◌≡◌, IfOk, map, drop};
ghost use Rattle.row_tables.specs.Set.{kept_columns};

use pg_base::{KeyDef, Memory, TableDef};
use sqlite_items::Items;
use std::alloc::Global;

/// The columns of each key of a table, and which of its columns are identities.
#[derive(Drop)]
pub struct KeptColumns {
    pub keys: Items<Items<u32>>,
    pub identities: Items<bool>,
}

fn keys_of(alloc: Global, keys: &[KeyDef]) -> Result<Items<Items<u32>>, Memory>
    ensures { IfOk result (λ kept. kept ≡ map (λ k. k.columns) keys.now) }
{
    let mut kept = Vec::with_capacity(alloc, keys.len())?;
    for key in keys {
        kept.push(Items::from_vec(Vec::from_slice(alloc, key.columns.as_slice())?))?;
    }
    Ok(Items::from_vec(kept))
}

impl KeptColumns {
    pub(crate) fn of(alloc: Global, table: &TableDef) -> Result<KeptColumns, Memory>
        ensures { IfOk result (λ kept. kept ≡ kept_columns table.now) }
    {
        let keys = keys_of(alloc, table.keys.as_slice())?;
        let mut identities = Vec::with_capacity(alloc, table.columns.len())?;
        for column in table.columns.as_slice() {
            identities.push(column.identity)?;
        }
        Ok(KeptColumns {
            keys,
            identities: Items::from_vec(identities),
        })
    }
}
