//! The cells of rows in the columns of a key.

ghost use Rattle.std.specs.Prelude.{◌≡◌, ◌∷◌, []};

use pg_base::Cell;
use std::hash::{Hash, Hasher};
use std::marker::Model;
use std::slice;

/// One cell in place, or the cells of several columns.
#[derive(Drop)]
pub(crate) enum KeyCells {
    One(Cell),
    Several(Vec<Cell>),
}

/// The cells of a row in the columns of a key, which contracts see as the list of them.
#[derive(Drop)]
pub(crate) struct Key {
    cells: KeyCells,
}

impl Model for Key {
    ghost use Rattle.std.specs.Prelude.{List};
    ghost use Rattle.pg_base.specs.declared.cell.Cell.{Cell};
    ghost use Rattle.rows_reader.specs.Kept.{cells_in};

    ghost Value = { List Cell };

    ghost view = { λ key. cells_in key.cells };
}

impl Key {
    /// The key of one column.
    pub(crate) fn one(cell: Cell) -> Key
        ensures { result ≡ cell ∷ [] }
    {
        Key {
            cells: KeyCells::One(cell),
        }
    }

    pub(crate) fn several(cells: Vec<Cell>) -> Key
        ensures { result ≡ cells.items }
    {
        Key {
            cells: KeyCells::Several(cells),
        }
    }

    pub(crate) fn as_slice(&self) -> &[Cell]
        ensures { result.now ≡ self.now }
    {
        match &self.cells {
            KeyCells::One(cell) => slice::from_ref(cell),
            KeyCells::Several(cells) => cells.as_slice(),
        }
    }
}

impl PartialEq for Key {
    ghost use Rattle.std.specs.Cmp.Lexicographic.{pointwise, lists_per};
    ghost use Rattle.pg_base.specs.contracts.cell.CellPartialEq.TheImpl.Laws as cells;

    ghost eq = { pointwise ⟦<Cell as PartialEq>⟧.eq };

    ghost laws = { lists_per cells.laws-law };

    fn eq(&self, other: &Key) -> bool {
        self.as_slice() == other.as_slice()
    }
}

impl Eq for Key {
    ghost use Rattle.std.specs.Cmp.Lexicographic.{lists_equiv};
    ghost use Rattle.pg_base.specs.contracts.cell.CellEq.TheImpl.Laws as cells;

    ghost laws = { lists_equiv cells.laws-law };
}

impl Hash for Key {
    ghost use Rattle.std.specs.Hash as fed;
    ghost use Rattle.std.specs.Hash.{items_Alike};
    ghost use Rattle.pg_base.specs.contracts.cell.CellHash.TheImpl.Laws as cells;

    ghost hash_input = { fed.slice ⟦<Cell as Hash>⟧.hash_input };

    ghost respects_eq = { (items_Alike (record { fed = cells.respects_eq-law })).fed };

    fn hash<H: Hasher>(&self, state: &mut H) {
        self.as_slice().hash(state);
    }
}
