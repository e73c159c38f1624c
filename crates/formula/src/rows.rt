// Clauses in the rows of a table (specs/Machine.antt).
ghost use Rattle.formula.specs.Machine.{Rows};

use crate::table::length_at;
use crate::{CELLS, ROW_CELLS};

// The first `count` clauses of a table, of which no more is known than that their lengths fit: what
// their words say of literals does not matter where they are read as sets.
#[derive(Clone, Copy)]
pub struct ClauseRows<'a> {
    pub cells: &'a [u32; CELLS],
    pub count: usize,
    pub ghost fit: { Rows count cells.now },
}

impl<'a> ClauseRows<'a> {
    ghost use Rattle.std.specs.Prelude.{◌≡◌, ◌<◌, ◌≤◌, map, length};
    ghost use Rattle.formula.specs.Formula.{literal_of, length_limit};
    ghost use Rattle.formula.specs.Machine.{length_at, clause_at};

    // The words of the literals of clause i.
    pub fn clause(self, i: usize) -> &'a [u32]
        requires { i < self.count }
        ensures literals { map literal_of result.now ≡ clause_at self.entry.cells.now i }
        ensures size { (length result.now ≡ length_at self.entry.cells.now i) × (length result.now ≤ length_limit) }
    {
        let cells = self.cells;
        let start = ROW_CELLS * i + 1;
        &cells[start..start + length_at(cells, i) as usize]
    }
}
