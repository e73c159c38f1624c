// Rows of the table of clauses (specs/Machine.antt).
ghost use Rattle.std.specs.Prelude.{◌≡◌, ◌<◌, length};
ghost use Rattle.formula.specs.Formula.{length_limit, clause_limit};
ghost use Rattle.formula.specs.Machine.{cell_count, length_at, literal_at, Row, RowCopied};

use crate::{CELLS, ROW_CELLS};

// The length of clause i.
pub fn length_at(cells: &[u32; CELLS], i: usize) -> u32
    requires { i < clause_limit }
    ensures { result ≡ length_at cells.now i }
{
    cells[ROW_CELLS * i]
}

// The word of literal j of clause i.
pub fn literal_at(cells: &[u32; CELLS], i: usize, j: u32) -> u32
    requires { (i < clause_limit) × (j < length_limit) }
    ensures { result ≡ literal_at cells.now i j }
{
    cells[ROW_CELLS * i + 1 + j as usize]
}

// Row i of one table becomes row j of another.
pub fn copy_row(from: &[u32; CELLS], i: usize, to: &mut [u32; CELLS], j: usize)
    requires { Row from.now i × (j < clause_limit) × (length to.old ≡ cell_count) }
    ensures { RowCopied from.now i to.old j to.new }
{
    let row = ROW_CELLS * i;
    let at = ROW_CELLS * j;
    to[at..at + ROW_CELLS].copy_from_slice(&from[row..row + ROW_CELLS]);
}
