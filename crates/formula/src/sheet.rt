// A sheet that was read: its formula, with the clauses in a table (specs/Machine.antt).
ghost use Rattle.std.specs.Prelude.{◌≡◌, [], ◌<◌, ◌≤◌};
ghost use Rattle.words.specs.Bits.{width};
ghost use Rattle.formula.specs.Machine.{Table, length_at, literal_at};

use crate::literal::Literal;
use crate::rows::ClauseRows;
use crate::table::{copy_row, length_at, literal_at};
use crate::{CELLS, read_into};
use words::Refused;

// It holds `count` clauses over the variables 1 to n, as many as an assignment has room for.
#[derive(Drop)]
pub struct Sheet {
    pub batch: u32,
    pub n: u32,
    pub count: usize,
    pub cells: [u32; CELLS],
    pub ghost small: { n ≤ width },
    pub ghost holds: { Table n count cells },
}

impl Sheet {
    ghost use Rattle.formula.specs.Sheet.{parse};
    ghost use Rattle.std.specs.Prelude.{◌∷◌, ◌++◌, ℕ, ◌+◌, map, length, get_or, take};
    ghost use Rattle.formula.specs.Formula.{literal_of, length_limit, clause_limit};
    ghost use Rattle.formula.specs.Machine.{IsLiteral, result_in, clause_at, held};
    ghost use Rattle.formula.specs.Reading.{formula_of};

    // The formula over no variables that has no clause.
    pub fn empty() -> Sheet
        ensures { formula_of result ≡ record { batch = 0; n = 0; clauses = [] } }
    {
        Sheet {
            batch: 0,
            n: 0,
            count: 0,
            cells: [0; CELLS],
        }
    }

    // Reads any bytes as a sheet.
    pub fn read(&mut self, bytes: &[u8]) -> Result<(), Refused>
        ensures { result_in (λ _. formula_of self.new) result ≡ parse bytes.now }
    {
        self.count = 0;
        let header = read_into(bytes, &mut self.cells)?;
        self.batch = header.batch;
        self.n = header.n;
        self.count = header.count;
        Ok(())
    }

    // Its clauses, in the rows of its table.
    pub fn clauses(&self) -> ClauseRows<'_>
        ensures { (result.cells.now ≡ self.now.cells) × (result.count ≡ self.now.count) }
    {
        ClauseRows {
            cells: &self.cells,
            count: self.count,
        }
    }

    // The length of clause i.
    pub fn length_at(&self, i: usize) -> u32
        requires { i < self.now.count }
        ensures { result ≡ length_at self.now.cells i }
    {
        length_at(&self.cells, i)
    }

    // Literal j of clause i.
    pub fn literal(&self, i: usize, j: u32) -> Literal
        requires { (i < self.now.count) × (j < length_at self.now.cells i) }
        ensures { result.word ≡ literal_at self.now.cells i j }
    {
        Literal {
            word: literal_at(&self.cells, i, j),
        }
    }

    // The words of the literals of clause i.
    pub fn clause(&self, i: usize) -> &[u32]
        requires { i < self.now.count }
        ensures literals { map literal_of result.now ≡ clause_at self.now.cells i }
        ensures size { (length result.now ≡ length_at self.now.cells i) × (length result.now ≤ length_limit) }
        ensures each { (j : ℕ) → j < length result.now → IsLiteral (get_or result.now j 0) }
    {
        self.clauses().clause(i)
    }

    // Keeps the first `count` clauses.
    pub fn truncate(&mut self, count: usize)
        ensures { formula_of self.new ≡ record { batch = self.old.batch; n = self.old.n; clauses = take count (held self.old.count self.old.cells) } }
    {
        self.count = self.count.min(count);
    }

    // Clause i of another sheet comes behind the clauses.
    pub fn push_clause(&mut self, from: &Sheet, i: usize)
        requires { (i < from.now.count) × (from.now.n ≤ self.old.n) × (self.old.count < clause_limit) }
        ensures formula { formula_of self.new ≡ record { batch = self.old.batch; n = self.old.n; clauses = held self.old.count self.old.cells ++ (clause_at from.now.cells i ∷ []) } }
        ensures number { self.new.count ≡ self.old.count + 1 }
    {
        copy_row(&from.cells, i, &mut self.cells, self.count);
        self.count += 1;
    }
}
