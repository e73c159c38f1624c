// Where the literals of some clauses occur.
ghost use Rattle.std.specs.Prelude.{◌≤◌};
ghost use Rattle.planes.specs.Machine.{lane_count};

use crate::{
    FIRST, Kind, LANES, OCCURRENCES, PAIR, PLANES, Planes, ROW, Rows, SECOND, TableRow,
    clause_sets, lanes_of, mark, past, put_slot, slot_at,
};
use formula::{Literal, Sheet};
use words::Set;

// The occurrence table of `count` clauses: a row for each literal with a lane for each clause, and
// after the rows the set of the variables of each clause (specs/Machine.antt). It is made once, and
// lent to whoever asks.
#[derive(Drop)]
pub struct Occurrences {
    pub table: [u64; OCCURRENCES],
    pub count: usize,
    pub ghost within: { count ≤ lane_count },
}

impl Occurrences {
    ghost use Rattle.std.specs.Prelude.{◌≡◌, true, false, ◌||◌, List, ℕ, ◌+◌, ◌*◌, ◌<◌, eqb, length, get_or, IfSome};
    ghost use Rattle.words.specs.Bits.{bit, width};
    ghost use Rattle.words.specs.Machine.{set_of};
    ghost use Rattle.formula.specs.Formula.{Clause};
    ghost use Rattle.planes.specs.Machine.{lanes, row_words, words_of, first_counter, second_counter, slots, plane_cells, Counts, FirstFound, wanted, Occurs, set_at, ShiftedSlot, Shifted, AboveZero, Summed, Starts};

    // Those in the clauses of a sheet.
    pub fn of(sheet: &Sheet) -> Occurrences
        ensures count { result.count ≡ sheet.now.count }
        ensures occurs { Occurs sheet.now.count sheet.now.cells result.table }
    {
        let mut made = Occurrences {
            table: [0; OCCURRENCES],
            count: sheet.count,
        };
        for i in 0..sheet.count {
            let clause = sheet.clause(i);
            mark(clause, i, &mut made.table);
            clause_sets::put_set(&mut made.table, i, clause_sets::clause_set(clause));
        }
        made
    }

    // How many words the clauses take.
    pub fn words(&self) -> usize
        ensures { result ≡ words_of self.now.count }
    {
        self.count.div_ceil(LANES)
    }

    // The variables of clause i.
    pub fn set_at(&self, i: usize) -> Set
        requires { i < lane_count }
        ensures { set_of result ≡ set_at self.now.table i }
    {
        clause_sets::set_at(&self.table, i)
    }

    // Word w of a counter of the literals of one sign: the lanes of each of them, added up.
    fn start_word(&self, n: u32, positive: bool, w: usize) -> Planes
        requires n_le_width { n ≤ width }
        requires w_bound { lanes * w < self.now.count }
        ensures { Summed n self.now.count self.now.table positive w result }
    {
        let mut word = Planes {
            p0: past(self.count, w),
            p1: 0,
            p2: 0,
            p3: 0,
        };
        for v in 0..n {
            let row = Literal::of(positive, v).word as usize * ROW;
            word = word.moved(self.table[row + w], 0);
        }
        word
    }

    // How many literals of each clause are negative, and how many positive, over n variables.
    pub fn start(&self, n: u32) -> [u64; PLANES]
        requires { n ≤ width }
        ensures result_len { length result ≡ plane_cells }
        ensures starts { Starts n self.now.count self.now.table first_counter false result }
        ensures starts_2 { Starts n self.now.count self.now.table second_counter true result }
    {
        let mut planes = [0u64; PLANES];
        for w in 0..self.words() {
            let negative = self.start_word(n, false, w);
            put_slot(&mut planes, FIRST + w, negative);
            let positive = self.start_word(n, true, w);
            put_slot(&mut planes, SECOND + w, positive);
        }
        planes
    }

    // One word of a counter, in its slot: one more in the row of `up`, one less in that of `down`.
    fn shift_slot(
        &self,
        w: usize,
        slot: usize,
        rows: Rows,
        from: &[u64; PLANES],
        to: &mut [u64; PLANES],
    )
        requires { (w < row_words) × (slot < slots) }
        ensures { ShiftedSlot w slot rows.up.word rows.down.word self.now.table from.now
            to.old to.new }
    {
        let up = self.table[rows.up.first_cell() + w];
        let down = self.table[rows.down.first_cell() + w];
        let next = slot_at(from, slot).moved(up, down);
        put_slot(to, slot, next);
    }

    // Each counter by its rows: one more for the clauses of the row `up`, and one less for those of
    // the row `down`. Where it is called it is known which rows are empty, and that the planes do
    // not overlap.
    #[inline(always)]
    pub fn shift(&self, first: Rows, second: Rows, from: &[u64; PLANES], to: &mut [u64; PLANES])
        ensures to_len { length to.new ≡ plane_cells }
        ensures shifted { Shifted self.now.count first_counter first.up.word first.down.word self.now.table from.now to.new }
        ensures shifted_2 { Shifted self.now.count second_counter second.up.word second.down.word self.now.table from.now to.new }
    {
        // An even number of words, so that two are moved at a time: what goes on past the last
        // clause does not matter.
        let words = 2 * self.count.div_ceil(PAIR);
        for w in 0..words {
            self.shift_slot(w, FIRST + w, first, from, to);
            self.shift_slot(w, SECOND + w, second, from, to);
        }
    }

    // The lanes of word w of the clauses that hold a row's literal, or all lanes where there is none
    // to hold.
    fn holding(&self, row: TableRow, w: usize) -> u64
        requires { w < row_words }
        ensures { (j : ℕ) → j < lanes →
            bit result j ≡ (eqb row.word 0 || bit (get_or self.now.table (row.word * row_words + w) 0) j) }
    {
        if row.word == 0 {
            !0u64
        } else {
            self.table[row.first_cell() + w]
        }
    }

    // The first clause of a kind from number `from` on, of those that hold a row's literal, or of
    // all where there is none to hold. Where it is called the kind is known.
    #[inline]
    pub fn next(
        &self,
        row: TableRow,
        kind: Kind,
        planes: &[u64; PLANES],
        from: usize,
    ) -> Option<usize>
        requires { from ≤ lane_count }
        ensures within { IfSome result (λ i. (from ≤ i) × (i < lane_count)) }
        ensures by_index { (cells : List ℕ) (count count' : Clause → ℕ) → Occurs self.now.count cells self.now.table →
            Counts self.now.count cells first_counter count planes.now → Counts self.now.count cells second_counter count' planes.now →
            FirstFound from self.now.count (wanted kind row.word cells count count') result }
    {
        let start = from / LANES;
        let mut seen = past(from, start);
        for w in start..self.words() {
            let found = lanes_of(planes, w, kind) & self.holding(row, w) & seen;
            if found != 0 {
                return Some(LANES * w + u64::trailing_zeros(found) as usize);
            }
            seen = !0u64;
        }
        None
    }

    // Whether every first number would be above 0 after `shift` by these rows: the last level of a
    // search asks this alone, and stores no planes.
    pub fn above_zero_after(&self, rows: Rows, planes: &[u64; PLANES]) -> bool
        ensures { AboveZero self.now.count rows.up.word rows.down.word self.now.table planes.now result }
    {
        let more = rows.up.first_cell();
        let less = rows.down.first_cell();
        for w in 0..self.words() {
            let zeros = slot_at(planes, FIRST + w).zeros_after(
                self.table[more + w],
                self.table[less + w],
            );
            if zeros != 0 {
                return false;
            }
        }
        true
    }
}
