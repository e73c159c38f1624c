// Two numbers for each clause in bit planes, moved at each flip; what is counted is the caller's.
#![tactic(auto)]

mod clause_sets;
mod occurrences;
mod table_row;

ghost use Rattle.std.specs.Prelude.{◌≡◌, map, ℕ, ◌+◌, ◌*◌, ◌≤◌, ◌<◌, eqb, leb, length, get_or};
ghost use Rattle.words.specs.Bits.{bit};
ghost use Rattle.formula.specs.Formula.{literal_of};
ghost use Rattle.formula.specs.Counts.{opposite};
ghost use Rattle.planes.specs.Machine.{lanes, row_words, lane_count, row_count, first_counter, second_counter, slots, count_in, planes_at, Told, test_of, Marked, Moved, ZerosAfter, Stored};

use formula::Literal;
pub use occurrences::Occurrences;
pub use table_row::TableRow;

// The sizes of specs/Machine.antt: lanes of a word and of two words, words of a row, cells of the
// occurrence table, slots of two counters, and cells of an array of planes.
pub const LANES: usize = 64;

const PAIR: usize = 2 * LANES;

pub const ROW: usize = 16;

// Where the sets begin in the occurrence table, two words for each clause.
const SETS: usize = (2 * words::WIDTH as usize + 2) * ROW;

pub const OCCURRENCES: usize = SETS + 2 * LANES * ROW;

const SLOTS: usize = 2 * ROW;

pub const PLANES: usize = 4 * SLOTS;

// The slot of each counter's first word.
const FIRST: usize = 0;

const SECOND: usize = ROW;

// Two rows: a number goes up in the clauses of one, and down in those of the other.
#[derive(Clone, Copy)]
pub struct Rows {
    pub up: TableRow,
    pub down: TableRow,
}

impl Rows {
    // A literal and its opposite.
    pub fn of(literal: Literal) -> Rows
        ensures { (result.up.word ≡ literal.word) × (result.down.word ≡ opposite literal.word) }
    {
        Rows {
            up: TableRow::of(literal),
            down: TableRow::of(literal.opposite()),
        }
    }
}

// The counts of 64 clauses: plane p has binary digit p of each, one lane a clause.
#[derive(Clone, Copy)]
pub struct Planes {
    pub p0: u64,
    pub p1: u64,
    pub p2: u64,
    pub p3: u64,
}

impl Planes {
    // One more in the lanes of up, one less in those of down.
    pub fn moved(self, up: u64, down: u64) -> Planes
        ensures { Moved up down self result }
    {
        let change = up ^ down;
        let change1 = (self.p0 ^ down) & change;
        let change2 = (self.p1 ^ down) & change1;
        let change3 = (self.p2 ^ down) & change2;
        Planes {
            p0: self.p0 ^ change,
            p1: self.p1 ^ change1,
            p2: self.p2 ^ change2,
            p3: self.p3 ^ change3,
        }
    }

    // The lanes with count 0.
    pub fn zeros(self) -> u64
        ensures { (j : ℕ) → j < lanes → bit result j ≡ eqb (count_in self j) 0 }
    {
        !(self.p0 | self.p1 | self.p2 | self.p3)
    }

    // The lanes with count 1.
    pub fn ones(self) -> u64
        ensures { (j : ℕ) → j < lanes → bit result j ≡ eqb (count_in self j) 1 }
    {
        self.p0 & !(self.p1 | self.p2 | self.p3)
    }

    // The lanes with count at most 2.
    pub fn at_most_two(self) -> u64
        ensures { (j : ℕ) → j < lanes → bit result j ≡ leb (count_in self j) 2 }
    {
        !((self.p0 & self.p1) | self.p2 | self.p3)
    }

    // The lanes that `moved` would leave with count 0, where no lane is both in up and in down.
    pub fn zeros_after(self, up: u64, down: u64) -> u64
        ensures { ZerosAfter up down self result }
    {
        let after = Planes {
            p0: (self.p0 ^ down) | up,
            p1: self.p1,
            p2: self.p2,
            p3: self.p3,
        };
        after.zeros()
    }
}

// The kinds of clauses by their two numbers.
#[derive(Clone, Copy)]
pub enum Kind {
    // The first is 0.
    Zero,
    // The first is 0 and the second at most 2.
    Few,
    // The first is 1 and the second 0.
    Lone,
    // Both are 0.
    Both,
}

// The planes of a slot.
fn slot_at(planes: &[u64; PLANES], slot: usize) -> Planes
    requires { slot < slots }
    ensures { result ≡ planes_at planes.now slot }
{
    Planes {
        p0: planes[slot],
        p1: planes[slot + SLOTS],
        p2: planes[slot + 2 * SLOTS],
        p3: planes[slot + 3 * SLOTS],
    }
}

fn put_slot(planes: &mut [u64; PLANES], slot: usize, word: Planes)
    requires { slot < slots }
    ensures { Stored slot word planes.old planes.new }
{
    planes[slot] = word.p0;
    planes[slot + SLOTS] = word.p1;
    planes[slot + 2 * SLOTS] = word.p2;
    planes[slot + 3 * SLOTS] = word.p3;
}

// The lane of clause i in the rows of its literals, which are given by their words.
fn mark(clause: &[u32], i: usize, occ: &mut [u64; OCCURRENCES])
    requires i_lt_lane_count { i < lane_count }
    requires by_index { (j : ℕ) → j < length clause.now → get_or clause.now j 0 < row_count }
    ensures { Marked i (map literal_of clause.now) occ.old occ.new }
{
    let own = 1u64 << (i % LANES);
    for word in clause {
        occ[*word as usize * ROW + i / LANES] |= own;
    }
}

// The lanes of word w from number k on.
pub fn past(k: usize, w: usize) -> u64
    requires { lanes * w ≤ k }
    ensures { (j : ℕ) → j < lanes → bit result j ≡ leb k (lanes * w + j) }
{
    let left = k - LANES * w;
    if left < LANES {
        !((1u64 << left) - 1)
    } else {
        0
    }
}

// The lanes of word w of the clauses of a kind.
fn lanes_of(planes: &[u64; PLANES], w: usize, kind: Kind) -> u64
    requires { w < row_words }
    ensures { Told (test_of kind) planes.now first_counter second_counter w result }
{
    let first = slot_at(planes, FIRST + w);
    match kind {
        Kind::Zero => first.zeros(),
        Kind::Few => first.zeros() & slot_at(planes, SECOND + w).at_most_two(),
        Kind::Lone => first.ones() & slot_at(planes, SECOND + w).zeros(),
        Kind::Both => first.zeros() & slot_at(planes, SECOND + w).zeros(),
    }
}
