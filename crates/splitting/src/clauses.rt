// Sets of clauses, 64 to a word: a call keeps the clauses that no set variable meets, and a table
// has those with a variable that is not set yet.
ghost use Rattle.std.specs.Prelude.{◌≡◌, not, ◌&&◌, List, ℕ, ◌≤◌, ◌<◌};
ghost use Rattle.words.specs.Bits.{bit, width};
ghost use Rattle.formula.specs.Machine.{Table};
ghost use Rattle.planes.specs.Machine.{lanes, Occurs};
ghost use Rattle.splitting.specs.Splitting.{Node};
ghost use Rattle.splitting.specs.Machine.{All, Without, Unmet, Opens, some_closed};

use formula::Literal;
use planes::{Occurrences, ROW};

// The cells of the table of open clauses: a row for each number of set variables.
pub const OPEN: usize = (words::WIDTH as usize + 1) * ROW;

// All clauses.
pub fn all(occ: &Occurrences) -> [u64; ROW]
    ensures { All occ.now.count result }
{
    let mut set = [0u64; ROW];
    for w in 0..occ.words() {
        set[w] = !planes::past(occ.count, w);
    }
    set
}

// The lanes of a word that are not in another.
fn outside(word: u64, other: u64) -> u64
    ensures { (j : ℕ) → j < lanes → bit result j ≡ (bit word j && not (bit other j)) }
{
    word & !other
}

// The clauses of a set that do not hold the literal.
pub fn without(occ: &Occurrences, literal: Literal, from: &[u64; ROW], to: &mut [u64; ROW])
    ensures { Without occ.now.count literal.word occ.now.table from.now to.new }
{
    let row = literal.word as usize * ROW;
    for w in 0..occ.words() {
        to[w] = outside(from[w], occ.table[row + w]);
    }
}

// For each number of set variables, up to n, the clauses with a variable beyond them: none beyond
// n, and from there down the clauses that hold the variable, whatever its sign, come in.
pub fn open_rows(occ: &Occurrences, n: u32) -> [u64; OPEN]
    requires { n ≤ width }
    ensures { (k : ℕ) (cells : List ℕ) → Table n k cells → Occurs k cells occ.now.table → Opens n k cells result }
{
    let mut rows = [0u64; OPEN];
    for at in (0..n as usize * ROW).rev() {
        let positive = 2 * (at / ROW + 1) * ROW + at % ROW;
        rows[at] = rows[at + ROW] | occ.table[positive] | occ.table[positive + ROW];
    }
    rows
}

// Whether some clause of the set has no variable beyond the first j.
pub fn any_closed(occ: &Occurrences, rows: &[u64; OPEN], j: u32, set: &[u64; ROW]) -> bool
    requires { j ≤ width }
    ensures { (n : ℕ) (cells : List ℕ) (x : Node) → j ≤ n → Opens n occ.now.count cells rows.now →
        Unmet occ.now.count cells x set.now → result ≡ some_closed occ.now.count cells j x }
{
    let row = j as usize * ROW;
    for w in 0..occ.words() {
        if outside(set[w], rows[row + w]) != 0 {
            return true;
        }
    }
    false
}
