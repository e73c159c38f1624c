// What the search counts of each clause: how many of its literals are met, and how many are open,
// not met and not flipped.
ghost use Rattle.std.specs.Prelude.{◌≤◌};
ghost use Rattle.words.specs.Bits.{width};
ghost use Rattle.ball.specs.Machine.{Begins, Flips, Toggles, Settles};

use formula::Literal;
use planes::{Occurrences, PLANES, Rows, TableRow};

// The planes of the assignment 0, over n variables.
pub fn start(occ: &Occurrences, n: u32) -> [u64; PLANES]
    requires { n ≤ width }
    ensures { Begins n occ.now.count occ.now.table result }
{
    occ.start(n)
}

// The planes after the flip of a literal that is open: its opposite, met before, is flipped now, so
// that nothing becomes open.
pub fn flip(occ: &Occurrences, literal: Literal, from: &[u64; PLANES], to: &mut [u64; PLANES])
    ensures { Flips occ.now.count literal.word occ.now.table from.now to.new }
{
    let met = Rows::of(literal);
    let open = Rows {
        up: TableRow::NONE,
        down: TableRow::of(literal),
    };
    occ.shift(met, open, from, to);
}

// The planes of a centre after the toggle of a literal that is not met: nothing is flipped, and
// its opposite becomes open.
pub fn toggle(occ: &Occurrences, literal: Literal, from: &[u64; PLANES], to: &mut [u64; PLANES])
    ensures { Toggles occ.now.count literal.word occ.now.table from.now to.new }
{
    let met = Rows::of(literal);
    let open = Rows {
        up: TableRow::of(literal.opposite()),
        down: TableRow::of(literal),
    };
    occ.shift(met, open, from, to);
}

// Whether all clauses are true after `flip`.
pub fn all_true_after(occ: &Occurrences, literal: Literal, planes: &[u64; PLANES]) -> bool
    ensures { Settles occ.now.count literal.word occ.now.table planes.now result }
{
    occ.above_zero_after(Rows::of(literal), planes)
}
