// The balls in order, within the budget: the planes move from each centre to the next.
ghost use Rattle.std.specs.Prelude.{◌≡◌, List, ℕ, ◌^◌, ◌≤◌, ◌<◌, length};
ghost use Rattle.words.specs.Bits.{toggle, width};
ghost use Rattle.words.specs.Machine.{bits_of};
ghost use Rattle.planes.specs.Machine.{plane_cells};
ghost use Rattle.search.specs.Run.{leg_of, centre_count};
ghost use Rattle.ball.specs.Machine.{centred, Ready, Shows};
ghost use Rattle.search.specs.Machine.{blocks_of, search_by, Moves, Reaching, Prepared, progress_in};

use crate::codes::Codes;
use ball::{Ball, Path, counts, force};
use formula::Literal;
use planes::{Kind, Occurrences, PLANES, TableRow};
use tree::Found;
use words::{Assignment, Set};

// One bit: the planes of `at` become those of the answer, which is `at` with bit v toggled.
fn toggle_bit(occ: &Occurrences, planes: &mut [u64; PLANES], at: Assignment, v: u32) -> Assignment
    requires { (v < width) × (length planes.old ≡ plane_cells) }
    ensures moves { Moves occ.now.count occ.now.table (bits_of at) planes.old (bits_of result) planes.new }
    ensures result_value { bits_of result ≡ toggle (bits_of at) v }
{
    let literal = Literal::of(!at.test(v), v);
    let before = *planes;
    counts::toggle(occ, literal, &before, planes);
    at.toggled(v)
}

// The planes of `from` become those of `to`, two assignments of n variables: only the bits in which
// they differ are visited.
fn recentre(occ: &Occurrences, n: u32, planes: &mut [u64; PLANES], from: Assignment, to: Assignment)
    requires k_le_lane_count { (n ≤ width) × (length planes.old ≡ plane_cells) }
    requires from_bound { (bits_of from < 2 ^ n) × (bits_of to < 2 ^ n) }
    ensures { Moves occ.now.count occ.now.table (bits_of from) planes.old (bits_of to) planes.new }
{
    let mut at = from;
    // no `for`: v goes from one differing bit to the next, and not by ones
    let mut v = at.first_difference(to);
    while v < n {
        at = toggle_bit(occ, planes, at, v);
        v = at.first_difference(to);
    }
}

// How many flips the search of a ball has: none where some clause has no literals, for then no call
// has a literal to try.
pub fn flips(occ: &Occurrences, planes: &[u64; PLANES], radius: u32) -> u32
    ensures { (cells : List ℕ) → Ready occ.now.count cells occ.now.table → Shows occ.now.count cells (centred 0) planes.now →
        Reaching occ.now.count cells radius result }
{
    match occ.next(TableRow::NONE, Kind::Both, planes, 0) {
        None => radius,
        Some(_) => 0,
    }
}

// What some balls come to within a budget, with the calls made. Where that is spent, the ball that
// did not fit is `next`, and not counted.
#[derive(Clone, Copy)]
pub enum Progress {
    Clear(Assignment, u32),
    None(u32),
    Spent { calls: u32, next: u64 },
}

// The balls from `start` on in order, up to the first that finds a model or does not fit into the
// budget. The planes come in as those of the assignment 0.
pub fn balls(
    ball: &Ball,
    codes: &Codes,
    planes: &mut [u64; PLANES],
    reach: u32,
    start: u64,
) -> Progress
    requires { Prepared ball.now codes.now planes.old reach start }
    ensures { progress_in (centre_count (blocks_of codes.now)) result ≡ leg_of (search_by ball.now.sheet.now codes.now) ball.now.budget start }
{
    let mut at = Assignment::zero();
    let mut calls = 0;
    // no `for`: how many balls there are is not known before, for M may be past any number
    let mut i = start;
    while let Some(centre) = codes.centre(i) {
        recentre(ball.occ, codes.n, planes, at, centre);
        at = centre;
        let path = Path {
            assignment: centre,
            flipped: Set::zero(),
            forced: Set::zero(),
        };
        let from = force(ball.occ, TableRow::NONE, planes, path);
        match ball.call(planes, from, reach, calls) {
            Found::Clear(model, made) => return Progress::Clear(model, made),
            Found::Spent(_) => return Progress::Spent { calls, next: i },
            Found::None(made) => calls = made,
        }
        i += 1;
    }
    Progress::None(calls)
}
