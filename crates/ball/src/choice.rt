// The clause whose literals a call tries, and the variables that clauses force to stay.
ghost use Rattle.std.specs.Prelude.{◌≡◌, List, ℕ, ◌≤◌, ◌<◌};
ghost use Rattle.words.specs.Machine.{set_of};
ghost use Rattle.planes.specs.Machine.{FirstFound};
ghost use Rattle.ball.specs.Ball.{State};
ghost use Rattle.ball.specs.Machine.{state_in, Ready, Shows, Seen, Standing, is_spared, FirstFalse, Selected, is_new, Gathered, Forces};

use crate::path::Path;
use planes::{Kind, Occurrences, PLANES, TableRow};
use words::Set;

// The first clause that meets L, from the false clause `from` on and before `end`: only false
// clauses are looked at, and none where no variable is forced.
fn first_lone(
    occ: &Occurrences,
    planes: &[u64; PLANES],
    at: Path,
    from: usize,
    end: usize,
) -> Option<usize>
    requires { (from ≤ occ.now.count) × (end ≤ occ.now.count) }
    ensures { (cells : List ℕ) → Ready occ.now.count cells occ.now.table → Shows occ.now.count cells (state_in at) planes.now →
        Standing occ.now.count cells (state_in at) (set_of at.forced) → FirstFalse occ.now.count cells (state_in at) from →
        from < occ.now.count → FirstFound from end (is_spared occ.now.count cells (state_in at)) result }
{
    let forced = at.forced;
    if !forced.meets(forced) {
        return None;
    }
    let mut next = Some(from);
    while let Some(i) = next {
        if end <= i {
            return None;
        }
        if occ.set_at(i).meets(forced) {
            return Some(i);
        }
        next = occ.next(TableRow::NONE, Kind::Zero, planes, i + 1);
    }
    None
}

// The clause that a call takes, where `first` is the first false one: the first that meets S or L,
// or else that one.
pub fn choose(occ: &Occurrences, planes: &[u64; PLANES], at: Path, first: usize) -> usize
    requires { Seen occ.now.count occ.now.table planes.now (state_in at) × (first < occ.now.count) }
    ensures { (cells : List ℕ) → Ready occ.now.count cells occ.now.table → Shows occ.now.count cells (state_in at) planes.now →
        Standing occ.now.count cells (state_in at) (set_of at.forced) → FirstFalse occ.now.count cells (state_in at) first →
        Selected occ.now.count cells (state_in at) result }
{
    let few = occ.next(TableRow::NONE, Kind::Few, planes, first);
    let end = few.unwrap_or(occ.count);
    let lone = first_lone(occ, planes, at, first, end);
    lone.or(few).unwrap_or(first)
}

// The variables of some clauses, added to those of `before`: of the clauses with one literal met and
// none open, those that hold a row's literal, or all where there is none to hold.
fn gather(occ: &Occurrences, row: TableRow, planes: &[u64; PLANES], before: Set) -> Set
    ensures { (cells : List ℕ) (s : State) → Ready occ.now.count cells occ.now.table → Shows occ.now.count cells s planes.now →
        Gathered occ.now.count cells (is_new cells s row.word) (set_of before) (set_of result) }
{
    let mut named = before;
    let mut next = occ.next(row, Kind::Lone, planes, 0);
    while let Some(i) = next {
        let own = occ.set_at(i);
        named = named.united(own);
        next = occ.next(row, Kind::Lone, planes, i + 1);
    }
    named
}

// The path with what is forced there, where it came with what was forced before.
pub fn force(occ: &Occurrences, row: TableRow, planes: &[u64; PLANES], at: Path) -> Path
    ensures result_value { state_in result ≡ state_in at }
    ensures by_index { (cells : List ℕ) → Ready occ.now.count cells occ.now.table → Shows occ.now.count cells (state_in at) planes.now →
        Forces occ.now.count cells (state_in at) row.word (set_of at.forced) (set_of result.forced) }
{
    let assignment = at.assignment;
    let flipped = at.flipped;
    let before = at.forced;
    let named = gather(occ, row, planes, before);
    let forced = named.without(flipped);
    Path {
        assignment,
        flipped,
        forced,
    }
}
