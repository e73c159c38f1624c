// Plain splitting within a budget of calls: the variables are set in order, each as 0 and then as 1.
#![tactic(auto)]

mod clauses;

ghost use Rattle.std.specs.Prelude.{◌≡◌, List, ℕ, ◌≤◌};
ghost use Rattle.words.specs.Bits.{width};
ghost use Rattle.formula.specs.Reading.{formula_of};
ghost use Rattle.tree.specs.Budget.{answer};
ghost use Rattle.tree.specs.Budget.{settle};
ghost use Rattle.tree.specs.Machine.{answer_in};
ghost use Rattle.splitting.specs.Splitting.{split};
ghost use Rattle.splitting.specs.Machine.{node_in, Standing, call_from};

use clauses::OPEN;
use formula::{Literal, Sheet};
use planes::{Occurrences, ROW};
use tree::Found;
use words::Assignment;

// One call, with the first `set` variables set as in `at`, where `unmet` are the clauses that none
// of them meets, and `calls` calls made before it.
fn call(
    occ: &Occurrences,
    rows: &[u64; OPEN],
    n: u32,
    unmet: &[u64; ROW],
    at: Assignment,
    set: u32,
    calls: u32,
    budget: u32,
) -> Found
    requires n_le_width { n ≤ width }
    requires by_index { (cells : List ℕ) × Standing n occ.now.count cells occ.now.table rows.now (node_in set at) unmet.now }
    ensures { (cells : List ℕ) → Standing n occ.now.count cells occ.now.table rows.now (node_in set at) unmet.now →
        answer_in result ≡ settle budget calls (call_from n occ.now.count cells (node_in set at)) }
{
    if tree::exhausted(calls, budget) {
        return Found::Spent(budget);
    }
    if clauses::any_closed(occ, rows, set, unmet) {
        return Found::None(calls + 1);
    }
    // with all variables set no clause is open: is any left?
    if !clauses::any_closed(occ, rows, n, unmet) {
        return Found::Clear(at, calls + 1);
    }
    let one = at.toggled(set);
    let mut next = [0u64; ROW];
    clauses::without(occ, Literal::of(false, set), unmet, &mut next);
    let tried = call(occ, rows, n, &next, at, set + 1, calls + 1, budget);
    let Found::None(made) = tried else {
        return tried;
    };
    clauses::without(occ, Literal::of(true, set), unmet, &mut next);
    call(occ, rows, n, &next, one, set + 1, made, budget)
}

// The answer within the budget, of the clauses of a sheet.
pub fn split(sheet: &Sheet, budget: u32) -> Found
    ensures { answer_in result ≡ answer budget (split sheet.now.n (formula_of sheet.now).clauses) }
{
    let occ = Occurrences::of(sheet);
    let rows = clauses::open_rows(&occ, sheet.n);
    let all = clauses::all(&occ);
    call(&occ, &rows, sheet.n, &all, Assignment::zero(), 0, 0, budget)
}
