// Horn formulas, decided by rounds from the assignment 0 within a budget of rounds.
#![tactic(auto)]

ghost use Rattle.std.specs.Prelude.{◌≡◌, true, map, ℕ, ◌<◌, leb, length, get_or};
ghost use Rattle.formula.specs.Formula.{literal_of};
ghost use Rattle.formula.specs.Machine.{IsLiteral, held};
ghost use Rattle.formula.specs.Reading.{formula_of};
ghost use Rattle.tree.specs.Budget.{answer};
ghost use Rattle.tree.specs.Machine.{answer_in};
ghost use Rattle.planes.specs.Machine.{word_of};
ghost use Rattle.horn.specs.Horn.{positives, is_horn, rounds};
ghost use Rattle.horn.specs.Machine.{first_word, Sets};

use formula::{ClauseRows, Literal, Sheet};
use planes::{Kind, Occurrences, PLANES, Rows, TableRow};
use tree::Found;
use words::Assignment;

// A clause, which is given by the words of its literals, has at most one positive literal: its word
// is even.
fn at_most_one(clause: &[u32]) -> bool
    ensures { result ≡ leb (length (positives (map literal_of clause.now))) 1 }
{
    clause.iter().filter(|word| **word % 2 == 0).count() <= 1
}

// Each of the clauses in a table has at most one positive literal.
pub fn is_horn(clauses: ClauseRows<'_>) -> bool
    ensures { result ≡ is_horn (held clauses.entry.count clauses.entry.cells.now) }
{
    for i in 0..clauses.count {
        if !at_most_one(clauses.clause(i)) {
            return false;
        }
    }
    true
}

// The first positive literal of a clause.
fn first_positive(clause: &[u32]) -> Option<Literal>
    requires { (j : ℕ) → j < length clause.now → IsLiteral (get_or clause.now j 0) }
    ensures { word_of result ≡ first_word (positives (map literal_of clause.now)) }
{
    for word in clause {
        let literal = Literal { word: *word };
        if literal.is_positive() {
            return Some(literal);
        }
    }
    None
}

// The planes of an assignment that does not meet the literal become those of the one that does: of
// the two numbers only that of met literals moves.
fn set(occ: &Occurrences, literal: Literal, planes: &mut [u64; PLANES])
    ensures { Sets occ.now.count literal.word occ.now.table planes.old planes.new }
{
    let positive = Rows {
        up: TableRow::NONE,
        down: TableRow::NONE,
    };
    let before = *planes;
    occ.shift(Rows::of(literal), positive, &before, planes);
}

// The answer within the budget, of a sheet whose clauses are Horn.
pub fn rounds(sheet: &Sheet, budget: u32) -> Found
    requires { is_horn (formula_of sheet.now).clauses ≡ true }
    ensures { answer_in result ≡ answer budget (rounds sheet.now.n (formula_of sheet.now).clauses) }
{
    let occ = Occurrences::of(sheet);
    let mut planes = occ.start(sheet.n);
    let mut at = Assignment::zero();
    for made in 0..budget {
        let Some(first) = occ.next(TableRow::NONE, Kind::Zero, &planes, 0) else {
            return Found::Clear(at, made + 1);
        };
        let Some(literal) = first_positive(sheet.clause(first)) else {
            return Found::None(made + 1);
        };
        set(&occ, literal, &mut planes);
        at = at.toggled(literal.bit());
    }
    Found::Spent(budget)
}
