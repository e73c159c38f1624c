// A tally beside an assignment, which the host keeps and lends with the sheet (02, paper 2): for
// each clause the number of its met literals, and the number of clauses that are false.
#![tactic(auto)]

mod number;

ghost use Rattle.std.specs.Prelude.{◌≡◌, length};
ghost use Rattle.formula.specs.Formula.{clause_limit};
ghost use Rattle.formula.specs.Reading.{formula_of};
ghost use Rattle.tally.specs.Tally.{recounted, tally_begin, tally_toggle, tally_holds, tally_in};
ghost use Rattle.tally.specs.Machine.{Comes, changed, Passed};

use formula::Sheet;
use number::{Change, changed};
use words::{Assignment, Reason, Refused, WORDS};

// A number for each clause that a sheet can have.
pub const NUMBERS: usize = formula::CLAUSE_LIMIT as usize;

// The number of false clauses after a clause's number went from `old` to `new`.
fn recounted(old: u8, new: u8, unmet: u32) -> u32
    ensures { result ≡ recounted old new unmet }
{
    match (old, new) {
        (0, 0) => unmet,
        (0, _) => unmet.saturating_sub(1).min(formula::CLAUSE_LIMIT),
        (_, 0) => unmet.saturating_add(1).min(formula::CLAUSE_LIMIT),
        _ => unmet,
    }
}

// One pass over the clauses, in the order of the sheet: their numbers are changed, and the false
// clauses recounted.
fn pass(sheet: &Sheet, change: Change, met: &mut [u8], unmet: u32) -> u32
    requires { length met.old ≡ clause_limit }
    ensures { Passed (changed change) (formula_of sheet.now).clauses met.old unmet met.new result }
{
    let mut count = unmet;
    for i in 0..sheet.count {
        let old = met[i];
        let new = changed(sheet.clause(i), change, old);
        met[i] = new;
        count = recounted(old, new, count);
    }
    count
}

// Begins the tally of a sheet.
pub fn begin(
    bytes: &[u8],
    marks: &mut [u32; WORDS],
    met: &mut [u8; NUMBERS],
    unmet: &mut u32,
) -> Result<(), Refused>
    ensures { Comes (λ _. tally_begin bytes.now)
        (tally_in marks.old met.old unmet.old)
        result (tally_in marks.new met.new unmet.new) }
{
    let mut sheet = Sheet::empty();
    sheet.read(bytes)?;
    let none = Assignment::zero();
    none.store(marks);
    *met = [0; NUMBERS];
    *unmet = pass(&sheet, Change::Count(none), met, sheet.count as u32);
    Ok(())
}

// Toggles one variable.
pub fn toggle(
    bytes: &[u8],
    variable: u32,
    marks: &mut [u32; WORDS],
    met: &mut [u8; NUMBERS],
    unmet: &mut u32,
) -> Result<(), Refused>
    ensures { Comes (tally_toggle bytes.now variable)
        (tally_in marks.old met.old unmet.old)
        result (tally_in marks.new met.new unmet.new) }
{
    let mut sheet = Sheet::empty();
    sheet.read(bytes)?;
    if variable == 0 || sheet.n < variable {
        return Err(Reason::NoSuchVariable.at(0));
    }
    let before = Assignment::from_words(marks);
    let after = before.toggled(variable - 1);
    after.store(marks);
    *unmet = pass(&sheet, Change::Toggle(after, variable), met, *unmet);
    Ok(())
}

// Whether all clauses hold, from the tally alone.
pub fn holds(unmet: u32) -> bool
    ensures { result ≡ tally_holds unmet }
{
    unmet == 0
}
