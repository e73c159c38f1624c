// Alike: whether two sheets have the same number of variables and the same clauses, each taken as
// a set of literals.
#![tactic(auto)]

ghost use Rattle.std.specs.Prelude.{◌≡◌, MatchResult};
ghost use Rattle.words.specs.Refusals.{number_of};
ghost use Rattle.formula.specs.Sheet.{accepted, refused, parse};
ghost use Rattle.formula.specs.Reading.{formula_of};
ghost use Rattle.alike.specs.Alike.{alike, comparison};
ghost use Rattle.alike.specs.Machine.{number_of_sheet, comparison_in};

use formula::Sheet;
use words::Refused;

// Which sheet a refusal is about.
#[derive(Clone, Copy, PartialEq, Eq, Debug)]
pub enum Which {
    First = 1,
    Second = 2,
}

impl Which {
    pub fn number(self) -> u32
        ensures { result ≡ number_of_sheet self }
    {
        self as u32
    }

    // Reads this one of the two sheets.
    fn read(self, bytes: &[u8], sheet: &mut Sheet) -> Result<(), Declined>
        ensures { MatchResult result (λ _. parse bytes.now ≡ accepted (formula_of sheet.new))
            (λ d. (d.sheet ≡ self) × (parse bytes.now ≡ refused (number_of d.refused.reason) d.refused.place)) }
    {
        sheet.read(bytes).map_err(|refused| Declined {
            sheet: self,
            refused,
        })
    }
}

// The first refusal, and the sheet that it is about.
#[derive(Clone, Copy, PartialEq, Eq, Debug)]
pub struct Declined {
    pub sheet: Which,
    pub refused: Refused,
}

// The formulas of two sheets are alike.
fn alike(f: &Sheet, g: &Sheet) -> bool
    ensures { result ≡ alike (formula_of f.now) (formula_of g.now) }
{
    f.n == g.n && formula::same_clauses(f.clauses(), g.clauses())
}

// Whether any two lists of bytes are alike sheets: the first sheet is read, then the second.
pub fn compare(first: &[u8], second: &[u8]) -> Result<bool, Declined>
    ensures { comparison_in result ≡ comparison first.now second.now }
{
    let mut f = Sheet::empty();
    Which::First.read(first, &mut f)?;
    let mut g = Sheet::empty();
    Which::Second.read(second, &mut g)?;
    Ok(alike(&f, &g))
}
