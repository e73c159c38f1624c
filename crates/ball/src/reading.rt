// The reading of one clause, literal by literal. (The search holds the readings of all clauses in
// planes: counts.rt.)
ghost use Rattle.std.specs.Prelude.{◌≡◌, [], ◌≤◌, get_or};
ghost use Rattle.words.specs.Machine.{bits_of};
ghost use Rattle.formula.specs.Formula.{length_limit, literal_of};
ghost use Rattle.formula.specs.Reading.{formula_of};
ghost use Rattle.ball.specs.Ball.{reading};
ghost use Rattle.ball.specs.Machine.{reading_in, Counted};

use formula::{Literal, Sheet};
use words::Assignment;

// How many literals of a clause are met, and how many are open.
#[derive(Clone, Copy)]
pub struct Reading {
    pub met: u32,
    pub open: u32,
}

impl Reading {
    fn with_literal(self, assignment: Assignment, flipped: Assignment, literal: Literal) -> Reading
        requires { (self.met ≤ length_limit) × (self.«open» ≤ length_limit) }
        ensures { Counted (record { assignment = bits_of assignment; flipped = bits_of flipped }) (literal_of literal.word) (reading_in self) (reading_in result) }
    {
        if literal.is_met(assignment) {
            return Reading {
                met: self.met + 1,
                open: self.open,
            };
        }
        if flipped.test(literal.bit()) {
            return self;
        }
        Reading {
            met: self.met,
            open: self.open + 1,
        }
    }
}

// The reading of clause i of a sheet under an assignment and a set of flipped variables. Past the
// last clause there is no literal to count.
pub fn clause_reading(
    sheet: &Sheet,
    i: usize,
    assignment: Assignment,
    flipped: Assignment,
) -> Reading
    ensures { reading_in result ≡ reading (record { assignment = bits_of assignment; flipped = bits_of flipped })
        (get_or (formula_of sheet.now).clauses i []) }
{
    let mut reading = Reading { met: 0, open: 0 };
    if sheet.count <= i {
        return reading;
    }
    for j in 0..sheet.length_at(i) {
        let literal = sheet.literal(i, j);
        reading = reading.with_literal(assignment, flipped, literal);
    }
    reading
}
