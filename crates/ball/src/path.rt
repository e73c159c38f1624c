// Where a call stands in its ball.
ghost use Rattle.std.specs.Prelude.{◌≡◌, not, ◌&&◌};
ghost use Rattle.words.specs.Bits.{bit};
ghost use Rattle.words.specs.Machine.{set_of};
ghost use Rattle.formula.specs.Formula.{bit_of, literal_of};
ghost use Rattle.ball.specs.Ball.{is_flipped, flip};
ghost use Rattle.ball.specs.Machine.{state_in};

use formula::Literal;
use words::{Assignment, Set};

// Where a call stands: the assignment, the variables flipped on the way to it, and those that are
// forced to stay: of their literals that are not met each has a lone opposite.
#[derive(Clone, Copy)]
pub struct Path {
    pub assignment: Assignment,
    pub flipped: Set,
    pub forced: Set,
}

impl Path {
    // The variable of a literal is neither flipped nor forced.
    pub fn is_free(self, literal: Literal) -> bool
        ensures { result ≡ (not (bit (set_of self.forced) (bit_of (literal_of literal.word))) && not (is_flipped (state_in self) (literal_of literal.word))) }
    {
        let flipped = self.flipped;
        let forced = self.forced;
        let barred = flipped.united(forced);
        !barred.test(literal.bit())
    }

    pub fn flip(self, literal: Literal) -> Path
        ensures result_value { state_in result ≡ flip (state_in self) (literal_of literal.word) }
        ensures forced_value { result.forced ≡ self.forced }
    {
        let assignment = self.assignment;
        let flipped = self.flipped;
        let forced = self.forced;
        Path {
            assignment: assignment.toggled(literal.bit()),
            flipped: flipped.toggled(literal.bit()),
            forced,
        }
    }
}
