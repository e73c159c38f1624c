// The word of a literal, as it stands on the sheet and in the table of clauses.
ghost use Rattle.std.specs.Prelude.{◌≡◌, ◌+◌, ◌<◌};
ghost use Rattle.words.specs.Bits.{width};
ghost use Rattle.words.specs.Machine.{bits_of};
ghost use Rattle.formula.specs.Formula.{bit_of, met, literal_word, literal_of};
ghost use Rattle.formula.specs.Counts.{opposite};
ghost use Rattle.formula.specs.Machine.{IsLiteral};

use words::Assignment;

// A literal over the variables that an assignment has: bit 0 of its word is the sign, and the bits
// above it are the variable.
#[derive(Clone, Copy)]
pub struct Literal {
    pub word: u32,
    pub ghost known: { IsLiteral word },
}

impl Literal {
    // The literal of the variable with bit v.
    pub fn of(positive: bool, v: u32) -> Literal
        requires { v < width }
        ensures { result.word ≡ literal_word (record { variable = v + 1; positive = positive }) }
    {
        let word = 2 * (v + 1);
        Literal {
            word: if positive { word } else { word + 1 },
        }
    }

    // The bit of an assignment that belongs to its variable.
    pub fn bit(self) -> u32
        ensures { (result ≡ bit_of (literal_of self.word)) × (result < width) }
    {
        self.word / 2 - 1
    }

    pub fn is_positive(self) -> bool
        ensures { result ≡ (literal_of self.word).positive }
    {
        self.word % 2 == 0
    }

    // The literal of the same variable with the other sign.
    pub fn opposite(self) -> Literal
        ensures { result.word ≡ opposite self.word }
    {
        Literal {
            word: self.word ^ 1,
        }
    }

    // Whether the assignment meets it.
    pub fn is_met(self, assignment: Assignment) -> bool
        ensures { result ≡ met (bits_of assignment) (literal_of self.word) }
    {
        assignment.test(self.bit()) == self.is_positive()
    }
}
