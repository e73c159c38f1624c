// The number of one clause, which is given by the words of its literals: its met literals counted,
// or moved by a toggle.
ghost use Rattle.std.specs.Prelude.{◌≡◌, cond, ◌+◌, ◌-◌, ◌≤◌, min, map};
ghost use Rattle.words.specs.Bits.{width};
ghost use Rattle.words.specs.Lists.{count};
ghost use Rattle.words.specs.Machine.{bits_of};
ghost use Rattle.formula.specs.Formula.{met, length_limit, literal_of, WellFormedClause};
ghost use Rattle.tally.specs.Tally.{moved};
ghost use Rattle.tally.specs.Machine.{changed};

use formula::Literal;
use words::Assignment;

// What becomes of the clauses' numbers: they are counted under an assignment, or moved after the
// toggle of a variable that made it.
#[derive(Clone, Copy)]
pub enum Change {
    Count(Assignment),
    Toggle(Assignment, u32),
}

// How many literals of a clause are met.
fn met_count(clause: &[u32], assignment: Assignment) -> u8
    requires { WellFormedClause width (map literal_of clause.now) }
    ensures { result ≡ count (met (bits_of assignment)) (map literal_of clause.now) }
{
    let mut number: u8 = 0;
    for word in clause {
        let literal = Literal { word: *word };
        number += u8::from(literal.is_met(assignment));
    }
    number
}

// One up or down, and then within 0 to the clause's length.
fn stepped(number: u8, up: bool, length: u8) -> u8
    requires { length ≤ length_limit }
    ensures { result ≡ min (cond up (number + 1) (number - 1)) length }
{
    if up {
        number.saturating_add(1).min(length)
    } else {
        number.saturating_sub(1).min(length)
    }
}

// The number of a clause after the toggle of the variable: the literal that names it decides.
fn moved(clause: &[u32], assignment: Assignment, variable: u32, number: u8) -> u8
    requires { WellFormedClause width (map literal_of clause.now) }
    ensures { result ≡ moved (bits_of assignment) variable (map literal_of clause.now) number }
{
    let Some(word) = clause.iter().find(|word| **word / 2 == variable) else {
        return number;
    };
    let literal = Literal { word: *word };
    stepped(number, literal.is_met(assignment), clause.len() as u8)
}

// What a change makes of the number of a clause.
pub fn changed(clause: &[u32], change: Change, number: u8) -> u8
    requires { WellFormedClause width (map literal_of clause.now) }
    ensures { result ≡ changed change (map literal_of clause.now) number }
{
    match change {
        Change::Count(assignment) => met_count(clause, assignment),
        Change::Toggle(assignment, variable) => moved(clause, assignment, variable, number),
    }
}
