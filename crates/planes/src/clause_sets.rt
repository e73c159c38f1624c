// The set of the variables of each clause, in the cells of the occurrence table after its rows.
ghost use Rattle.std.specs.Prelude.{◌≡◌, map, ℕ, ◌<◌, length, get_or};
ghost use Rattle.words.specs.Machine.{set_of};
ghost use Rattle.formula.specs.Formula.{literal_of};
ghost use Rattle.formula.specs.Machine.{IsLiteral};
ghost use Rattle.planes.specs.Machine.{lane_count, set_at, NamedBy, SetStored};

use crate::{OCCURRENCES, SETS};
use formula::Literal;
use words::Set;

// The variables of a clause, which is given by the words of its literals.
pub fn clause_set(clause: &[u32]) -> Set
    requires { (j : ℕ) → j < length clause.now → IsLiteral (get_or clause.now j 0) }
    ensures { NamedBy (set_of result) (map literal_of clause.now) }
{
    let mut variables = Set::zero();
    for word in clause {
        let literal = Literal { word: *word };
        let own = Set::zero().toggled(literal.bit());
        variables = variables.united(own);
    }
    variables
}

pub fn put_set(occ: &mut [u64; OCCURRENCES], i: usize, variables: Set)
    requires { i < lane_count }
    ensures { SetStored i (set_of variables) occ.old occ.new }
{
    occ[SETS + 2 * i] = (variables.bits % (1u128 << 64)) as u64;
    occ[SETS + 2 * i + 1] = (variables.bits >> 64) as u64;
}

pub fn set_at(occ: &[u64; OCCURRENCES], i: usize) -> Set
    requires { i < lane_count }
    ensures { set_of result ≡ set_at occ.now i }
{
    Set {
        bits: u128::from(occ[SETS + 2 * i + 1]) << 64 | u128::from(occ[SETS + 2 * i]),
    }
}
