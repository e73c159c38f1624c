// The trial of all assignments, and whether clauses are Horn.
ghost use Rattle.std.specs.Prelude.{◌≡◌, ◌≤◌};
ghost use Rattle.trials.specs.Brute.{falsified, meets_all, reversed, first_model, in_all_models, every_horn};

// A clause: the bits of its positive and of its negative variables.
#[derive(Clone, Copy)]
pub struct Clause {
    pub positive: u32,
    pub negative: u32,
}

impl Clause {
    fn is_falsified(self, assignment: u32) -> bool
        ensures { result ≡ falsified assignment self }
    {
        self.positive & assignment == 0 && self.negative & assignment == self.negative
    }
}

// Whether the assignment makes every clause true.
pub fn meets(assignment: u32, clauses: &[Clause]) -> bool
    ensures { result ≡ meets_all assignment clauses.now }
{
    clauses
        .iter()
        .all(|clause| !clause.is_falsified(assignment))
}

// The lowest n bits of x the other way round.
fn reversed(x: u32, n: u32) -> u32
    requires { n ≤ 12 }
    ensures { result ≡ reversed x n }
{
    let mut bits = 0;
    for v in 0..n {
        bits = 2 * bits + (x >> v) % 2;
    }
    bits
}

// The first assignment of n variables that does, in the order where variable 1 weighs most.
pub fn first_model(n: u32, clauses: &[Clause]) -> Option<u32>
    requires { n ≤ 12 }
    ensures { result ≡ first_model n clauses.now }
{
    (0..1u32 << n)
        .map(|x| reversed(x, n))
        .find(|m| meets(*m, clauses))
}

// The variables that are 1 in every model of n variables; all where there is no model.
pub fn in_all_models(n: u32, clauses: &[Clause]) -> u32
    requires { n ≤ 12 }
    ensures { result ≡ in_all_models n clauses.now }
{
    (0..1u32 << n)
        .filter(|m| meets(*m, clauses))
        .fold(u32::MAX, |common, m| common & m)
}

// Whether no clause has two positive variables.
pub fn is_horn(clauses: &[Clause]) -> bool
    ensures { result ≡ every_horn clauses.now }
{
    clauses
        .iter()
        .all(|clause| clause.positive.count_ones() <= 1)
}
