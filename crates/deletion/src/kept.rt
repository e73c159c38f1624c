// The numbers of the clauses that are kept.
ghost use Rattle.std.specs.Prelude.{◌≡◌, [], ◌∷◌, ◌<◌, ◌≤◌, length};

use formula::CLAUSES;
use std::marker::Model;

// The numbers of clauses, rising. They stand at the end of an array, so that the next one, which is
// smaller, goes before them.
#[derive(Drop)]
pub struct Kept {
    numbers: [u16; CLAUSES],
    at: usize,
}

impl Model for Kept {
    ghost use Rattle.std.specs.Prelude.{List, ℕ, ◌≤◌, drop};
    ghost use Rattle.formula.specs.Formula.{clause_limit};

    ghost Value = { List ℕ };

    ghost view = { λ k. drop k.at k.numbers };

    ghost invariant = { λ k. k.at ≤ clause_limit };
}

impl Kept {
    ghost use Rattle.formula.specs.Formula.{clause_limit};
    ghost use Rattle.deletion.specs.Core.{list_after};

    pub fn none() -> Kept
        ensures { result ≡ [] }
    {
        Kept {
            numbers: [0; CLAUSES],
            at: CLAUSES,
        }
    }

    pub fn numbers(&self) -> &[u16]
        ensures { result.now ≡ self.now }
    {
        &self.numbers[self.at..]
    }

    // The number i goes before the others.
    pub fn put(&mut self, i: usize)
        requires { (i < clause_limit) × (length self.old < clause_limit) }
        ensures { self.new ≡ i ∷ self.old }
    {
        self.at -= 1;
        self.numbers[self.at] = i as u16;
    }

    // They go to the first cells of a list: their number.
    pub fn store(&self, list: &mut [u16]) -> usize
        requires { length self.now ≤ length list.old }
        ensures cells { list.new ≡ list_after self.now list.old }
        ensures count { (result ≡ length self.now) × (result ≤ clause_limit) }
    {
        let _ = &self.at;
        let numbers = self.numbers();
        list[..numbers.len()].copy_from_slice(numbers);
        numbers.len()
    }
}
