// The search in one ball: calls, and the literals that a call tries, which call each other.
ghost use Rattle.std.specs.Prelude.{◌≡◌};
ghost use Rattle.ball.specs.Machine.{Ready};

use crate::path::Path;
use crate::{choice, counts};
use formula::{Literal, Sheet};
use planes::{Kind, Occurrences, PLANES, TableRow};
use tree::Found;

// What all calls share: the sheet, where its literals occur, and how many calls may be made.
#[derive(Clone, Copy)]
pub struct Ball<'a> {
    pub sheet: &'a Sheet,
    pub occ: &'a Occurrences,
    pub budget: u32,
    pub ghost ready: { Ready occ.now.count sheet.now.cells occ.now.table },
    pub ghost whole: { occ.now.count ≡ sheet.now.count },
}

impl Ball<'_> {
    ghost use Rattle.std.specs.Prelude.{◌-◌, ◌<◌};
    ghost use Rattle.words.specs.Machine.{set_of};
    ghost use Rattle.formula.specs.Formula.{literal_of};
    ghost use Rattle.formula.specs.Machine.{clause_at};
    ghost use Rattle.tree.specs.Budget.{settle};
    ghost use Rattle.tree.specs.Machine.{answer_in};
    ghost use Rattle.ball.specs.Ball.{flip};
    ghost use Rattle.ball.specs.Machine.{state_in, Shows, Standing, Trying, Attempting, LastAttempt, call_from, literals_from};

    // One call, with `left` flips left and `calls` calls made before it.
    #[cycle(attempt_call_literals)]
    pub fn call(&self, planes: &[u64; PLANES], at: Path, left: u32, calls: u32) -> Found
        requires shows { Shows self.now.occ.now.count self.now.sheet.now.cells (state_in at) planes.now }
        requires standing { 0 < left → Standing self.now.occ.now.count self.now.sheet.now.cells (state_in at) (set_of at.forced) }
        ensures { answer_in result ≡ settle self.now.budget calls (call_from self.now.occ.now.count self.now.sheet.now.cells left (state_in at)) }
    {
        if tree::exhausted(calls, self.budget) {
            return Found::Spent(self.budget);
        }
        let Some(first) = self.occ.next(TableRow::NONE, Kind::Zero, planes, 0) else {
            let model = at.assignment;
            return Found::Clear(model, calls + 1);
        };
        if left == 0 {
            return Found::None(calls + 1);
        }
        let clause = choice::choose(self.occ, planes, at, first);
        if left == 1 {
            return self.last_literals(planes, at, clause, calls + 1);
        }
        self.literals(planes, at, clause, left, calls + 1)
    }

    // The literals of a clause that are tried, one after the other; `next` is where their planes go.
    #[cycle(attempt_call_literals)]
    fn literals(
        &self,
        planes: &[u64; PLANES],
        at: Path,
        clause: usize,
        left: u32,
        calls: u32,
    ) -> Found
        requires { Trying self.now.occ.now.count self.now.sheet.now.cells self.now.occ.now.table planes.now (state_in at) (set_of at.forced) clause 0 left calls self.now.budget }
        ensures { answer_in result ≡ settle self.now.budget calls
            (literals_from self.now.occ.now.count self.now.sheet.now.cells left (state_in at) (clause_at self.now.sheet.now.cells clause)) }
    {
        let mut next = [0u64; PLANES];
        let mut made = calls;
        for j in 0..self.sheet.length_at(clause) {
            let literal = self.sheet.literal(clause, j);
            if at.is_free(literal) {
                let tried = self.attempt(planes, &mut next, at, literal, left, made);
                let Found::None(more) = tried else {
                    return tried;
                };
                made = more;
            }
        }
        Found::None(made)
    }

    // One literal that is tried: a call with one flip less.
    #[cycle(attempt_call_literals)]
    fn attempt(
        &self,
        planes: &[u64; PLANES],
        next: &mut [u64; PLANES],
        at: Path,
        literal: Literal,
        left: u32,
        calls: u32,
    ) -> Found
        requires { Attempting self.now.occ.now.count self.now.sheet.now.cells self.now.occ.now.table planes.now (state_in at) (set_of at.forced) literal.word left calls self.now.budget }
        ensures { answer_in result ≡ settle self.now.budget calls
            (call_from self.now.occ.now.count self.now.sheet.now.cells (left - 1) (flip (state_in at) (literal_of literal.word))) }
    {
        counts::flip(self.occ, literal, planes, next);
        let opposite = literal.opposite();
        let after = choice::force(self.occ, TableRow::of(opposite), next, at.flip(literal));
        self.call(next, after, left - 1, calls)
    }

    // The same with one flip left: each call is the last on its path, and needs no planes.
    fn last_literals(&self, planes: &[u64; PLANES], at: Path, clause: usize, calls: u32) -> Found
        requires { Trying self.now.occ.now.count self.now.sheet.now.cells self.now.occ.now.table planes.now (state_in at) (set_of at.forced) clause 0 1 calls self.now.budget }
        ensures { answer_in result ≡ settle self.now.budget calls
            (literals_from self.now.occ.now.count self.now.sheet.now.cells 1 (state_in at) (clause_at self.now.sheet.now.cells clause)) }
    {
        let mut made = calls;
        for j in 0..self.sheet.length_at(clause) {
            let literal = self.sheet.literal(clause, j);
            if at.is_free(literal) {
                let tried = self.last_attempt(planes, at, literal, made);
                let Found::None(more) = tried else {
                    return tried;
                };
                made = more;
            }
        }
        Found::None(made)
    }

    // One literal that is tried with one flip left: all clauses are true after its flip, or its call is
    // none.
    fn last_attempt(&self, planes: &[u64; PLANES], at: Path, literal: Literal, calls: u32) -> Found
        ensures { LastAttempt self.now.occ.now.count self.now.occ.now.table planes.now (state_in at) (set_of at.forced) literal.word self.now.budget calls result }
    {
        if tree::exhausted(calls, self.budget) {
            return Found::Spent(self.budget);
        }
        if counts::all_true_after(self.occ, literal, planes) {
            let model = at.flip(literal).assignment;
            return Found::Clear(model, calls + 1);
        }
        Found::None(calls + 1)
    }
}
