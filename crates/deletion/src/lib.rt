// Minimal unsatisfiable cores by deletion: which clauses collide in a sheet that gets none (02,
// paper 13).
#![tactic(auto)]

mod kept;

ghost use Rattle.std.specs.Prelude.{◌≡◌, [], ◌++◌, ◌≤◌, ◌<◌, length, IfOk, MatchResult};
ghost use Rattle.words.specs.Lists.{span};
ghost use Rattle.formula.specs.Formula.{clause_limit};
ghost use Rattle.formula.specs.Reading.{formula_of};
ghost use Rattle.search.specs.Run.{plan};
ghost use Rattle.search.specs.Machine.{plan_in};
ghost use Rattle.decision.specs.Answers.{method_of};
ghost use Rattle.decision.specs.Machine.{verdict_in, decision_in, outcome_in, Coded, Planned};
ghost use Rattle.deletion.specs.Core.{only, sift, deletion, core_to};
ghost use Rattle.deletion.specs.Machine.{Trying, Onward, Ends, sifted_in, Leaves};

use code::Plan;
use decision::{Decision, Method, Verdict, decide_laid, lay_out, refused};
use formula::Sheet;
use kept::Kept;
use search::Codes;
use words::{Reason, Refusal, Refused};

// A trial without clause i: the clauses before it, and those kept behind it.
fn put_rest(sheet: &Sheet, i: usize, kept: &Kept, trial: &mut Sheet)
    requires { Trying (formula_of sheet.now) i kept.now (formula_of trial.old) }
    ensures { formula_of trial.new ≡ only (formula_of sheet.now) (span 0 i ++ kept.now) }
{
    trial.truncate(i);
    for number in kept.numbers() {
        trial.push_clause(sheet, usize::from(*number));
    }
}

// After the run without clause i: a clear keeps the clause, a none leaves it out, and anything else
// ends the work.
fn turn(rest: Decision, i: usize, kept: &mut Kept) -> Result<(), Decision>
    requires { (i < clause_limit) × (length kept.old < clause_limit) }
    ensures { MatchResult result
        (λ _. Onward (verdict_in rest.verdict) i kept.old kept.new)
        (λ d. (d ≡ rest) × Ends (verdict_in rest.verdict)) }
{
    match rest.verdict {
        Verdict::None(_) => Ok(()),
        Verdict::Clear(_, _) => {
            kept.put(i);
            Ok(())
        }
        Verdict::Spent(_) => Err(rest),
        Verdict::Refused(_) => Err(rest),
    }
}

// Goes through the clauses of a sheet from last to first: the numbers kept, or the decision of a run
// that is spent.
fn sift(sheet: &Sheet, codes: &Codes, budget: u32) -> Result<Kept, Decision>
    requires coded { Coded (formula_of sheet.now) codes.now }
    requires planned { Planned (plan_in codes.now.plan) (formula_of sheet.now) codes.now }
    ensures sifted { sifted_in (formula_of sheet.now) result ≡
        sift (plan_in codes.now.plan) budget (formula_of sheet.now) sheet.now.count [] }
    ensures few { IfOk result (λ kept. length kept ≤ sheet.now.count) }
{
    let mut trial = Sheet {
        batch: sheet.batch,
        n: sheet.n,
        count: sheet.count,
        cells: sheet.cells,
    };
    let mut kept = Kept::none();
    for i in (0..sheet.count).rev() {
        put_rest(sheet, i, &kept, &mut trial);
        let rest = decide_laid(&trial, codes, budget);
        turn(rest, i, &mut kept)?;
    }
    Ok(kept)
}

// The core of a sheet of which a run has said none, by its method: the numbers kept go to the list.
fn core_of(sheet: &Sheet, method: Method, codes: &Codes, budget: u32, list: &mut [u16]) -> Decision
    requires coded { Coded (formula_of sheet.now) codes.now }
    requires planned { Planned (plan_in codes.now.plan) (formula_of sheet.now) codes.now }
    requires method_value { (method ≡ method_of (formula_of sheet.now)) × (sheet.now.count ≤ length list.old) }
    ensures { Leaves (sift (plan_in codes.now.plan) budget (formula_of sheet.now) sheet.now.count []) list.old
        (decision_in result) list.new }
{
    match sift(sheet, codes, budget) {
        Ok(kept) => {
            let count = kept.store(list);
            Decision {
                batch: sheet.batch,
                method,
                verdict: Verdict::None(count as u32),
            }
        }
        Err(rest) => rest,
    }
}

// The whole sheet is run first, and only a none is gone into.
fn core_sheet(sheet: &Sheet, plan: Plan, budget: u32, list: &mut [u16]) -> Decision
    requires { sheet.now.count ≤ length list.old }
    ensures { Leaves (deletion (plan_in plan) budget (formula_of sheet.now)) list.old
        (decision_in result) list.new }
{
    let mut codes = Codes::empty(plan);
    lay_out(sheet, &mut codes);
    let all = decide_laid(sheet, &codes, budget);
    let Verdict::None(_) = all.verdict else {
        return all;
    };
    core_of(sheet, all.method, &codes, budget, list)
}

// What deletion comes to, or the first refusal: the plan's, then the sheet's, then that of a list with
// fewer cells than there are clauses.
fn accepted(
    size: u32,
    radius: u32,
    budget: u32,
    bytes: &[u8],
    list: &mut [u16],
) -> Result<Decision, Refused>
    ensures { Leaves (core_to (plan size radius) budget bytes.now (length list.old)) list.old
        (outcome_in result) list.new }
{
    let plan = Plan::new(size, radius)?;
    let mut sheet = Sheet::empty();
    sheet.read(bytes)?;
    if list.len() < sheet.count {
        return Err(Reason::ShortList.at(0));
    }
    Ok(core_sheet(&sheet, plan, budget, list))
}

// The core of a sheet by a plan and a budget, its clauses' numbers in a list.
pub fn find_core(size: u32, radius: u32, budget: u32, sheet: &[u8], list: &mut [u16]) -> Decision
    ensures { Leaves (core_to (plan size radius) budget sheet.now (length list.old)) list.old
        (decision_in result) list.new }
{
    accepted(size, radius, budget, sheet, list).unwrap_or_else(|why| refused(Refusal::from(why)))
}
