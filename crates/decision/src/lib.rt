// A sheet decided by a plan within a budget, or by splitting, and the numbers of a decision.
#![tactic(auto)]

ghost use Rattle.std.specs.Prelude.{◌≡◌, true, false, ℕ};
ghost use Rattle.words.specs.Machine.{bits_of};
ghost use Rattle.formula.specs.Reading.{formula_of};
ghost use Rattle.tree.specs.Machine.{answer_in};
ghost use Rattle.search.specs.Run.{plan};
ghost use Rattle.search.specs.Blocks.{HoldsPlan};
ghost use Rattle.search.specs.Machine.{plan_in};
ghost use Rattle.horn.specs.Horn.{is_horn};
ghost use Rattle.decision.specs.Answers.{answered, refusal, judged, decision, split_decision, ending_number, method_number, counts, declines, reply_of};
ghost use Rattle.decision.specs.Machine.{verdict_in, decision_in, outcome_in, Coded, Planned};

use code::Plan;
use formula::Sheet;
use search::Codes;
use tree::Found;
use words::{Assignment, Refusal, Refused};

// How a decision ended: what a reply tells of its verdict.
#[derive(Clone, Copy, PartialEq, Eq, Debug)]
pub enum Ending {
    Refused = 0,
    Clear = 1,
    None = 2,
    Spent = 3,
}

impl Ending {
    pub fn number(self) -> u32
        ensures { result ≡ ending_number self }
    {
        self as u32
    }
}

// What became of a sheet, with what belongs to it.
#[derive(Clone, Copy)]
pub enum Verdict {
    Clear(Assignment, u32),
    None(u32),
    Spent(u32),
    Refused(Refusal),
}

// How a sheet was decided: by rounds where it is Horn, and otherwise by balls. A refusal names no
// method, and neither does splitting, which is asked for.
#[derive(Clone, Copy, PartialEq, Eq, Debug)]
pub enum Method {
    Unnamed = 0,
    Horn = 1,
    Balls = 2,
}

impl Method {
    // `road` in a reply.
    pub fn number(self) -> u32
        ensures { result ≡ method_number self }
    {
        self as u32
    }
}

// The verdict, with the batch number and the method beside it.
#[derive(Clone, Copy)]
pub struct Decision {
    pub batch: u32,
    pub method: Method,
    pub verdict: Verdict,
}

// A decision as numbers, for a host in C (include/engine.h): the words of the assignment are an
// array there.
#[repr(C)]
#[derive(Clone, Copy, PartialEq, Eq)]
pub struct Reply {
    pub verdict: u32,
    pub batch: u32,
    pub road: u32,
    pub marks0: u32,
    pub marks1: u32,
    pub marks2: u32,
    pub marks3: u32,
    pub calls: u32,
    pub number: u32,
    pub place: u32,
}

impl From<Found> for Verdict {
    ghost from_gives = { λ found verdict. verdict_in verdict ≡ answered (answer_in found) };

    fn from(found: Found) -> Verdict {
        match found {
            Found::Clear(model, calls) => Verdict::Clear(model, calls),
            Found::None(calls) => Verdict::None(calls),
            Found::Spent(calls) => Verdict::Spent(calls),
        }
    }
}

// The decision by what a search found.
pub fn decided(batch: u32, method: Method, found: Found) -> Decision
    ensures { decision_in result ≡ record { batch = batch; method = method; verdict = answered (answer_in found) } }
{
    Decision {
        batch,
        method,
        verdict: Verdict::from(found),
    }
}

// The decision of a refusal: nothing else belongs to it.
pub fn refused(why: Refusal) -> Decision
    ensures { decision_in result ≡ refusal why.number why.place }
{
    Decision {
        batch: 0,
        method: Method::Unnamed,
        verdict: Verdict::Refused(why),
    }
}

// Lays out the codes of a plan, of no variables yet, for a sheet that is searched by balls: Horn
// clauses, and any part of them, need none. They are laid out in place, for they are large.
pub fn lay_out(sheet: &Sheet, codes: &mut Codes)
    ensures named { codes.new.plan ≡ codes.old.plan }
    ensures coded { Coded (formula_of sheet.now) codes.new }
    ensures planned { Planned (plan_in codes.old.plan) (formula_of sheet.now) codes.new }
    ensures held { is_horn (formula_of sheet.now).clauses ≡ false →
        HoldsPlan (plan_in codes.old.plan) sheet.now.n codes.new.layout codes.new.whole_words codes.new.last_words }
    ensures kept { is_horn (formula_of sheet.now).clauses ≡ true → codes.new ≡ codes.old }
{
    if !horn::is_horn(sheet.clauses()) {
        codes.lay_out(sheet.n);
    }
}

// The decision on a sheet by codes: that of whichever plan they are of.
pub fn decide_laid(sheet: &Sheet, codes: &Codes, budget: u32) -> Decision
    requires { Coded (formula_of sheet.now) codes.now }
    ensures { (size radius : ℕ) → Planned (plan size radius) (formula_of sheet.now) codes.now →
        decision_in result ≡ judged (plan size radius) budget (formula_of sheet.now) }
{
    if horn::is_horn(sheet.clauses()) {
        let found = horn::rounds(sheet, budget);
        return decided(sheet.batch, Method::Horn, found);
    }
    let found = search::run_laid(sheet, codes, budget);
    decided(sheet.batch, Method::Balls, found)
}

// The decision on a sheet by a plan.
pub fn decide_sheet(sheet: &Sheet, plan: Plan, budget: u32) -> Decision
    ensures { decision_in result ≡ judged (plan_in plan) budget (formula_of sheet.now) }
{
    let mut codes = Codes::empty(plan);
    lay_out(sheet, &mut codes);
    decide_laid(sheet, &codes, budget)
}

// The decision on an accepted plan and sheet, or the first refusal: the plan's goes first.
fn accepted(size: u32, radius: u32, budget: u32, bytes: &[u8]) -> Result<Decision, Refused>
    ensures { outcome_in result ≡ decision (plan size radius) budget bytes.now }
{
    let plan = Plan::new(size, radius)?;
    let mut sheet = Sheet::empty();
    sheet.read(bytes)?;
    Ok(decide_sheet(&sheet, plan, budget))
}

// The decision on a plan (block length and radius), a budget of calls and the bytes of a sheet.
pub fn decide(size: u32, radius: u32, budget: u32, sheet: &[u8]) -> Decision
    ensures { decision_in result ≡ decision (plan size radius) budget sheet.now }
{
    accepted(size, radius, budget, sheet).unwrap_or_else(|why| refused(Refusal::from(why)))
}

// The decision by splitting on an accepted sheet, or its refusal.
fn split(budget: u32, bytes: &[u8]) -> Result<Decision, Refused>
    ensures { outcome_in result ≡ split_decision budget bytes.now }
{
    let mut sheet = Sheet::empty();
    sheet.read(bytes)?;
    let found = splitting::split(&sheet, budget);
    Ok(decided(sheet.batch, Method::Unnamed, found))
}

// The decision by splitting on a budget of calls and the bytes of a sheet.
pub fn decide_by_splitting(budget: u32, sheet: &[u8]) -> Decision
    ensures { decision_in result ≡ split_decision budget sheet.now }
{
    split(budget, sheet).unwrap_or_else(|why| refused(Refusal::from(why)))
}

// The reply of a search.
fn counted(ending: Ending, batch: u32, method: Method, marks: Assignment, calls: u32) -> Reply
    ensures { result ≡ counts (ending_number ending) batch (method_number method) (bits_of marks) calls }
{
    Reply {
        verdict: ending.number(),
        batch,
        road: method.number(),
        marks0: marks.word(0),
        marks1: marks.word(1),
        marks2: marks.word(2),
        marks3: marks.word(3),
        calls,
        number: 0,
        place: 0,
    }
}

// The reply of a refusal: everything else is 0.
pub fn declined(number: u32, place: u32) -> Reply
    ensures { result ≡ declines number place }
{
    Reply {
        verdict: Ending::Refused.number(),
        batch: 0,
        road: 0,
        marks0: 0,
        marks1: 0,
        marks2: 0,
        marks3: 0,
        calls: 0,
        number,
        place,
    }
}

impl From<Decision> for Reply {
    ghost from_gives = { λ decision reply. reply ≡ reply_of (decision_in decision) };

    fn from(decision: Decision) -> Reply {
        let batch = decision.batch;
        let method = decision.method;
        match decision.verdict {
            Verdict::Clear(model, calls) => counted(Ending::Clear, batch, method, model, calls),
            Verdict::None(calls) => counted(Ending::None, batch, method, Assignment::zero(), calls),
            Verdict::Spent(calls) => counted(
                Ending::Spent,
                batch,
                method,
                Assignment::zero(),
                calls,
            ),
            Verdict::Refused(why) => declined(why.number, why.place),
        }
    }
}
