// One leg of a search of which the host keeps the checkpoint, on one sheet or on an old one and a
// longer one.
#![tactic(auto)]

ghost use Rattle.std.specs.Prelude.{◌≡◌, true, false, MatchResult};
ghost use Rattle.words.specs.Refusals.{number_of};
ghost use Rattle.formula.specs.Reading.{formula_of};
ghost use Rattle.formula.specs.Sheet.{accepted, refused, parse};
ghost use Rattle.code.specs.Operations.{coded?};
ghost use Rattle.tree.specs.Machine.{answer_in};
ghost use Rattle.search.specs.Run.{plan};
ghost use Rattle.search.specs.Machine.{plan_in, progress_in};
ghost use Rattle.horn.specs.Horn.{is_horn};
ghost use Rattle.decision.specs.Answers.{answered};
ghost use Rattle.decision.specs.Machine.{decision_in};
ghost use Rattle.legs.specs.Legs.{of_plan, of_batch, about, refused_leg, decided_leg, moved_to, decline_when, checks, all_kept, takes, alone, grown};
ghost use Rattle.legs.specs.Machine.{sheet_number, check_in, end_in, header_in, progress_end, checked_leg, sheet_leg};

use code::Plan;
use decision::{Decision, Method, Reply, decide_sheet, decided};
use formula::Sheet;
use search::{Codes, Progress};
use tree::Found;
use words::{Reason, Refused};

// Which sheet a refusal is about: the only one or the old one, or the longer one.
#[derive(Clone, Copy, PartialEq, Eq, Debug)]
pub enum Which {
    First = 1,
    Longer = 2,
}

impl Which {
    pub fn number(self) -> u32
        ensures { result ≡ sheet_number self }
    {
        self as u32
    }
}

// A leg that is declined: about which sheet, and why.
#[derive(Clone, Copy)]
pub struct Declined {
    pub sheet: Which,
    pub why: Refused,
}

// A checkpoint: the batch number, n and the plan of the search, and the next ball.
#[repr(C)]
#[derive(Clone, Copy, PartialEq, Eq)]
pub struct Checkpoint {
    pub batch: u32,
    pub n: u32,
    pub size: u32,
    pub radius: u32,
    pub next: u64,
}

// The fields of a reply, and the sheet that a refusal is about.
#[repr(C)]
#[derive(Clone, Copy, PartialEq, Eq)]
pub struct LegReply {
    pub verdict: u32,
    pub batch: u32,
    pub road: u32,
    pub marks0: u32,
    pub marks1: u32,
    pub marks2: u32,
    pub marks3: u32,
    pub calls: u32,
    pub number: u32,
    pub place: u32,
    pub sheet: u32,
}

// A leg's reply without the sheet that a refusal is about.
impl From<LegReply> for Reply {
    ghost from_gives = { λ leg reply. leg ≡ about leg.sheet reply };

    #[tactic(auto, unfolding(crate::specs::Legs::about))]
    fn from(reply: LegReply) -> Reply {
        Reply {
            verdict: reply.verdict,
            batch: reply.batch,
            road: reply.road,
            marks0: reply.marks0,
            marks1: reply.marks1,
            marks2: reply.marks2,
            marks3: reply.marks3,
            calls: reply.calls,
            number: reply.number,
            place: reply.place,
        }
    }
}

// What a leg leaves.
#[derive(Clone, Copy)]
pub struct LegEnd {
    pub reply: LegReply,
    pub checkpoint: Checkpoint,
}

fn about(sheet: u32, reply: Reply) -> LegReply
    ensures { result ≡ about sheet reply }
{
    LegReply {
        verdict: reply.verdict,
        batch: reply.batch,
        road: reply.road,
        marks0: reply.marks0,
        marks1: reply.marks1,
        marks2: reply.marks2,
        marks3: reply.marks3,
        calls: reply.calls,
        number: reply.number,
        place: reply.place,
        sheet,
    }
}

// What came before a sheet that is searched: the batch number and n of the old sheet, and which of
// its clauses is lacking now; and the number of the sheet that is searched, in refusals.
#[derive(Clone, Copy)]
pub struct Before {
    pub name: Which,
    pub batch: u32,
    pub n: u32,
    pub lacking: Option<u32>,
}

// A refusal leaves the record as it came.
fn refuse_leg(declined: Declined, checkpoint: Checkpoint) -> LegEnd
    ensures { result ≡ refused_leg (sheet_number declined.sheet) (number_of declined.why.reason) declined.why.place checkpoint }
{
    let why = declined.why;
    let reply = decision::declined(why.reason.number(), why.place);
    LegEnd {
        reply: about(declined.sheet.number(), reply),
        checkpoint,
    }
}

// A decision, and the record that it leaves.
fn end_leg(decision: Decision, checkpoint: Checkpoint) -> LegEnd
    ensures { result ≡ decided_leg (decision_in decision) checkpoint }
{
    LegEnd {
        reply: about(0, Reply::from(decision)),
        checkpoint,
    }
}

// Whether the record is of this plan.
fn of_plan(plan: Plan, checkpoint: Checkpoint) -> bool
    ensures { result ≡ of_plan (plan_in plan) checkpoint }
{
    checkpoint.size == plan.size && checkpoint.radius == plan.radius
}

// Whether the record is of this batch and n.
fn of_batch(batch: u32, n: u32, checkpoint: Checkpoint) -> bool
    ensures { result ≡ of_batch (header_in batch n) checkpoint }
{
    checkpoint.batch == batch && checkpoint.n == n
}

// A check that declines where the test says so.
fn decline_when(test: bool, sheet: Which, reason: Reason) -> Result<(), Declined>
    ensures { check_in result ≡ decline_when test (sheet_number sheet) (number_of reason) }
{
    if test {
        return Err(Declined {
            sheet,
            why: reason.at(0),
        });
    }
    Ok(())
}

// The last check: no clause of the old sheet is lacking.
fn all_kept(lacking: Option<u32>) -> Result<(), Declined>
    ensures { check_in result ≡ all_kept lacking }
{
    match lacking {
        None => Ok(()),
        Some(place) => Err(Declined {
            sheet: Which::First,
            why: Reason::ClauseDropped.at(place),
        }),
    }
}

// The checks before balls are searched, in order.
fn check_leg(
    centres: u64,
    sheet: &Sheet,
    before: Before,
    plan: Plan,
    checkpoint: Checkpoint,
) -> Result<(), Declined>
    ensures { check_in result ≡ checks (sheet_number before.name) centres (plan_in plan) checkpoint
        (header_in before.batch before.n) (formula_of sheet.now) before.lacking }
{
    let name = before.name;
    let old = of_batch(before.batch, before.n, checkpoint);
    let own = of_batch(sheet.batch, sheet.n, checkpoint);
    decline_when(search::CENTRES <= centres, name, Reason::BadPlan)?;
    decline_when(!of_plan(plan, checkpoint), name, Reason::OtherSearch)?;
    decline_when(!old, Which::First, Reason::OtherSearch)?;
    decline_when(!own, name, Reason::OtherSearch)?;
    decline_when(centres <= checkpoint.next, name, Reason::Finished)?;
    all_kept(before.lacking)
}

// What balls found, and the record moved on to the next one.
fn end_balls(batch: u32, found: Found, next: u64, checkpoint: Checkpoint) -> LegEnd
    ensures { result ≡ decided_leg
        (record { batch = batch; method = Method.Balls; verdict = answered (answer_in found) }) (moved_to checkpoint next) }
{
    let mut left = checkpoint;
    left.next = next;
    end_leg(decided(batch, Method::Balls, found), left)
}

// What the balls of a leg came to, of so many: after clear and none there is none left.
fn advance(progress: Progress, batch: u32, centres: u64, checkpoint: Checkpoint) -> LegEnd
    ensures { result ≡ progress_end batch checkpoint (progress_in centres progress) }
{
    match progress {
        Progress::Clear(model, calls) => {
            end_balls(batch, Found::Clear(model, calls), centres, checkpoint)
        }
        Progress::None(calls) => end_balls(batch, Found::None(calls), centres, checkpoint),
        Progress::Spent { calls, next } => {
            end_balls(batch, Found::Spent(calls), next, checkpoint)
        }
    }
}

// The leg on a sheet that is not Horn.
fn leg_by_balls(
    sheet: &Sheet,
    before: Before,
    plan: Plan,
    budget: u32,
    checkpoint: Checkpoint,
) -> Result<LegEnd, Declined>
    requires { is_horn (formula_of sheet.now).clauses ≡ false }
    ensures { end_in checkpoint result ≡ checked_leg before (plan_in plan) budget checkpoint (formula_of sheet.now) }
{
    let mut codes = Codes::empty(plan);
    codes.lay_out(sheet.n);
    let centres = codes.centres();
    check_leg(centres, sheet, before, plan, checkpoint)?;
    let progress = search::leg(sheet, &codes, checkpoint.next, budget);
    Ok(advance(progress, sheet.batch, centres, checkpoint))
}

// The leg on a sheet, after what came before it.
fn leg_sheet(
    sheet: &Sheet,
    before: Before,
    plan: Plan,
    budget: u32,
    checkpoint: Checkpoint,
) -> Result<LegEnd, Declined>
    ensures { end_in checkpoint result ≡ sheet_leg before (plan_in plan) budget checkpoint (formula_of sheet.now) }
{
    if horn::is_horn(sheet.clauses()) {
        return Ok(end_leg(decide_sheet(sheet, plan, budget), checkpoint));
    }
    leg_by_balls(sheet, before, plan, budget, checkpoint)
}

// The plan of a leg, or its refusal about the sheet given.
fn plan_of(which: Which, size: u32, radius: u32) -> Result<Plan, Declined>
    ensures { MatchResult result
        (λ plan. (plan.size ≡ size) × (plan.radius ≡ radius) × (coded? size radius ≡ true))
        (λ d. (sheet_number d.sheet ≡ sheet_number which) × (number_of d.why.reason ≡ 8) × (d.why.place ≡ 0) × (coded? size radius ≡ false)) }
{
    match Plan::new(size, radius) {
        Ok(plan) => Ok(plan),
        Err(why) => Err(Declined { sheet: which, why }),
    }
}

// Reads a sheet of a leg; a refusal says which it is.
fn read(which: Which, bytes: &[u8], sheet: &mut Sheet) -> Result<(), Declined>
    ensures { MatchResult result
        (λ _. accepted (formula_of sheet.new) ≡ parse bytes.now)
        (λ d. (sheet_number d.sheet ≡ sheet_number which) × (refused (number_of d.why.reason) d.why.place ≡ parse bytes.now)) }
{
    match sheet.read(bytes) {
        Ok(()) => Ok(()),
        Err(why) => Err(Declined { sheet: which, why }),
    }
}

// A leg on one sheet, or the first refusal: the plan's goes first.
fn leg_alone(
    size: u32,
    radius: u32,
    budget: u32,
    bytes: &[u8],
    checkpoint: Checkpoint,
) -> Result<LegEnd, Declined>
    ensures { end_in checkpoint result ≡ takes checkpoint (alone (plan size radius) budget bytes.now) }
{
    let plan = plan_of(Which::First, size, radius)?;
    let mut sheet = Sheet::empty();
    read(Which::First, bytes, &mut sheet)?;
    let before = Before {
        name: Which::First,
        batch: sheet.batch,
        n: sheet.n,
        lacking: None,
    };
    leg_sheet(&sheet, before, plan, budget, checkpoint)
}

// A leg with the record by value: what it gives, and the record as it leaves it.
pub fn leg_by_value(
    size: u32,
    radius: u32,
    budget: u32,
    sheet: &[u8],
    checkpoint: Checkpoint,
) -> LegEnd
    ensures { result ≡ takes checkpoint (alone (plan size radius) budget sheet.now) }
{
    leg_alone(size, radius, budget, sheet, checkpoint).unwrap_or_else(|declined| refuse_leg(
        declined, checkpoint,
    ))
}

// The same where further clauses have come: the old sheet, and a longer one, which is searched.
fn leg_grown(
    size: u32,
    radius: u32,
    budget: u32,
    bytes: &[u8],
    longer: &[u8],
    checkpoint: Checkpoint,
) -> Result<LegEnd, Declined>
    ensures { end_in checkpoint result ≡ takes checkpoint (grown (plan size radius) budget bytes.now longer.now) }
{
    let plan = plan_of(Which::Longer, size, radius)?;
    let mut old = Sheet::empty();
    read(Which::First, bytes, &mut old)?;
    let mut sheet = Sheet::empty();
    read(Which::Longer, longer, &mut sheet)?;
    let before = Before {
        name: Which::Longer,
        batch: old.batch,
        n: old.n,
        lacking: formula::first_lacking(old.clauses(), sheet.clauses()),
    };
    leg_sheet(&sheet, before, plan, budget, checkpoint)
}

pub fn leg_longer_by_value(
    size: u32,
    radius: u32,
    budget: u32,
    sheet: &[u8],
    longer: &[u8],
    checkpoint: Checkpoint,
) -> LegEnd
    ensures { result ≡ takes checkpoint (grown (plan size radius) budget sheet.now longer.now) }
{
    leg_grown(size, radius, budget, sheet, longer, checkpoint).unwrap_or_else(|declined| refuse_leg(
        declined, checkpoint,
    ))
}
