// A sheet decided in legs. Where it is searched by balls, legs with drawn budgets carry the search
// to its end, and must come to what one run does, their calls added up. A Horn sheet must be
// answered by a leg as by a run, and the checkpoint left.
ghost use Rattle.std.specs.Prelude.{◌<◌};

use crate::counts::{Counts, more};
use crate::growth::try_growth;
use crate::sheets::Random;
use crate::{Case, LARGEST_BUDGET, Numbers, Road, SPENT};
use decision::{Ending, Reply};
use legs::{Checkpoint, LegEnd, LegReply, Which};
use std::io;
use words::Reason;

// Half of all: a leg takes as long as a run, for most of both goes into the covering code.
const SHEETS_IN_LEGS: u32 = 30000;

// More than a search takes: a leg finishes one of at most 4096 balls, or doubles the least budget,
// which is soon enough for a ball.
const LEGS: u32 = 4200;

// A leg's reply, with the calls of the legs before.
pub fn added(calls: u32, reply: LegReply) -> Reply {
    Reply {
        calls: calls.wrapping_add(reply.calls),
        ..Reply::from(reply)
    }
}

// Whether a leg answers this and leaves the checkpoint as it came. A refusal names the only sheet.
fn stays(end: LegEnd, answer: Reply, checkpoint: Checkpoint) -> bool {
    let about = if answer.number == 0 {
        0
    } else {
        Which::First.number()
    };
    Reply::from(end.reply) == answer && end.reply.sheet == about && end.checkpoint == checkpoint
}

impl Case<'_> {
    pub fn start(self) -> Checkpoint {
        Checkpoint {
            batch: self.shape.batch,
            n: self.shape.n,
            size: self.size,
            radius: self.radius,
            next: 0,
        }
    }

    pub fn leg(self, budget: u32, checkpoint: Checkpoint) -> LegEnd {
        legs::leg_by_value(self.size, self.radius, budget, self.sheet, checkpoint)
    }

    // Whether the next ball is just past the last: a leg from it is refused, and one from the ball
    // before is not.
    fn ended(self, checkpoint: Checkpoint) -> bool {
        let last = Checkpoint {
            next: checkpoint.next.wrapping_sub(1),
            ..checkpoint
        };
        self.leg(0, last).reply.number == 0
            && stays(
                self.leg(LARGEST_BUDGET, checkpoint),
                decision::declined(Reason::Finished.number(), 0),
                checkpoint,
            )
    }
}

// A search after some legs: whether each kept within its budget, the last reply, but with the calls
// of all, and the checkpoint. No later leg has a budget below `least`.
#[derive(Drop)]
struct Search {
    random: Random,
    least: u32,
    legs: u64,
    within: bool,
    reply: Reply,
    checkpoint: Checkpoint,
}

impl Search {
    // Legs from the start on until one is not spent.
    fn in_legs(case: Case, range: u32) -> Search
        requires { 0 < range }
    {
        let mut search = Search {
            random: case.shape.random,
            least: 0,
            legs: 0,
            within: true,
            reply: case.counted(Ending::Spent, 0, 0),
            checkpoint: case.start(),
        };
        for _ in 0..LEGS {
            if search.reply.verdict != SPENT {
                break;
            }
            search.go_on(case, range);
        }
        search
    }

    // One leg more, whose budget is the least and a number below `range`. A leg that finishes no
    // ball makes the least budget grow, so that some later leg does.
    fn go_on(&mut self, case: Case, range: u32)
        requires { 0 < range }
    {
        self.random = self.random.next();
        let budget = self.least.wrapping_add(self.random.below(range));
        let end = case.leg(budget, self.checkpoint);
        if end.checkpoint.next == self.checkpoint.next {
            self.least = self.least << 1 | 1;
        }
        more(&mut self.legs);
        self.within = self.within && end.reply.calls <= budget;
        self.reply = added(self.reply.calls, end.reply);
        self.checkpoint = end.checkpoint;
    }
}

// Legs that disagree: how many they were, and what they came to.
pub fn report_legs(
    rt: &impl Print,
    case: Case,
    legs: u64,
    reply: Reply,
    counts: &mut Counts,
) -> io::Result<()> {
    more(&mut counts.leg_disagreements);
    print!(rt; "sheet {} legs {legs}", case.number)?;
    print!(rt; " plan {} {}", case.size, case.radius)?;
    println!(rt; " {}", Numbers(reply))
}

// The search by balls, in about eight legs where its balls are small; and then while it grows.
fn try_search(rt: &impl Print, case: Case, counts: &mut Counts) -> io::Result<()> {
    let run = case.ask(LARGEST_BUDGET);
    let search = Search::in_legs(case, run.calls / 4 + 1);
    if !search.within || search.reply != run || !case.ended(search.checkpoint) {
        return report_legs(rt, case, search.legs, search.reply, counts);
    }
    more(&mut counts.searches);
    counts.legs = counts.legs.wrapping_add(search.legs);
    try_growth(rt, case, run, counts)
}

// A leg on a Horn sheet, with a checkpoint that would be refused on any other sheet.
fn try_horn_leg(rt: &impl Print, case: Case, counts: &mut Counts) -> io::Result<()> {
    let random = case.shape.random;
    let budget = random.next().below(case.shape.n + 2);
    let run = case.ask(budget);
    let checkpoint = Checkpoint {
        next: random.state,
        ..case.start()
    };
    let end = case.leg(budget, checkpoint);
    if !stays(end, run, checkpoint) {
        return report_legs(rt, case, 1, Reply::from(end.reply), counts);
    }
    more(&mut counts.horn_legs);
    Ok(())
}

// The sheet of a case, if it is one of those that are decided in legs.
pub fn try_legs(rt: &impl Print, case: Case, counts: &mut Counts) -> io::Result<()> {
    if SHEETS_IN_LEGS <= case.number {
        return Ok(());
    }
    if case.road == Road::Horn {
        try_horn_leg(rt, case, counts)
    } else {
        try_search(rt, case, counts)
    }
}
