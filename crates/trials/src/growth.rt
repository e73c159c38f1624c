// A sheet that grows: a leg works on the first half of its clauses, and the next one, on all of
// them, goes on from there. Verdict and marks must be those of a run of the whole sheet, since the
// balls that were emptied hold no model of more clauses; the calls need not be.
use crate::counts::{Counts, more};
use crate::parked::{added, report_legs};
use crate::{Case, HORN, LARGEST_BUDGET, SPENT};
use decision::Reply;
use legs::LegReply;
use std::io;

// The end of the clause in the middle of the sheet, which begins after its header.
fn half(sheet: &[u8]) -> usize {
    let middle = sheet.len() / 2;
    let mut at = 12;
    // no `for`: a step is the length of a clause
    while at < middle {
        at += 4 + 4 * usize::from(sheet[at]);
    }
    at
}

// The sheet of its first clauses; the whole sheet where they would not end within it.
fn first_half(sheet: &[u8]) -> &[u8] {
    sheet.get(..half(sheet)).unwrap_or(sheet)
}

// A search that has ended on the first half has no ball left.
fn goes_on(reply: LegReply) -> bool {
    reply.verdict == SPENT || reply.road == HORN
}

// The calls of a leg, where it worked balls.
fn ball_calls(reply: LegReply) -> u32 {
    if reply.road == HORN { 0 } else { reply.calls }
}

pub fn try_growth(rt: &impl Print, case: Case, run: Reply, counts: &mut Counts) -> io::Result<()> {
    let old = Case {
        sheet: first_half(case.sheet),
        ..case
    };
    let budget = case.shape.random.next().below(run.calls / 2 + 1);
    let first = old.leg(budget, old.start());
    if !goes_on(first.reply) {
        return Ok(());
    }
    let last = legs::leg_longer_by_value(
        case.size,
        case.radius,
        LARGEST_BUDGET,
        old.sheet,
        case.sheet,
        first.checkpoint,
    );
    let all = added(ball_calls(first.reply), last.reply);
    let told = Reply {
        calls: run.calls,
        ..all
    };
    if told != run {
        return report_legs(rt, case, 2, all, counts);
    }
    more(&mut counts.growths);
    if 0 < first.checkpoint.next {
        more(&mut counts.later);
    }
    if all.calls != run.calls {
        more(&mut counts.other_sums);
    }
    Ok(())
}
