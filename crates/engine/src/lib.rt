// The engine: a sheet decided by a plan within a budget, in legs, or by splitting. Each answer is in
// the numbers that C gets; the crate engine_c exports these functions.
#![tactic(auto)]

mod exports;

ghost use Rattle.std.specs.Prelude.{◌≡◌, length};
ghost use Rattle.search.specs.Run.{plan};
ghost use Rattle.decision.specs.Answers.{reply_to, split_to};
ghost use Rattle.deletion.specs.Core.{core_to, clash_to, list_after};
ghost use Rattle.legs.specs.Legs.{takes, alone, grown};

use decision::{Reply, decide, decide_by_splitting};
pub use exports::{
    AlikeReply, CountsReply, NumberReply, TallyReply, alike, ball_volume, clause_counts,
    covering_code, covering_floor, tally_begin, tally_holds, tally_toggle,
};
use legs::{Checkpoint, LegReply, leg_by_value, leg_longer_by_value};

// `decide` in numbers.
pub fn run(size: u32, radius: u32, budget: u32, sheet: &[u8]) -> Reply
    ensures { result ≡ reply_to (plan size radius) budget sheet.now }
{
    Reply::from(decide(size, radius, budget, sheet))
}

// `decide_by_splitting` in numbers.
pub fn split(budget: u32, sheet: &[u8]) -> Reply
    ensures { result ≡ split_to budget sheet.now }
{
    Reply::from(decide_by_splitting(budget, sheet))
}

// `find_core` in numbers.
pub fn clash(size: u32, radius: u32, budget: u32, sheet: &[u8], list: &mut [u16]) -> Reply
    ensures answer { result ≡ clash_to (plan size radius) budget sheet.now (length list.old) }
    ensures cells { list.new ≡
        list_after (core_to (plan size radius) budget sheet.now (length list.old)).kept list.old }
{
    Reply::from(deletion::find_core(size, radius, budget, sheet, list))
}

// A leg for a host, which lends the record and finds it moved on.
pub fn leg(
    size: u32,
    radius: u32,
    budget: u32,
    sheet: &[u8],
    checkpoint: &mut Checkpoint,
) -> LegReply
    ensures value { result ≡ (takes checkpoint.old (alone (plan size radius) budget sheet.now)).reply }
    ensures checkpoint_after { checkpoint.new ≡ (takes checkpoint.old (alone (plan size radius) budget sheet.now)).checkpoint }
{
    let end = leg_by_value(size, radius, budget, sheet, *checkpoint);
    *checkpoint = end.checkpoint;
    end.reply
}

// The same on an old sheet and a longer one.
pub fn leg_longer(
    size: u32,
    radius: u32,
    budget: u32,
    sheet: &[u8],
    longer: &[u8],
    checkpoint: &mut Checkpoint,
) -> LegReply
    ensures value { result ≡ (takes checkpoint.old (grown (plan size radius) budget sheet.now longer.now)).reply }
    ensures checkpoint_after { checkpoint.new ≡ (takes checkpoint.old (grown (plan size radius) budget sheet.now longer.now)).checkpoint }
{
    let end = leg_longer_by_value(size, radius, budget, sheet, longer, *checkpoint);
    *checkpoint = end.checkpoint;
    end.reply
}
