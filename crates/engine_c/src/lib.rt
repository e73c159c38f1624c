// The engine for a host in C (include/engine.h): each function of the crate engine under its own
// name, with its contract.
#![tactic(auto)]

ghost use Rattle.std.specs.Prelude.{◌≡◌, cond, length};
ghost use Rattle.words.specs.Bits.{from_words};
ghost use Rattle.code.specs.Operations.{code_answer, code_table, volume_answer, floor_answer};
ghost use Rattle.search.specs.Run.{plan};
ghost use Rattle.tally.specs.Tally.{tally_begin, tally_toggle, tally_holds, tally_in};
ghost use Rattle.decision.specs.Answers.{reply_to, split_to};
ghost use Rattle.deletion.specs.Core.{core_to, clash_to, list_after};
ghost use Rattle.legs.specs.Legs.{takes, alone, grown};
ghost use Rattle.engine.specs.Replies.{result_of, alike_to, clause_counts_to, TallyMade};

use decision::Reply;
use engine::{AlikeReply, CountsReply, NumberReply, TallyReply};
use legs::{Checkpoint, LegReply};

#[unsafe(no_mangle)]
pub extern "C" fn run(size: u32, radius: u32, budget: u32, sheet: &[u8]) -> Reply
    ensures { result ≡ reply_to (plan size radius) budget sheet.now }
{
    engine::run(size, radius, budget, sheet)
}

#[unsafe(no_mangle)]
pub extern "C" fn split(budget: u32, sheet: &[u8]) -> Reply
    ensures { result ≡ split_to budget sheet.now }
{
    engine::split(budget, sheet)
}

#[unsafe(no_mangle)]
pub extern "C" fn clash(
    size: u32,
    radius: u32,
    budget: u32,
    sheet: &[u8],
    list: &mut [u16],
) -> Reply
    ensures answer { result ≡ clash_to (plan size radius) budget sheet.now (length list.old) }
    ensures cells { list.new ≡
        list_after (core_to (plan size radius) budget sheet.now (length list.old)).kept list.old }
{
    engine::clash(size, radius, budget, sheet, list)
}

#[unsafe(no_mangle)]
pub extern "C" fn leg(
    size: u32,
    radius: u32,
    budget: u32,
    sheet: &[u8],
    checkpoint: &mut Checkpoint,
) -> LegReply
    ensures value { result ≡ (takes checkpoint.old (alone (plan size radius) budget sheet.now)).reply }
    ensures checkpoint_after { checkpoint.new ≡ (takes checkpoint.old (alone (plan size radius) budget sheet.now)).checkpoint }
{
    engine::leg(size, radius, budget, sheet, checkpoint)
}

#[unsafe(no_mangle)]
pub extern "C" fn leg_longer(
    size: u32,
    radius: u32,
    budget: u32,
    sheet: &[u8],
    longer: &[u8],
    checkpoint: &mut Checkpoint,
) -> LegReply
    ensures value { result ≡ (takes checkpoint.old (grown (plan size radius) budget sheet.now longer.now)).reply }
    ensures checkpoint_after { checkpoint.new ≡ (takes checkpoint.old (grown (plan size radius) budget sheet.now longer.now)).checkpoint }
{
    engine::leg_longer(size, radius, budget, sheet, longer, checkpoint)
}

#[unsafe(no_mangle)]
pub extern "C" fn covering_code(t: u32, s: u32, table: &mut [u16]) -> NumberReply
    ensures answer { result ≡ result_of (code_answer t s table.old) }
    ensures cells { table.new ≡ code_table t s table.old }
{
    engine::covering_code(t, s, table)
}

#[unsafe(no_mangle)]
pub extern "C" fn ball_volume(t: u32, s: u32) -> NumberReply
    ensures { result ≡ result_of (volume_answer t s) }
{
    engine::ball_volume(t, s)
}

#[unsafe(no_mangle)]
pub extern "C" fn covering_floor(t: u32, s: u32) -> NumberReply
    ensures { result ≡ result_of (floor_answer t s) }
{
    engine::covering_floor(t, s)
}

#[unsafe(no_mangle)]
pub extern "C" fn alike(first: &[u8], second: &[u8]) -> AlikeReply
    ensures { result ≡ alike_to first.now second.now }
{
    engine::alike(first, second)
}

#[unsafe(no_mangle)]
pub extern "C" fn clause_counts(
    sheet: &[u8],
    clause: u32,
    marks: &[u32; words::WORDS],
    flipped: &[u32; words::WORDS],
) -> CountsReply
    ensures { result ≡ clause_counts_to sheet.now clause
        (record { assignment = from_words marks.now; flipped = from_words flipped.now }) }
{
    engine::clause_counts(sheet, clause, marks, flipped)
}

#[unsafe(no_mangle)]
pub extern "C" fn tally_begin(
    sheet: &[u8],
    marks: &mut [u32; words::WORDS],
    met: &mut [u8; tally::NUMBERS],
    unmet: &mut u32,
) -> TallyReply
    ensures { TallyMade (λ _. tally_begin sheet.now)
        (tally_in marks.old met.old unmet.old)
        result (tally_in marks.new met.new unmet.new) }
{
    engine::tally_begin(sheet, marks, met, unmet)
}

#[unsafe(no_mangle)]
pub extern "C" fn tally_toggle(
    sheet: &[u8],
    variable: u32,
    marks: &mut [u32; words::WORDS],
    met: &mut [u8; tally::NUMBERS],
    unmet: &mut u32,
) -> TallyReply
    ensures { TallyMade (tally_toggle sheet.now variable)
        (tally_in marks.old met.old unmet.old)
        result (tally_in marks.new met.new unmet.new) }
{
    engine::tally_toggle(sheet, variable, marks, met, unmet)
}

#[unsafe(no_mangle)]
pub extern "C" fn tally_holds(unmet: u32) -> u32
    ensures { result ≡ cond (tally_holds unmet) 1 0 }
{
    engine::tally_holds(unmet)
}
