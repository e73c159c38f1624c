// The operations on codes, on two sheets, on a clause and on a tally, as engine_c exports them to a
// host in C: the answers of the crates code, alike, ball and tally, in numbers.
ghost use Rattle.std.specs.Prelude.{◌≡◌, cond};
ghost use Rattle.alike.specs.Machine.{comparison_in};
ghost use Rattle.code.specs.Machine.{answer_in};
ghost use Rattle.code.specs.Operations.{code_answer, code_table, volume_answer, floor_answer};
ghost use Rattle.tally.specs.Tally.{tally_begin, tally_toggle, tally_holds, tally_in};
ghost use Rattle.engine.specs.Replies.{result_of, comparison_of, alike_to, clause_counts_to, TallyMade};
ghost use Rattle.engine.specs.Machine.{outcome_reply};
ghost use Rattle.words.specs.Bits.{from_words};

use alike::Declined;
use formula::Sheet;
use words::{Assignment, Refused};

// The answer's number in a reply (specs/Replies.antt); a refusal's is that of `run`.
pub const ALIKE: u32 = 1;

pub const DIFFERENT: u32 = 2;

// The number asked for, or a refusal; what does not belong to the answer is 0.
#[repr(C)]
#[derive(Clone, Copy)]
pub struct NumberReply {
    pub result: u32,
    pub number: u32,
    pub place: u32,
}

// What two sheets are to each other, or a refusal and the sheet that it is about.
#[repr(C)]
#[derive(Clone, Copy)]
pub struct AlikeReply {
    pub answer: u32,
    pub sheet: u32,
    pub number: u32,
    pub place: u32,
}

// How many literals of a clause are met and how many are open, or a refusal.
#[repr(C)]
#[derive(Clone, Copy)]
pub struct CountsReply {
    pub met: u32,
    pub open: u32,
    pub number: u32,
    pub place: u32,
}

// Nothing refused, or a refusal.
#[repr(C)]
#[derive(Clone, Copy)]
pub struct TallyReply {
    pub number: u32,
    pub place: u32,
}

impl From<Result<u32, Refused>> for NumberReply {
    ghost from_gives = { λ answer reply. reply ≡ result_of (answer_in answer) };

    #[tactic(auto, unfolding(crate::specs::Replies::result_of))]
    fn from(answer: Result<u32, Refused>) -> NumberReply {
        match answer {
            Ok(result) => NumberReply {
                result,
                number: 0,
                place: 0,
            },
            Err(refused) => NumberReply {
                result: 0,
                number: refused.reason.number(),
                place: refused.place,
            },
        }
    }
}

pub fn covering_code(t: u32, s: u32, table: &mut [u16]) -> NumberReply
    ensures answer { result ≡ result_of (code_answer t s table.old) }
    ensures cells { table.new ≡ code_table t s table.old }
{
    NumberReply::from(code::code(t, s, table))
}

pub fn ball_volume(t: u32, s: u32) -> NumberReply
    ensures { result ≡ result_of (volume_answer t s) }
{
    NumberReply::from(code::volume(t, s))
}

pub fn covering_floor(t: u32, s: u32) -> NumberReply
    ensures { result ≡ result_of (floor_answer t s) }
{
    NumberReply::from(code::floor(t, s))
}

impl From<Result<bool, Declined>> for AlikeReply {
    ghost from_gives = { λ answer reply. reply ≡ comparison_of (comparison_in answer) };

    fn from(answer: Result<bool, Declined>) -> AlikeReply {
        match answer {
            Ok(same) => AlikeReply {
                answer: if same { ALIKE } else { DIFFERENT },
                sheet: 0,
                number: 0,
                place: 0,
            },
            Err(declined) => AlikeReply {
                answer: decision::Ending::Refused as u32,
                sheet: declined.sheet.number(),
                number: declined.refused.reason.number(),
                place: declined.refused.place,
            },
        }
    }
}

pub fn alike(first: &[u8], second: &[u8]) -> AlikeReply
    ensures { result ≡ alike_to first.now second.now }
{
    AlikeReply::from(alike::compare(first, second))
}

pub fn clause_counts(
    sheet: &[u8],
    clause: u32,
    marks: &[u32; words::WORDS],
    flipped: &[u32; words::WORDS],
) -> CountsReply
    ensures { result ≡ clause_counts_to sheet.now clause
        (record { assignment = from_words marks.now; flipped = from_words flipped.now }) }
{
    let mut held = Sheet::empty();
    match held.read(sheet) {
        Ok(()) => {
            let assignment = Assignment::from_words(marks);
            let set = Assignment::from_words(flipped);
            let at = clause as usize;
            let reading = ball::clause_reading(&held, at, assignment, set);
            CountsReply {
                met: reading.met,
                open: reading.open,
                number: 0,
                place: 0,
            }
        }
        Err(refused) => CountsReply {
            met: 0,
            open: 0,
            number: refused.reason.number(),
            place: refused.place,
        },
    }
}

impl From<Result<(), Refused>> for TallyReply {
    ghost from_gives = { λ outcome reply. reply ≡ outcome_reply outcome };

    #[tactic(auto, unfolding(crate::specs::Machine::outcome_reply))]
    fn from(outcome: Result<(), Refused>) -> TallyReply {
        match outcome {
            Ok(()) => TallyReply {
                number: 0,
                place: 0,
            },
            Err(refused) => TallyReply {
                number: refused.reason.number(),
                place: refused.place,
            },
        }
    }
}

pub fn tally_begin(
    sheet: &[u8],
    marks: &mut [u32; words::WORDS],
    met: &mut [u8; tally::NUMBERS],
    unmet: &mut u32,
) -> TallyReply
    ensures { TallyMade (λ _. tally_begin sheet.now)
        (tally_in marks.old met.old unmet.old)
        result (tally_in marks.new met.new unmet.new) }
{
    TallyReply::from(tally::begin(sheet, marks, met, unmet))
}

pub fn tally_toggle(
    sheet: &[u8],
    variable: u32,
    marks: &mut [u32; words::WORDS],
    met: &mut [u8; tally::NUMBERS],
    unmet: &mut u32,
) -> TallyReply
    ensures { TallyMade (tally_toggle sheet.now variable)
        (tally_in marks.old met.old unmet.old)
        result (tally_in marks.new met.new unmet.new) }
{
    TallyReply::from(tally::toggle(sheet, variable, marks, met, unmet))
}

pub fn tally_holds(unmet: u32) -> u32
    ensures { result ≡ cond (tally_holds unmet) 1 0 }
{
    if tally::holds(unmet) { 1 } else { 0 }
}
