// What the programs read, and the line that they print for a reply (paper 01, "Settled examples").
#![tactic(auto)]

ghost use Rattle.std.specs.Prelude.{◌≡◌, ◌≤◌, ◌<◌, length, IfOk, MatchOption, Some};
ghost use Rattle.line.specs.Line.{line_of, line_text, verdict_text, method_text};

use decision::{Ending, Reply};
use formula::word_at;
use std::io::Read;
use std::{fmt, io};

// Room for a word more than the plan, the budget and the longest sheet: longer input is seen as
// overlong.
pub const INPUT: usize = 36892;

// Standard input, as much of it as `room` holds.
pub fn read_input<'a>(rt: &impl Input, room: &'a mut [u8]) -> io::Result<&'a [u8]>
    ensures { IfOk result (λ input. length input.now ≤ length room.old) }
{
    let mut reader = rt.reader();
    let mut done = 0;
    // no `for`: each read brings as many bytes as it likes, and the method of std that fills a slice says
    // nothing of input that is shorter
    while done < room.len() {
        let n = reader.read(&mut room[done..])?;
        if n == 0 {
            break;
        }
        done += n;
    }
    Ok(&room[..done])
}

// What the programs are asked: a plan (block length and radius), a budget of calls and a sheet.
#[derive(Clone, Copy)]
pub struct Request<'a> {
    pub size: u32,
    pub radius: u32,
    pub budget: u32,
    pub sheet: &'a [u8],
}

impl<'a> Request<'a> {
    ghost use Rattle.line.specs.Request.{IsRequest};

    // The first three words of the input, low byte first, and the rest of it. Input of fewer than 12
    // bytes is too short.
    pub fn read(input: &'a [u8]) -> Option<Request<'a>>
        ensures { MatchOption result (length input.now < 12) (λ r. IsRequest input.now r) }
    {
        if input.len() < 12 {
            return None;
        }
        Some(Request {
            size: word_at(input, 0),
            radius: word_at(input, 1),
            budget: word_at(input, 2),
            sheet: &input[12..],
        })
    }
}

// The word for how a sheet was decided.
#[derive(Clone, Copy, Debug, PartialEq, Eq)]
pub enum Method {
    Horn,
    Ball,
}

impl fmt::Display for Method {
    ghost output = { λ x. Some (method_text x) };

    fn fmt<W: fmt::Write>(&self, f: &mut fmt::Formatter<W>) -> fmt::Result {
        f.write_str(match self {
            Method::Horn => "horn",
            Method::Ball => "ball",
        })
    }
}

// The word for what became of it.
#[derive(Clone, Copy, Debug, PartialEq, Eq)]
pub enum Verdict {
    Clear,
    None,
    Spent,
}

impl fmt::Display for Verdict {
    ghost output = { λ x. Some (verdict_text x) };

    fn fmt<W: fmt::Write>(&self, f: &mut fmt::Formatter<W>) -> fmt::Result {
        f.write_str(match self {
            Verdict::Clear => "clear",
            Verdict::None => "none",
            Verdict::Spent => "spent",
        })
    }
}

// The numbers by which a reply tells them.
const REFUSED: u32 = Ending::Refused as u32;

const CLEAR: u32 = Ending::Clear as u32;

const NONE: u32 = Ending::None as u32;

const HORN: u32 = decision::Method::Horn as u32;

// What a line says of a reply.
#[derive(Clone, Copy, Debug, PartialEq, Eq)]
pub enum Line {
    Refused {
        number: u32,
        place: u32,
    },
    Decided {
        batch: u32,
        method: Method,
        verdict: Verdict,
        calls: u32,
        marks: [u32; 4],
    },
}

impl From<Reply> for Line {
    ghost from_gives = { λ reply line. line ≡ line_of reply };

    fn from(reply: Reply) -> Line {
        let verdict = match reply.verdict {
            REFUSED => {
                return Line::Refused {
                    number: reply.number,
                    place: reply.place,
                };
            }
            CLEAR => Verdict::Clear,
            NONE => Verdict::None,
            _ => Verdict::Spent,
        };
        let method = match reply.road {
            HORN => Method::Horn,
            _ => Method::Ball,
        };
        Line::Decided {
            batch: reply.batch,
            method,
            verdict,
            calls: reply.calls,
            marks: [reply.marks0, reply.marks1, reply.marks2, reply.marks3],
        }
    }
}

impl fmt::Display for Line {
    ghost output = { λ x. Some (line_text x) };

    fn fmt<W: fmt::Write>(&self, f: &mut fmt::Formatter<W>) -> fmt::Result {
        match *self {
            Line::Refused { number, place } => write!(f, "refused {number} place {place}"),
            Line::Decided {
                batch,
                method,
                verdict,
                calls,
                marks,
            } => {
                let [a, b, c, d] = marks;
                write!(f, "batch {batch} {method} {verdict} calls {calls}")?;
                write!(f, " marks {a} {b} {c} {d}")
            }
        }
    }
}
