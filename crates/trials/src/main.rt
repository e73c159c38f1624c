// Trials of the engine on generated sheets: n 0 to 12, clauses of 0 to 8 literals, half of the
// sheets Horn or nearly so, every plan, and budgets below, at and above the calls needed; and each
// sheet by splitting too. Each answer is compared with a trial of all assignments that shares
// nothing with the search: also the least model of a Horn sheet, and the first that splitting finds.
// Half of the sheets are decided in legs too, which are compared with a run, and while they grow.
// It prints every run that disagrees, and counts.
// The counts record how many sheets of each kind the fixed generator makes; that no run disagrees
// is what is tested.
#![tactic(auto)]

mod brute;
mod counts;
mod growth;
mod parked;
mod sheets;

use brute::{Clause, first_model, in_all_models, is_horn, meets};
use counts::{Counts, more};
use decision::{Ending, Method, Reply};
use parked::try_legs;
use sheets::{Random, Shape, Sheet};
use std::{fmt, io};

const SHEETS: u32 = 60000;

// Enough for most sheets; the others are spent.
const BUDGET: u32 = 10000;

const LARGEST_BUDGET: u32 = u32::MAX;

// The numbers by which a reply tells its verdict and its method.
const CLEAR: u32 = Ending::Clear as u32;

const NONE: u32 = Ending::None as u32;

const SPENT: u32 = Ending::Spent as u32;

const HORN: u32 = Method::Horn as u32;

// What decides a sheet: splitting, or a plan, which works rounds or balls.
#[derive(Clone, Copy, PartialEq, Eq)]
enum Road {
    Split,
    Horn,
    Balls,
}

// A sheet by its number, the road and the plan that it is tried with, and what its answer is
// compared with.
#[derive(Clone, Copy)]
struct Case<'a> {
    number: u32,
    shape: Shape,
    sheet: &'a [u8],
    clauses: &'a [Clause],
    road: Road,
    size: u32,
    radius: u32,
    first: Option<u32>,
    least: u32,
}

// The numbers of a reply.
#[derive(Clone, Copy)]
struct Numbers(Reply);

impl fmt::Display for Numbers {
    fn fmt<W: fmt::Write>(&self, f: &mut fmt::Formatter<W>) -> fmt::Result {
        let reply = self.0;
        write!(f, "verdict {} batch {}", reply.verdict, reply.batch)?;
        write!(f, " road {}", reply.road)?;
        write!(f, " marks {} {}", reply.marks0, reply.marks1)?;
        write!(f, " {} {}", reply.marks2, reply.marks3)?;
        write!(f, " calls {}", reply.calls)?;
        write!(f, " number {} place {}", reply.number, reply.place)
    }
}

impl Case<'_> {
    fn ask(self, budget: u32) -> Reply {
        match self.road {
            Road::Split => engine::split(budget, self.sheet),
            Road::Horn | Road::Balls => engine::run(self.size, self.radius, budget, self.sheet),
        }
    }

    // The method that a reply names.
    fn method(self) -> Method {
        match self.road {
            Road::Split => Method::Unnamed,
            Road::Horn => Method::Horn,
            Road::Balls => Method::Balls,
        }
    }

    // The sheets have so few variables that an assignment is its first word.
    fn counted(self, ending: Ending, marks: u32, calls: u32) -> Reply {
        Reply {
            verdict: ending.number(),
            batch: self.shape.batch,
            road: self.method().number(),
            marks0: marks,
            marks1: 0,
            marks2: 0,
            marks3: 0,
            calls,
            number: 0,
            place: 0,
        }
    }

    // Every answer counts fewer calls.
    fn too_many(self) -> u32 {
        match self.road {
            Road::Split => 2u32 << self.shape.n,
            Road::Horn => self.shape.n + 2,
            Road::Balls => BUDGET + 1,
        }
    }

    // The right answer to a first run that has these marks and calls. The search in balls may find
    // any model, for `agrees` to try.
    fn expected(self, reply: Reply) -> Reply {
        if reply.verdict == SPENT && self.road == Road::Balls {
            return self.counted(Ending::Spent, 0, BUDGET);
        }
        let Some(first) = self.first else {
            return self.counted(Ending::None, 0, reply.calls);
        };
        let marks = match self.road {
            Road::Split => first,
            Road::Horn => self.least,
            Road::Balls => reply.marks0,
        };
        self.counted(Ending::Clear, marks, reply.calls)
    }

    // Whether a first run agrees with the brute trial.
    fn agrees(self, reply: Reply) -> bool {
        if reply != self.expected(reply) || reply.calls == 0 || self.too_many() <= reply.calls {
            return false;
        }
        let marks = reply.marks0;
        reply.verdict != CLEAR || marks >> self.shape.n == 0 && meets(marks, self.clauses)
    }

    // A run that disagrees.
    fn report(
        self,
        rt: &impl Print,
        budget: u32,
        reply: Reply,
        counts: &mut Counts,
    ) -> io::Result<()> {
        more(&mut counts.disagreements);
        print!(rt; "sheet {} budget {budget}", self.number)?;
        if self.road == Road::Split {
            print!(rt; " split")?;
        } else {
            print!(rt; " plan {} {}", self.size, self.radius)?;
        }
        println!(rt; " {}", Numbers(reply))
    }

    // The sheet once more, with a budget whose answer is known.
    fn run_again(
        self,
        rt: &impl Print,
        budget: u32,
        answer: Reply,
        counts: &mut Counts,
    ) -> io::Result<()> {
        let reply = self.ask(budget);
        if reply != answer {
            return self.report(rt, budget, reply, counts);
        }
        more(&mut counts.budgets);
        Ok(())
    }

    // All runs: the first, and then budgets one below the calls needed, at them, and above. The
    // calls are at least 1, as `agrees` saw.
    fn run_all(self, rt: &impl Print, counts: &mut Counts) -> io::Result<()> {
        let reply = self.ask(BUDGET);
        if !self.agrees(reply) {
            return self.report(rt, BUDGET, reply, counts);
        }
        counts.add_verdict(self.road, reply.verdict);
        if reply.verdict == SPENT {
            return Ok(());
        }
        let calls = reply.calls;
        let less = calls.wrapping_sub(1);
        let spent = self.counted(Ending::Spent, 0, less);
        self.run_again(rt, less, spent, counts)?;
        self.run_again(rt, calls, reply, counts)?;
        self.run_again(rt, LARGEST_BUDGET, reply, counts)
    }
}

// The sheet of a shape with the plan whose turn it is, in one run and in legs, and then by
// splitting. The budgets of its legs are drawn from where its clauses were, so that they change no
// sheet.
fn try_sheet(
    rt: &impl Print,
    sheet: &Sheet,
    shape: Shape,
    number: u32,
    counts: &mut Counts,
) -> io::Result<()> {
    let size = 1 + number / 4 % 12;
    let clauses = sheet.clauses();
    let case = Case {
        number,
        shape,
        sheet: sheet.bytes(),
        clauses,
        road: if is_horn(clauses) {
            Road::Horn
        } else {
            Road::Balls
        },
        size,
        radius: number / 48 % (size + 1),
        first: first_model(shape.n, clauses),
        least: in_all_models(shape.n, clauses),
    };
    case.run_all(rt, counts)?;
    try_legs(rt, case, counts)?;
    let split = Case {
        road: Road::Split,
        ..case
    };
    split.run_all(rt, counts)
}

fn main(rt: HostRuntime) -> io::Result<()> {
    let mut sheet = Sheet::new();
    let mut counts = Counts::default();
    let mut random = Random {
        state: 88172645463325252,
    };
    for number in 0..SHEETS {
        let shape = Shape::draw(random, number);
        random = sheet.draw(shape);
        try_sheet(&rt, &sheet, shape, number, &mut counts)?;
    }
    rt.print(counts)
}
