// What collides in a sheet that gets none (02, paper 13): reads what the program `clearing` reads,
// and prints the answer on one line and, for a none, the numbers of the clauses of a minimal core on
// a second.
#![tactic(auto)]

ghost use Rattle.std.specs.Prelude.{◌≡◌, length};
ghost use Rattle.decision.specs.Answers.{reply_of};
ghost use Rattle.deletion.specs.Core.{list_after};
ghost use Rattle.minimal_core.specs.Program.{program_core};

use decision::{Ending, Reply};
use formula::CLAUSES;
use line::{INPUT, Line, Request, read_input};
use std::io;
use words::Reason;

// Input that is too short for a plan and a budget is a bad plan.
#[tactic(auto, unfolding(crate::specs::Program::program_core, deletion::specs::Core::ended, deletion::specs::Core::clash_to, deletion::specs::Core::list_after, decision::specs::Answers::refusal, words::specs::Refusals::number_of, decision::specs::Answers::reply_of, decision::specs::Answers::numbers_of,))]
fn answer(input: &[u8], list: &mut [u16]) -> Reply
    ensures answer { result ≡ reply_of (program_core input.now (length list.old)).decision }
    ensures cells { list.new ≡ list_after (program_core input.now (length list.old)).kept list.old }
{
    let Some(asked) = Request::read(input) else {
        return decision::declined(Reason::BadPlan.number(), 0);
    };
    engine::clash(asked.size, asked.radius, asked.budget, asked.sheet, list)
}

// The numbers on one line, with spaces between them.
fn print_numbers(rt: &impl Print, numbers: &[u16]) -> io::Result<()> {
    for (i, number) in numbers.iter().enumerate() {
        if 0 < i {
            print!(rt; " ")?;
        }
        print!(rt; "{number}")?;
    }
    println!(rt)
}

fn main(rt: HostRuntime) -> io::Result<()> {
    let mut room = [0u8; INPUT];
    let input = read_input(&rt, &mut room)?;
    let mut list = [0u16; CLAUSES];
    let reply = answer(input, &mut list);
    rt.println(Line::from(reply))?;
    if reply.verdict == Ending::None.number() {
        let count = CLAUSES.min(reply.calls as usize);
        print_numbers(&rt, &list[..count])?;
    }
    Ok(())
}
