// The program of paper 01: reads the plan and the budget as three 32-bit words, low byte first, and
// then a sheet, and prints the engine's answer on one line.
#![tactic(auto)]

ghost use Rattle.std.specs.Prelude.{◌≡◌};
ghost use Rattle.clearing.specs.Program.{program_reply};

use decision::Reply;
use line::{INPUT, Line, Request, read_input};
use std::io;
use words::Reason;

// Input that is too short for a plan and a budget is a bad plan.
#[tactic(auto, unfolding(crate::specs::Program::program_reply, words::specs::Refusals::number_of,))]
fn answer(input: &[u8]) -> Reply
    ensures { result ≡ program_reply input.now }
{
    let Some(asked) = Request::read(input) else {
        return decision::declined(Reason::BadPlan.number(), 0);
    };
    engine::run(asked.size, asked.radius, asked.budget, asked.sheet)
}

fn main(rt: HostRuntime) -> io::Result<()> {
    let mut room = [0u8; INPUT];
    let input = read_input(&rt, &mut room)?;
    rt.println(Line::from(answer(input)))
}
