// What every search within a budget of calls gives. The definitions of searches are in specs/, their
// laws and what follows for an engine that decides in proofs/.
#![tactic(auto)]

ghost use Rattle.std.specs.Prelude.{◌≡◌, leb};

use words::Assignment;

// What a search gives within its budget, with the calls made.
#[derive(Clone, Copy)]
pub enum Found {
    Clear(Assignment, u32),
    None(u32),
    Spent(u32),
}

// No call is left of the budget: tested before each call.
pub fn exhausted(calls: u32, budget: u32) -> bool
    ensures { result ≡ leb budget calls }
{
    budget <= calls
}
