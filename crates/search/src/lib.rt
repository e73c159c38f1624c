// The search over all balls of a covering code, within a budget of calls.
#![tactic(auto)]

mod balls;
mod block_code;
mod codes;
mod layout;
mod partial;

ghost use Rattle.std.specs.Prelude.{◌≡◌, ℕ, ◌^◌, ◌<◌};
ghost use Rattle.tree.specs.Machine.{answer_in};
ghost use Rattle.tree.specs.Budget.{answer};
ghost use Rattle.tree.specs.Legs.{cut};
ghost use Rattle.code.specs.Code.{code};
ghost use Rattle.search.specs.Run.{blocks, centre_count, run, leg_of};
ghost use Rattle.search.specs.Machine.{plan_in, blocks_of, search_in, search_by, progress_in};

use ball::{Ball, counts};
pub use balls::Progress;
pub use block_code::BlockCode;
use code::Plan;
pub use codes::Codes;
use formula::Sheet;
pub use layout::{CENTRES, Layout};
use planes::Occurrences;
use tree::Found;

// The balls from `start` on, within the budget, of a sheet's clauses, by the codes for its variables.
pub fn leg(sheet: &Sheet, codes: &Codes, start: u64, budget: u32) -> Progress
    requires same_n { sheet.now.n ≡ codes.now.n }
    requires start { start < 2 ^ 63 }
    ensures { progress_in (centre_count (blocks_of codes.now)) result ≡ leg_of (search_by sheet.now codes.now) budget start }
{
    let occ = Occurrences::of(sheet);
    let mut planes = counts::start(&occ, sheet.n);
    let reach = balls::flips(&occ, &planes, codes.radius());
    let ball = Ball {
        sheet,
        occ: &occ,
        budget,
    };
    balls::balls(&ball, codes, &mut planes, reach, start)
}

// The answer of a search that is not carried out in legs: spent, it counts the whole budget.
fn in_one(progress: Progress, budget: u32) -> Found
    ensures { (E : ℕ) → answer_in result ≡ cut budget (progress_in E progress).answer }
{
    match progress {
        Progress::Clear(model, calls) => Found::Clear(model, calls),
        Progress::None(calls) => Found::None(calls),
        Progress::Spent { .. } => Found::Spent(budget),
    }
}

// The answer within the budget, of a sheet's clauses, by the codes for its variables,
pub fn run_laid(sheet: &Sheet, codes: &Codes, budget: u32) -> Found
    requires { sheet.now.n ≡ codes.now.n }
    ensures { answer_in result ≡ answer budget (run (search_by sheet.now codes.now)) }
{
    in_one(leg(sheet, codes, 0, budget), budget)
}

// and by a plan: block length and radius.
pub fn run(sheet: &Sheet, plan: Plan, budget: u32) -> Found
    ensures { answer_in result ≡ answer budget (run (search_in sheet.now.count sheet.now.cells (blocks code (plan_in plan) sheet.now.n))) }
{
    let mut codes = Codes::empty(plan);
    codes.lay_out(sheet.n);
    run_laid(sheet, &codes, budget)
}
