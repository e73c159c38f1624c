// Of which lengths and radii there is a code.
ghost use Rattle.std.specs.Prelude.{◌≤◌};
ghost use Rattle.code.specs.Operations.{block_limit};

use crate::BLOCK_LIMIT;
use words::{Reason, Refused};

// A length and a radius of which there is a code.
#[derive(Clone, Copy)]
pub struct Plan {
    pub size: u32,
    pub radius: u32,
    pub ghost at_least: { 1 ≤ size },
    pub ghost at_most: { size ≤ block_limit },
    pub ghost within: { radius ≤ size },
}

impl Plan {
    ghost use Rattle.std.specs.Prelude.{◌≡◌, true, false, MatchResult};
    ghost use Rattle.words.specs.Refusals.{number_of};
    ghost use Rattle.code.specs.Operations.{coded?};

    pub fn new(size: u32, radius: u32) -> Result<Plan, Refused>
        ensures { MatchResult result
            (λ plan. (plan.size ≡ size) × (plan.radius ≡ radius) × (coded? size radius ≡ true))
            (λ e. (number_of e.reason ≡ 8) × (e.place ≡ 0) × (coded? size radius ≡ false)) }
    {
        if 1 <= size && size <= BLOCK_LIMIT && radius <= size {
            Ok(Plan { size, radius })
        } else {
            Err(Reason::BadPlan.at(0))
        }
    }
}
