// Covering codes, ball volumes and the sphere covering bound: the operations `code`, `volume` and
// `floor`, exact on every input.
#![tactic(auto)]

mod greedy;
mod plan;
mod volumes;

ghost use Rattle.std.specs.Prelude.{◌≡◌, true, false, MatchResult};
ghost use Rattle.words.specs.Refusals.{number_of};
ghost use Rattle.code.specs.Operations.{code_answer, code_table, measured?, volume_answer, floor_answer};
ghost use Rattle.code.specs.Machine.{answer_in};

pub use greedy::fill;
use greedy::power;
pub use plan::Plan;
use volumes::volume_at;
use words::{Reason, Refused};

// The longest block, and room for any code: 2^12 words.
pub const BLOCK_LIMIT: u32 = 12;

pub const CELLS: usize = 4096;

// Whether there is a volume.
fn measured(t: u32, s: u32) -> Result<(), Refused>
    ensures { MatchResult result
        (λ _. measured? t s ≡ true)
        (λ e. (number_of e.reason ≡ 8) × (e.place ≡ 0) × (measured? t s ≡ false)) }
{
    if t <= BLOCK_LIMIT && s <= BLOCK_LIMIT {
        Ok(())
    } else {
        Err(Reason::BadPlan.at(0))
    }
}

pub fn volume(t: u32, s: u32) -> Result<u32, Refused>
    ensures { answer_in result ≡ volume_answer t s }
{
    measured(t, s)?;
    Ok(volume_at(t, s))
}

pub fn floor(t: u32, s: u32) -> Result<u32, Refused>
    ensures { answer_in result ≡ floor_answer t s }
{
    measured(t, s)?;
    Ok((power(t) as u32).div_ceil(volume_at(t, s)))
}

pub fn code(t: u32, s: u32, table: &mut [u16]) -> Result<u32, Refused>
    ensures answer { answer_in result ≡ code_answer t s table.old }
    ensures cells { table.new ≡ code_table t s table.old }
{
    let plan = Plan::new(t, s)?;
    if table.len() < power(t) {
        return Err(Reason::ShortTable.at(0));
    }
    Ok(fill(plan, table) as u32)
}
