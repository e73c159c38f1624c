// The code of one block.
use code::Plan;

// The length and the radius of a block, and how many words its code has. They stand in a table
// beside: one in here, 8 KB, would be copied with each Option around it.
#[derive(Clone, Copy)]
pub struct BlockCode {
    pub size: u32,
    pub radius: u32,
    pub count: u64,
}

impl BlockCode {
    ghost use Rattle.std.specs.Prelude.{◌≡◌, ◌/◌, ◌%◌, min, take};
    ghost use Rattle.code.specs.Code.{code};
    ghost use Rattle.search.specs.Blocks.{Coded, Holds};

    // The code of a plan. The words go to the first cells of the table.
    fn fill(plan: Plan, words: &mut [u16; code::CELLS]) -> BlockCode
        ensures plan { (result.size ≡ plan.size) × (result.radius ≡ plan.radius) }
        ensures listed { take result.count words.new ≡ code plan.size plan.radius }
        ensures coded { Coded result words.new }
    {
        let count = code::fill(plan, words) as u64;
        BlockCode {
            size: plan.size,
            radius: plan.radius,
            count,
        }
    }

    // The code of the whole blocks of n variables by a plan, if there is one,
    pub(crate) fn of_whole(plan: Plan, n: u32, words: &mut [u16; code::CELLS]) -> Option<BlockCode>
        ensures { Holds (n / plan.size) plan.size plan.radius result words.new }
    {
        if plan.size <= n {
            Some(BlockCode::fill(plan, words))
        } else {
            None
        }
    }

    // and of the shorter last one.
    pub(crate) fn of_last(plan: Plan, n: u32, words: &mut [u16; code::CELLS]) -> Option<BlockCode>
        ensures { Holds (n % plan.size) (n % plan.size) (min plan.radius (n % plan.size)) result words.new }
    {
        let rest = n % plan.size;
        if rest == 0 {
            return None;
        }
        let short = Plan {
            size: rest,
            radius: plan.radius.min(rest),
        };
        Some(BlockCode::fill(short, words))
    }
}
