// Blocks with the words of their codes, made once for a run, and the centres that they have.
ghost use Rattle.std.specs.Prelude.{◌≡◌, ◌≤◌};
ghost use Rattle.words.specs.Bits.{width};
ghost use Rattle.search.specs.Blocks.{variables_in, reach_in, Laid};

use crate::block_code::BlockCode;
use crate::layout::Layout;
use crate::partial::Partial;
use code::Plan;
use words::Assignment;

// The blocks of n variables. The words of the two codes stand in tables, which are filled in place.
// `plan` is a name alone: the words may be of any code, and those that `lay_out` gives are the plan's.
#[derive(Drop)]
pub struct Codes {
    pub n: u32,
    pub plan: Plan,
    pub layout: Layout,
    pub whole_words: [u16; code::CELLS],
    pub last_words: [u16; code::CELLS],
    pub ghost laid: { Laid layout whole_words last_words },
    pub ghost variables: { n ≡ variables_in layout },
    pub ghost reach: { reach_in layout ≤ width },
}

impl Codes {
    ghost use Rattle.std.specs.Prelude.{min};
    ghost use Rattle.code.specs.Code.{code};
    ghost use Rattle.search.specs.Run.{blocks, summed_radius, centre_count};
    ghost use Rattle.search.specs.Blocks.{HoldsPlan};
    ghost use Rattle.search.specs.Machine.{plan_in, blocks_of, most_centres, CentreFound};

    // Of no variables yet. A value of 16 KB: it is made where it stays, and laid out there.
    #[inline]
    pub fn empty(plan: Plan) -> Codes
        ensures named { (result.n ≡ 0) × (result.plan ≡ plan) }
        ensures laid { blocks_of result ≡ blocks code (plan_in plan) 0 }
        ensures held { HoldsPlan (plan_in plan) 0 result.layout result.whole_words result.last_words }
    {
        Codes {
            n: 0,
            plan,
            layout: Layout {
                blocks: 0,
                whole: None,
                last: None,
            },
            whole_words: [0; code::CELLS],
            last_words: [0; code::CELLS],
        }
    }

    // The codes of n variables by the plan.
    pub fn lay_out(&mut self, n: u32)
        requires { n ≤ width }
        ensures named { (self.new.n ≡ n) × (self.new.plan ≡ self.old.plan) }
        ensures laid { blocks_of self.new ≡ blocks code (plan_in self.old.plan) n }
        ensures held { HoldsPlan (plan_in self.old.plan) n self.new.layout self.new.whole_words self.new.last_words }
    {
        let plan = self.plan;
        self.n = n;
        self.layout = Layout {
            blocks: n / plan.size,
            whole: BlockCode::of_whole(plan, n, &mut self.whole_words),
            last: BlockCode::of_last(plan, n, &mut self.last_words),
        };
    }

    // R: the sum of the blocks' radii.
    pub fn radius(&self) -> u32
        ensures { result ≡ summed_radius (blocks_of self.now) }
    {
        let wholes = match &self.layout.whole {
            None => 0,
            Some(whole) => self.layout.blocks * whole.radius,
        };
        match &self.layout.last {
            None => wholes,
            Some(last) => wholes + last.radius,
        }
    }

    // How many centres there are, M, or CENTRES where there are more.
    pub fn centres(&self) -> u64
        ensures { result ≡ min (centre_count (blocks_of self.now)) most_centres }
    {
        self.layout.centres()
    }

    // Centre i, if there is one: a word of each block's code. What is left of i in the end is 0 just
    // where there is.
    pub fn centre(&self, i: u64) -> Option<Assignment>
        ensures { CentreFound self.now i result }
    {
        let mut made = Partial {
            assignment: Assignment::zero(),
            shift: 0,
            left: i,
        };
        if let Some(whole) = &self.layout.whole {
            for _j in 0..self.layout.blocks {
                made = made.with_block(whole, &self.whole_words);
            }
        }
        if let Some(last) = &self.layout.last {
            made = made.with_block(last, &self.last_words);
        }
        if made.left == 0 {
            Some(made.assignment)
        } else {
            None
        }
    }
}
