// A centre in the making.
ghost use Rattle.std.specs.Prelude.{◌+◌, ◌^◌, ◌≤◌, ◌<◌};
ghost use Rattle.words.specs.Bits.{width};
ghost use Rattle.words.specs.Machine.{bits_of};
ghost use Rattle.search.specs.Blocks.{Coded};
ghost use Rattle.search.specs.Machine.{Joined};

use crate::block_code::BlockCode;
use words::Assignment;

// The bits of the blocks so far, where the next block's go, and what is left of the centre's number.
#[derive(Clone, Copy)]
pub struct Partial {
    pub assignment: Assignment,
    pub shift: u32,
    pub left: u64,
}

impl Partial {
    // One block more: quotient and remainder pick a word of its code.
    pub fn with_block(self, block: &BlockCode, words: &[u16; code::CELLS]) -> Partial
        requires coded { Coded block.now words.now }
        requires room { self.shift + block.now.size ≤ width }
        requires below { bits_of self.assignment < 2 ^ self.shift }
        ensures { Joined block.now words.now self result }
    {
        let at = (self.left % block.count) as usize;
        let word = u32::from(words[at]);
        let shift = self.shift;
        let assignment = self.assignment;
        Partial {
            assignment: assignment.joined(word, shift),
            shift: shift + block.size,
            left: self.left / block.count,
        }
    }
}
