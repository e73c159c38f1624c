// The blocks of a search by their numbers, and how many centres those make.
use crate::block_code::BlockCode;

// A search with so many centres or more is not carried out in legs.
pub const CENTRES: u64 = 9223372036854775808;

// So many whole blocks, and a last one: the code of each where there is such a block.
#[derive(Clone, Copy)]
pub struct Layout {
    pub blocks: u32,
    pub whole: Option<BlockCode>,
    pub last: Option<BlockCode>,
}

impl Layout {
    ghost use Rattle.std.specs.Prelude.{◌≡◌, min};
    ghost use Rattle.search.specs.Blocks.{centres_in};
    ghost use Rattle.search.specs.Machine.{most_centres};

    // M, or CENTRES where there are more.
    pub fn centres(self) -> u64
        ensures { result ≡ min (centres_in self) most_centres }
    {
        let mut made: u64 = 1;
        if let Some(whole) = self.whole {
            for _j in 0..self.blocks {
                made = made.saturating_mul(whole.count).min(CENTRES);
            }
        }
        if let Some(last) = self.last {
            made = made.saturating_mul(last.count).min(CENTRES);
        }
        made
    }
}
