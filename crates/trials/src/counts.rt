// How many sheets and runs agreed with what they were compared with, and how many did not.
use crate::{CLEAR, NONE, Road};
use std::fmt;

// How many sheets came to each verdict.
#[derive(Clone, Copy, Default)]
pub struct Verdicts {
    clear: u64,
    none: u64,
    spent: u64,
}

// How many sheets agreed, by road and verdict (Horn sheets are never spent here, and splitting never
// is); how many runs with another budget agreed; and how many runs did not. Then of the sheets in
// legs: how many Horn sheets agreed, how many searches, the legs of these, and how many did not; and
// of those that grew how many agreed, went on from a later ball, and had other calls than a run.
#[derive(Clone, Copy, Default)]
pub struct Counts {
    horn: Verdicts,
    balls: Verdicts,
    split: Verdicts,
    pub budgets: u64,
    pub disagreements: u64,
    pub horn_legs: u64,
    pub searches: u64,
    pub legs: u64,
    pub leg_disagreements: u64,
    pub growths: u64,
    pub later: u64,
    pub other_sums: u64,
}

// Wrapping, so that no bound is carried along: no count comes near the end of its type.
pub fn more(count: &mut u64) {
    *count = count.wrapping_add(1);
}

impl Counts {
    pub fn add_verdict(&mut self, road: Road, verdict: u32) {
        let verdicts = match road {
            Road::Split => &mut self.split,
            Road::Horn => &mut self.horn,
            Road::Balls => &mut self.balls,
        };
        more(match verdict {
            CLEAR => &mut verdicts.clear,
            NONE => &mut verdicts.none,
            _ => &mut verdicts.spent,
        });
    }
}

impl fmt::Display for Counts {
    fn fmt<W: fmt::Write>(&self, f: &mut fmt::Formatter<W>) -> fmt::Result {
        writeln!(f, "horn clear {}", self.horn.clear)?;
        writeln!(f, "horn none {}", self.horn.none)?;
        writeln!(f, "ball clear {}", self.balls.clear)?;
        writeln!(f, "ball none {}", self.balls.none)?;
        writeln!(f, "ball spent {}", self.balls.spent)?;
        writeln!(f, "split clear {}", self.split.clear)?;
        writeln!(f, "split none {}", self.split.none)?;
        writeln!(f, "budgets {}", self.budgets)?;
        writeln!(f, "disagreements {}", self.disagreements)?;
        write!(f, "legs: horn {}", self.horn_legs)?;
        write!(f, " searches {}", self.searches)?;
        write!(f, " legs {}", self.legs)?;
        writeln!(f, " disagreements {}", self.leg_disagreements)?;
        write!(f, "grown {}", self.growths)?;
        write!(f, " from a later ball {}", self.later)?;
        writeln!(f, " with other calls {}", self.other_sums)
    }
}
