// The search in one ball, within a budget of calls.
#![tactic(auto)]

mod ball;
mod choice;
pub mod counts;
mod path;
mod reading;

pub use ball::Ball;
pub use choice::force;
pub use path::Path;
pub use reading::{Reading, clause_reading};
