// Shelves over other shelves, in any order and depth.
#![tactic(auto)]

mod day_factor;
mod pair;

pub use day_factor::DayFactor;
pub use pair::Pair;
