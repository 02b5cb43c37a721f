// Load profiles as they can be asked and told, whatever holds them.
#![tactic(auto)]

mod bounds;
mod day_row;
mod group;
mod shelves;
mod target;
mod telling;

pub use bounds::{LARGEST_VALUE, MOST_PROFILES};
pub use day_row::DayRow;
pub use group::Group;
pub use shelves::Shelf;
pub use target::stretch_target;
pub use telling::{Tell, TellShelf, tell_all};
