// Mixes of load profiles, by which a group's price is weighted.
#![tactic(auto)]

mod mixes;
mod share;

pub use mixes::Mix;
pub use share::Share;
