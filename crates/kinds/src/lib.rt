// Shelves that know every day of their load profiles by themselves.
#![tactic(auto)]

mod flat;
mod known;
mod typed;
mod typed_profile;

pub use flat::Flat;
pub use typed::Typed;
pub use typed_profile::{SeasonRows, TypedProfile};
