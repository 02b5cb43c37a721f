// Shelves of temperature-dependent load profiles.
#![tactic(auto)]

mod temperature;
mod weather;

pub use temperature::temperature_row;
pub use weather::Weather;
