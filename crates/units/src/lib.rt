// The units of settlement, each a type of its own, and the refusals.
#![tactic(auto)]

mod energy;
mod make_error;
mod money;
mod quantity;
mod refusal;
#[cfg(test)]
mod tests;

pub use energy::grains::{Grain, Grains};
pub use energy::kwh::{KilowattHour, Kwh};
pub use energy::{billed_kwh, difference, rounded_once_stands};
pub use make_error::MakeError;
pub use money::amount;
pub use money::cents::{Cent, Cents};
pub use money::price::PriceHundredths;
pub use quantity::{Quantity, Unit};
pub use refusal::Refusal;
