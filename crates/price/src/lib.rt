// The unified price of a group of load profiles, from its mix and the exchange prices of twelve months.
#![tactic(auto)]

mod asked;
mod basis;
mod laws;
mod pricing;
mod rounding;
mod totals;
mod window;

pub use laws::flat_unified_price;
pub use pricing::{UnifiedPrice, unified_price};
pub use rounding::rounded_price;
