// One supplier's period at one point, and the account that settles it.
use units::{Cents, Grains, Kwh, PriceHundredths};

// What is known of the period. Its profile's values add up to the same each day.
#[derive(Clone, Copy)]
pub struct Period {
    // the first and the last day of use
    pub use_from: u32,
    pub use_end: u32,
    // the first balanced day
    pub balanced_from: u32,
    pub day_sum: u32,
    // kWh a year
    pub forecast: u32,
    // the meter, in kWh, at the end of the day before use, and of its last day
    pub reading_before: u32,
    pub reading_at_end: u32,
    pub price: PriceHundredths,
}

// What the period comes to.
#[derive(Clone, Copy)]
pub struct Account {
    // the balanced days
    pub days: u32,
    pub target: Grains,
    pub actual: Kwh,
    pub difference: Grains,
    pub billed: Kwh,
    // what rounding leaves to a next bill
    pub left: Grains,
    pub amount: Cents,
}

// A period that is settled.
#[derive(Clone, Copy)]
pub struct Settlement {
    pub period: Period,
    pub account: Account,
}
