// Energy in grains.
ghost use Rattle.std.specs.Prelude.{◌≡◌, ℕ, ◌+◌, ◌*◌, ◌^◌, ◌<◌, ◌≤◌, ℤ, pos, negsuc, ◌≤ℤ◌, ◌<ℤ◌, MatchOption, unsigned_abs};
ghost use Rattle.std.proofs.Common.{arith};
ghost use Rattle.units.specs.Energy.{rounded, rest, surplus, shortfall};

use super::kwh::Kwh;
use super::whole_kwh;
use crate::quantity::{Quantity, Unit};

// A forty-millionth of a kilowatt-hour: a profile's value, in tenths of a watt, times a yearly forecast, in kWh, is what a quarter hour
// balances, in whole grains.
#[derive(Clone, Copy)]
pub struct Grain;

impl Unit for Grain {
    ghost most = { 10 ^ 30 };

    ghost reach = { omega arith };
}

// Energy in grains, at most 10^30 either way.
pub type Grains = Quantity<Grain>;

const MOST: u128 = 1_000_000_000_000_000_000_000_000_000_000;

impl Grains {
    // None where the count passes 10^30 either way.
    pub fn new(count: i128) -> Option<Grains>
        ensures { MatchOption result (10 ^ 30 < unsigned_abs count) (λ g. g.count ≡ count) }
    {
        (count.unsigned_abs() <= MOST).then(|| Grains::of(count))
    }

    // What a yearly forecast, in kWh, balances on a day on which its profile's values add up to `day_sum`.
    pub fn on_day(forecast: u32, day_sum: u32) -> Grains
        ensures { result.count ≡ pos (forecast * day_sum) }
    {
        Grains::of(i128::from(u64::from(forecast) * u64::from(day_sum)))
    }

    // The nearest whole kilowatt-hours, halves up.
    pub fn rounded(self) -> Kwh
        ensures { result.count ≡ rounded self.count }
    {
        Kwh::of(whole_kwh(self.count))
    }

    // What rounding leaves: from half a kilowatt-hour too much to just under half too little.
    pub fn rounding_rest(self) -> Grains
        ensures value { result.count ≡ rest self.count }
        ensures low { negsuc 19999999 ≤ℤ result.count }
        ensures high { result.count <ℤ pos 20000000 }
    {
        Grains::of(self.count - 40_000_000 * whole_kwh(self.count))
    }

    // The grains above zero, which are owed to the supplier.
    pub fn surplus(self) -> Grains
        ensures { result.count ≡ pos (surplus self.count) }
    {
        Grains::of(self.count.max(0))
    }

    // The size of the grains below zero, which the supplier owes.
    pub fn shortfall(self) -> Grains
        ensures { result.count ≡ pos (shortfall self.count) }
    {
        Grains::of(-self.count.min(0))
    }
}
