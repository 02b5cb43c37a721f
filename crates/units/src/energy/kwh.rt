// Energy in whole kilowatt-hours.
ghost use Rattle.std.specs.Prelude.{◌≡◌, ◌^◌, ◌≤◌, ℤ, pos, unsigned_abs};
ghost use Rattle.std.proofs.Common.{arith};

use crate::quantity::{Quantity, Unit};

#[derive(Clone, Copy)]
pub struct KilowattHour;

impl Unit for KilowattHour {
    ghost most = { 10 ^ 24 };

    ghost reach = { omega arith };
}

// Energy in whole kilowatt-hours, at most 10^24 either way.
pub type Kwh = Quantity<KilowattHour>;

impl Kwh {
    // What a meter counted.
    pub fn metered(count: u64) -> Kwh
        ensures { result.count ≡ pos count }
    {
        Kwh::of(i128::from(count))
    }
}
