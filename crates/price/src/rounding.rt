// The price that a cost and an energy come to.
ghost use Rattle.std.specs.Prelude.{◌≡◌, ◌<◌};
ghost use Rattle.price.specs.Rounding.{unified, priced, held, counted};

use units::{PriceHundredths, Refusal};

// (C + 5E) / (10E), rounded down.
fn quotient(cost: i64, energy: u64) -> i128
    requires { 0 < energy }
    ensures { result ≡ unified cost energy }
{
    let energy = i128::from(energy);
    (i128::from(cost) + 5 * energy).div_euclid(10 * energy)
}

fn in_hundredths(count: i128) -> Result<PriceHundredths, Refusal>
    ensures { counted result ≡ held count }
{
    i32::try_from(count)
        .ok()
        .and_then(PriceHundredths::new)
        .ok_or(Refusal::OutOfRange)
}

// The cost by the energy, from cents per MWh to hundredths of a cent per kWh, halves up. The cost is in cents per MWh times the
// energy's unit, whatever that is.
pub fn rounded_price(cost: i64, energy: u64) -> Result<PriceHundredths, Refusal>
    ensures { counted result ≡ priced cost energy }
{
    if energy == 0 {
        return Err(Refusal::NoEnergy);
    }
    in_hundredths(quotient(cost, energy))
}
