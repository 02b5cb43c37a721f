// The price of a year, from the energies and the costs of its months.
ghost use Rattle.std.specs.Prelude.{◌≡◌, ◌*◌, ◌≤◌, length, pos, sum_by};
ghost use Rattle.price.specs.Rounding.{counted, priced};
ghost use Rattle.price_table.specs.declared.published.Month.{Month as OneMonth};

use crate::published::Month;
use price::rounded_price;
use units::{PriceHundredths, Refusal};

// A thousandth of a euro by a hundredth of a kWh is 10,000 cents by a MWh.
fn in_cost_unit(cost: u32) -> i64
    ensures { result ≡ pos (10000 * cost) }
{
    10_000 * i64::from(cost)
}

// The energies are hundredths of a kWh, the costs thousandths of a euro.
pub(crate) fn yearly_price(months: &[Month]) -> Result<PriceHundredths, Refusal>
    requires { length months.now ≤ 12 }
    ensures { counted result ≡ priced (pos (10000 * sum_by (λ (m : OneMonth). m.cost) months.now)) (sum_by (λ (m : OneMonth). m.energy) months.now) }
{
    let energy: u32 = months.iter().map(|month| u32::from(month.energy)).sum();
    let cost: u32 = months.iter().map(|month| u32::from(month.cost)).sum();
    rounded_price(in_cost_unit(cost), u64::from(energy))
}
