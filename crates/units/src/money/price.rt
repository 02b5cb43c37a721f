// Prices.
ghost use Rattle.std.specs.Prelude.{◌≡◌, ℕ, ◌<◌, ◌≤◌, ℤ, MatchOption, Some, unsigned_abs};
ghost use Rattle.units.specs.Texts.{price_text};

use std::fmt;

// A price in hundredths of a cent per kilowatt-hour, at most 30,000 either way. No quantity, since nothing adds prices.
#[derive(Clone, Copy)]
pub struct PriceHundredths {
    pub(super) count: i32,
    ghost held: { unsigned_abs count ≤ 30000 },
}

impl PriceHundredths {
    // None where the count passes 30,000 either way.
    pub fn new(count: i32) -> Option<PriceHundredths>
        ensures { MatchOption result (30000 < unsigned_abs count) (λ p. p.count ≡ count) }
    {
        // an early return: with `then` the closure would need a clause of its own for the bound
        if count.unsigned_abs() > 30_000 {
            return None;
        }
        Some(PriceHundredths { count })
    }

    pub fn count(self) -> i32
        ensures { result ≡ self.count }
    {
        self.count
    }
}

// In cents, with two places after the point: digit by digit, since a padded hole would bring padding into the text's definition.
impl fmt::Display for PriceHundredths {
    ghost output = { λ price. Some (price_text price.count) };

    fn fmt<W: fmt::Write>(&self, f: &mut fmt::Formatter<W>) -> fmt::Result {
        let sign = if self.count < 0 { "-" } else { "" };
        let size = self.count.unsigned_abs();
        write!(f, "{sign}{}.{}{}", size / 100, size / 10 % 10, size % 10)
    }
}
