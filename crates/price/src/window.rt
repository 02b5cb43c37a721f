// The twelve closed months that a price is made from.
ghost use Rattle.std.specs.Prelude.{◌≡◌, ◌+◌, ◌≤◌, MatchOption};
ghost use Rattle.price.specs.Windows.{Applies, window_start, window_days};

use calendar::{LAST_MONTH, first_day};
use std::ops::Range;

// Some days from a first one on, all of 2000 to 2039.
#[derive(Clone, Copy)]
pub(crate) struct Window {
    first: u32,
    days: u32,
    ghost short: { days ≤ 372 },
    ghost inside: { first + days ≤ 14610 },
}

impl Window {
    // From the 13th to the second month before the month of application.
    pub(crate) fn before(month: u32) -> Option<Window>
        ensures { MatchOption result (Applies month → ⊥) (λ w. Applies month × (w.first ≡ window_start month) × (w.days ≡ window_days month)) }
    {
        // an early return, since the two look-ups after it return early too
        if !(13..=LAST_MONTH).contains(&month) {
            return None;
        }
        let first = first_day(month - 13)?;
        let end = first_day(month - 1)?;
        Some(Window {
            first,
            days: end - first,
        })
    }

    pub(crate) fn days(self) -> Range<u32>
        ensures { result ≡ record { start = self.first; end = self.first + self.days } }
    {
        self.first..self.first + self.days
    }
}
