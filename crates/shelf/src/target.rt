// The energy that a forecast balances over a stretch of days.
ghost use Rattle.std.specs.Prelude.{◌≡◌};
ghost use Rattle.shelf.specs.Targets.{counted, stretch_target};

use crate::shelves::Shelf;
use calendar::LAST_DAY;
use units::{Grains, Refusal};

// The largest yearly forecast, in kWh.
const LARGEST_FORECAST: u32 = 200_000;

// The forecast, in kWh a year, times the day sum, added over the days `from` to `to`, both included.
pub fn stretch_target<S: Shelf>(
    shelf: &S,
    profile: u32,
    forecast: u32,
    from: u32,
    to: u32,
) -> Result<Grains, Refusal>
    ensures { counted result ≡ stretch_target (S.meaning shelf.now) profile forecast from to }
{
    if to > LAST_DAY {
        return Err(Refusal::NoSuchDate);
    }
    if forecast > LARGEST_FORECAST {
        return Err(Refusal::OutOfRange);
    }
    // a `for`, since that each sum fits is shown step by step
    let mut target = Grains::zero();
    for day in from..=to {
        let day_sum = shelf.day_sum(profile, day).ok_or(Refusal::DayUnknown)?;
        target = target + Grains::on_day(forecast, day_sum);
    }
    Ok(target)
}
