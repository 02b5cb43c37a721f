// Settling a period: from its dates, forecast, readings and price to its account.
ghost use Rattle.std.specs.Prelude.{◌≡◌, ℕ, ◌*◌, ◌≤◌, ℤ, pos, Some, None, MatchResult};
ghost use Rattle.walkthrough.specs.Settling.{days_counted, advance, why, Settles};

use super::period::{Account, Period};
use calendar::LAST_DAY;
use units::{Grains, Kwh, Refusal, amount, billed_kwh, difference};

// What is balanced over some days that are all alike.
fn target_over(days: u32, forecast: u32, day_sum: u32) -> Grains
    ensures { result.count ≡ pos (days * (forecast * day_sum)) }
{
    // a `for`, since that each sum fits is shown step by step
    let mut target = Grains::zero();
    for _day in 0..days {
        target = target + Grains::on_day(forecast, day_sum);
    }
    target
}

// How far the meter went from one reading to the next.
fn meter_advance(earlier: u32, later: u32) -> Kwh
    requires earlier { earlier ≤ 999999 }
    requires later { later ≤ 999999 }
    ensures { result.count ≡ pos (advance earlier later) }
{
    Kwh::metered(u64::from((later + 1_000_000 - earlier) % 1_000_000))
}

// Whether no rule turns the period down.
fn accepted(period: &Period) -> Result<(), Refusal>
    ensures { MatchResult result (λ _. why period.now ≡ None) (λ e. why period.now ≡ Some e) }
{
    if period.use_end > LAST_DAY {
        return Err(Refusal::NoSuchDate);
    }
    if period.reading_before > 999_999 || period.reading_at_end > 999_999 {
        return Err(Refusal::OutOfRange);
    }
    if period.use_end < period.use_from {
        return Err(Refusal::EndOutOfPlace);
    }
    Ok(())
}

// The account of a period, or the rule that turns it down.
pub fn settle(period: &Period) -> Result<Account, Refusal>
    ensures { MatchResult result (λ a. (why period.now ≡ None) × Settles period.now a) (λ e. why period.now ≡ Some e) }
{
    accepted(period)?;
    let first = period.use_from.max(period.balanced_from);
    let days = (period.use_end + 1).saturating_sub(first);
    let target = target_over(days, period.forecast, period.day_sum);
    let actual = meter_advance(period.reading_before, period.reading_at_end);
    let difference = difference(target, actual).unwrap();
    let billed = billed_kwh(Grains::zero(), difference);
    Ok(Account {
        days,
        target,
        actual,
        difference,
        billed,
        left: difference.rounding_rest(),
        amount: amount(billed, period.price),
    })
}
