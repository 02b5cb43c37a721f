// Energy in grains and in kilowatt-hours, and the rules that turn one into the other.
ghost use Rattle.std.specs.Prelude.{◌≡◌, ℕ, ◌+◌, ◌*◌, ◌^◌, ◌<◌, ◌≤◌, ℤ, ◌+ℤ◌, MatchOption, unsigned_abs};
ghost use Rattle.units.specs.Energy.{rounded, difference_of, billed, RoundedOnce};

pub mod grains;
pub mod kwh;

use grains::Grains;
use kwh::Kwh;

// Grains in whole kilowatt-hours, halves up.
fn whole_kwh(grains: i128) -> i128
    requires { unsigned_abs grains ≤ 2 * 10 ^ 30 }
    ensures value { result ≡ rounded grains }
    ensures bound { unsigned_abs result ≤ 5 * 10 ^ 22 + 1 }
{
    (grains + 20_000_000).div_euclid(40_000_000)
}

// Target less actual, as a plain number.
fn less(target: Grains, actual: Kwh) -> i128
    ensures { result ≡ difference_of target.count actual.count }
{
    target.count - 40_000_000 * actual.count
}

// Target less actual. None where that passes what grains hold.
pub fn difference(target: Grains, actual: Kwh) -> Option<Grains>
    ensures { MatchOption result (10 ^ 30 < unsigned_abs (difference_of target.count actual.count)) (λ d. d.count ≡ difference_of target.count actual.count) }
{
    Grains::new(less(target, actual))
}

// Grains of both, in whole kilowatt-hours. The sum may pass what grains hold.
fn sum_in_kwh(one: Grains, other: Grains) -> i128
    ensures value { result ≡ rounded (one.count +ℤ other.count) }
    ensures bound { unsigned_abs result ≤ 5 * 10 ^ 22 + 1 }
{
    whole_kwh(one.count + other.count)
}

// The kilowatt-hours of a bill, where the delivery's other standing bills have differences that add up to `before`.
pub fn billed_kwh(before: Grains, difference: Grains) -> Kwh
    ensures { result.count ≡ billed before.count difference.count }
{
    Kwh::of(sum_in_kwh(before, difference) - whole_kwh(before.count))
}

// However a delivery is cut into bills, their kilowatt-hours add up to its exact figure rounded once.
pub fn rounded_once_stands()
    ensures { RoundedOnce }
{}
