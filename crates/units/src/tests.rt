// Worked figures: roundings, a year in one bill and in several, amounts.
use super::*;
use std::test::Fail;

// grains, with their whole kWh and what rounding leaves
const ROUNDED: [(i128, i128, i128); 7] = [
    (0, 0, 0),
    (19_999_999, 0, 19_999_999),
    (20_000_000, 1, -20_000_000),
    (-20_000_000, 0, -20_000_000),
    (-20_000_001, -1, 19_999_999),
    (656_000_000, 16, 16_000_000),
    (-59_999_999, -1, -19_999_999),
];

fn grains(count: i128) -> Result<Grains, Fail> {
    Ok(Grains::new(count).ok_or("too many grains")?)
}

#[test]
fn rounding(rt: HostRuntime) -> Result<(), Fail> {
    for (count, kwh, rest) in ROUNDED {
        assert_eq!(rt; grains(count)?.rounded().count(), kwh);
        assert_eq!(rt; grains(count)?.rounding_rest().count(), rest);
    }
    Ok(())
}

// Three bills of 0.4 kWh each: the kilowatt-hours come where the sum passes a half.
#[test]
fn bills_in_turn(rt: HostRuntime) -> Result<(), Fail> {
    let part = grains(16_000_000)?;
    assert_eq!(rt; billed_kwh(grains(0)?, part).count(), 0);
    assert_eq!(rt; billed_kwh(part, part).count(), 1);
    assert_eq!(rt; billed_kwh(grains(32_000_000)?, part).count(), 0);
    Ok(())
}

// targets and actuals in kWh, with surplus and shortfall in kWh
const DIFFERENCES: [(u32, u64, i128, i128); 4] = [
    (495, 400, 95, 0),
    (0, 140, 0, 140),
    (565, 600, 0, 35),
    (2715, 2705, 10, 0),
];

#[test]
fn differences(rt: HostRuntime) -> Result<(), Fail> {
    for (target, actual, surplus, shortfall) in DIFFERENCES {
        let target = Grains::on_day(target, 40_000_000);
        let found = difference(target, Kwh::metered(actual)).ok_or("too large")?;
        assert_eq!(rt; found.surplus().rounded().count(), surplus);
        assert_eq!(rt; found.shortfall().rounded().count(), shortfall);
    }
    Ok(())
}

// kWh above and below zero, with prices and amounts
const AMOUNTS: [(i128, i32, i128); 6] = [
    (16, 571, 91),
    (-5, 450, -23),
    (5, 450, 23),
    (5, -450, -23),
    (-5, -450, 23),
    (0, 571, 0),
];

#[test]
fn amounts(rt: HostRuntime) -> Result<(), Fail> {
    for (kwh, price, cents) in AMOUNTS {
        let whole = grains(kwh.saturating_mul(40_000_000))?.rounded();
        let price = PriceHundredths::new(price).ok_or("too high a price")?;
        assert_eq!(rt; amount(whole, price).count(), cents);
    }
    Ok(())
}

#[test]
fn limits(rt: HostRuntime) {
    assert!(rt; PriceHundredths::new(30_001).is_none());
    assert!(rt; PriceHundredths::new(-30_000).is_some());
    assert!(rt; Grains::new(i128::MIN).is_none());
    assert_eq!(rt; Refusal::BadLine.number(), 1);
    assert_eq!(rt; Refusal::BufferTooShort.number(), 24);
}
