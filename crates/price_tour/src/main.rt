// Prices made-up mixes by made-up feeds, and prints the answers.
#![tactic(auto)]

mod tariffs;

use feed::{Feed, FlatFeed, HourTable};
use kinds::Flat;
use mix::{Mix, Share};
use price::{UnifiedPrice, flat_unified_price, unified_price};
use shelf::{Group, Shelf};
use tariffs::{FIRST, two_tariffs};
use units::Refusal;

// One profile, named twice.
const SHARES: [Share; 2] = [
    Share {
        profile: 0,
        percent: 60,
    },
    Share {
        profile: 0,
        percent: 40,
    },
];

// A value in every quarter hour, a price in every hour, and a month of application.
const FLAT: [(&str, u16, i32, u32); 9] = [
    ("57.10 euros in month 90", 1_000, 5_710, 90),
    ("44.80 euros in month 91", 1_000, 4_480, 91),
    ("half a hundredth", 9_999, 5_715, 100),
    ("the most", 9_999, 300_000, 479),
    ("too high a price", 1_000, 300_001, 90),
    ("below zero", 1_000, -1, 90),
    ("too early a month", 1_000, 5_710, 12),
    ("too late a month", 1_000, 5_710, 480),
    ("no energy", 0, 5_710, 13),
];

fn priced_flat(value: u16, price: i32, month: u32) -> Result<UnifiedPrice, Refusal> {
    let shelf = Flat::new(value, Group::S)?;
    let feed = FlatFeed::new(price)?;
    let mix = Mix::new(&shelf, Group::S, &SHARES)?;
    flat_unified_price(&shelf, &feed, &mix, month)
}

// The price of a mix of group T whose profile is of a given group.
fn priced_by<F: Feed>(feed: &F, group: Group, month: u32) -> Result<UnifiedPrice, Refusal> {
    let shelf = Flat::new(1_000, group)?;
    let mix = Mix::new(&shelf, Group::T, &SHARES)?;
    unified_price(&shelf, feed, &mix, month)
}

// A mix of a group that its profile is not of.
fn of_other_group() -> Result<UnifiedPrice, Refusal> {
    priced_by(&FlatFeed::new(5_710)?, Group::S, 90)
}

fn print_answer(
    rt: HostRuntime,
    name: &str,
    answer: Result<UnifiedPrice, Refusal>,
) -> anyhow::Result<()> {
    match answer {
        Ok(made) => {
            let count = made.price.count();
            let cost = made.cost;
            let energy = made.energy;
            println!(rt; "{name}: price {count}, cost {cost}, energy {energy}")?;
        }
        Err(refusal) => println!(rt; "{name}: {refusal}")?,
    }
    Ok(())
}

fn print_flat(rt: HostRuntime) -> anyhow::Result<()> {
    for (name, value, price, month) in FLAT {
        print_answer(rt, name, priced_flat(value, price, month))?;
    }
    print_answer(rt, "another group", of_other_group())
}

fn print_hours(rt: HostRuntime) -> anyhow::Result<()> {
    let feed = HourTable::new(FIRST, two_tariffs(rt.alloc())?)?;
    print_answer(rt, "two tariffs", priced_by(&feed, Group::T, 13))?;
    print_answer(rt, "a month later", priced_by(&feed, Group::T, 14))
}

fn main(rt: HostRuntime) -> anyhow::Result<()> {
    print_flat(rt)?;
    print_hours(rt)
}
