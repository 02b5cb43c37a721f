// Stacks shelves of made-up profiles, tells them days, and prints what they answer.
#![tactic(auto)]

mod stack;

use shelf::{Shelf, Tell, TellShelf, stretch_target, tell_all};
use stack::{FIRST, Stack, stacked};
use weather::temperature_row;

// Days of the year 2024, of each season and kind.
const DAYS: [u32; 7] = [8_825, 8_866, 8_895, 8_948, 9_121, 9_124, 9_125];

// The tells whose answers are printed.
const PRINTED_TELLS: [Tell; 7] = [
    Tell {
        profile: 2,
        day: FIRST,
        number: -5,
    },
    Tell {
        profile: 2,
        day: FIRST,
        number: 180,
    },
    Tell {
        profile: 2,
        day: FIRST + 1,
        number: 501,
    },
    Tell {
        profile: 2,
        day: FIRST + 30,
        number: 0,
    },
    Tell {
        profile: 4,
        day: FIRST,
        number: 0,
    },
    Tell {
        profile: 2,
        day: 14_610,
        number: 0,
    },
    Tell {
        profile: 0,
        day: FIRST,
        number: 0,
    },
];

const TELLS: [Tell; 4] = [
    Tell {
        profile: 2,
        day: FIRST + 1,
        number: -171,
    },
    Tell {
        profile: 2,
        day: FIRST + 2,
        number: 180,
    },
    Tell {
        profile: 3,
        day: FIRST,
        number: 63,
    },
    Tell {
        profile: 2,
        day: FIRST,
        number: 499,
    },
];

// Profile, forecast and last day of each target that is printed.
const TARGETS: [(u32, u32, u32); 6] = [
    (0, 3_500, FIRST + 10),
    (2, 200_000, FIRST + 2),
    (2, 200_001, FIRST + 2),
    (2, 200_000, FIRST + 3),
    (2, 200_000, FIRST - 1),
    (2, 200_001, 14_610),
];

fn print_rows(rt: HostRuntime) -> anyhow::Result<()> {
    for tenths in [-501, -500, -171, -5, 0, 180, 500, 501] {
        let row = temperature_row(tenths);
        println!(rt; "temperature {tenths}: row {row:?}")?;
    }
    Ok(())
}

fn print_sums(rt: HostRuntime, shelf: &Stack) -> anyhow::Result<()> {
    for profile in 0..shelf.count() {
        for day in DAYS {
            let sum = shelf.day_sum(profile, day);
            println!(rt; "profile {profile}, day {day}: sum {sum:?}")?;
        }
    }
    Ok(())
}

fn print_values(rt: HostRuntime, shelf: &Stack) -> anyhow::Result<()> {
    for profile in 0..5 {
        let value = shelf.value(profile, FIRST, 40);
        let none = shelf.value(profile, FIRST, 96);
        println!(rt; "profile {profile}: value {value:?}, {none:?}")?;
    }
    Ok(())
}

fn print_tell(rt: HostRuntime, shelf: &mut Stack, tell: Tell) -> anyhow::Result<()> {
    let Tell {
        profile,
        day,
        number,
    } = tell;
    match shelf.tell(tell) {
        Ok(()) => println!(rt; "tell {profile} {day} {number}: known now")?,
        Err(refusal) => println!(rt; "tell {profile} {day} {number}: {refusal}")?,
    }
    Ok(())
}

fn print_tells(rt: HostRuntime, shelf: &mut Stack) -> anyhow::Result<()> {
    for tell in PRINTED_TELLS {
        print_tell(rt, shelf, tell)?;
    }
    Ok(())
}

fn print_target(
    rt: HostRuntime,
    shelf: &Stack,
    profile: u32,
    forecast: u32,
    to: u32,
) -> anyhow::Result<()> {
    match stretch_target(shelf, profile, forecast, FIRST, to) {
        Ok(grains) => {
            let count = grains.count();
            println!(rt; "target {profile} {forecast} to {to}: {count}")?;
        }
        Err(refusal) => println!(rt; "target {profile} {forecast} to {to}: {refusal}")?,
    }
    Ok(())
}

fn print_targets(rt: HostRuntime, shelf: &Stack) -> anyhow::Result<()> {
    for (profile, forecast, to) in TARGETS {
        print_target(rt, shelf, profile, forecast, to)?;
    }
    Ok(())
}

fn tour(rt: HostRuntime, mut shelf: Stack) -> anyhow::Result<()> {
    print_rows(rt)?;
    print_tells(rt, &mut shelf)?;
    tell_all(&mut shelf, &TELLS);
    print_sums(rt, &shelf)?;
    print_values(rt, &shelf)?;
    print_targets(rt, &shelf)
}

fn main(rt: HostRuntime) -> anyhow::Result<()> {
    match stacked(rt.alloc()) {
        Ok(shelf) => tour(rt, shelf),
        Err(error) => {
            println!(rt; "not made: {error}")?;
            Ok(())
        }
    }
}
