// Known days, Easters, kinds and seasons.
use super::*;
use std::test::Fail;

// days, with their years, months and days of the month, weekdays, and days since 1 January
const DAYS: [(u32, (u32, u32, u32), Weekday, u32); 7] = [
    (0, (2000, 1, 1), Weekday::Saturday, 0),
    (59, (2000, 2, 29), Weekday::Tuesday, 59),
    (60, (2000, 3, 1), Weekday::Wednesday, 60),
    (2557, (2007, 1, 1), Weekday::Monday, 0),
    (2616, (2007, 3, 1), Weekday::Thursday, 59),
    (2704, (2007, 5, 28), Weekday::Monday, 147),
    (14_609, (2039, 12, 31), Weekday::Saturday, 364),
];

// years, months and days of the month that are no dates
const NO_DATES: [(u32, u32, u32); 6] = [
    (2007, 2, 29),
    (2007, 4, 31),
    (2007, 13, 1),
    (2007, 1, 0),
    (1999, 12, 31),
    (2040, 1, 1),
];

#[test]
fn days_and_dates(rt: HostRuntime) {
    for (day, (year, month, day_of_month), weekday, since) in DAYS {
        let date = Date {
            year,
            month,
            day: day_of_month,
        };
        assert_eq!(rt; date_of(day), Some(date));
        assert_eq!(rt; day_of(date), Some(day));
        assert_eq!(rt; weekday_of(day), Some(weekday));
        assert_eq!(rt; day_of_year(day), Some(since));
    }
    for (year, month, day) in NO_DATES {
        assert_eq!(rt; day_of(Date { year, month, day }), None);
    }
    assert_eq!(rt; date_of(14_610), None);
}

// years and months, with their numbers and their first and last days
const MONTHS: [(u32, u32, u32, u32, u32); 3] = [
    (2000, 1, 0, 0, 30),
    (2007, 2, 85, 2588, 2615),
    (2039, 12, 479, 14_579, 14_609),
];

#[test]
fn months(rt: HostRuntime) {
    for (year, place, month, first, last) in MONTHS {
        assert_eq!(rt; month_number(year, place), Some(month));
        assert_eq!(rt; month_of(last), Some(month));
        assert_eq!(rt; first_day(month), Some(first));
        assert_eq!(rt; last_day(month), Some(last));
    }
    assert_eq!(rt; first_day(480), None);
}

// the years, months and days of Easter Sundays
const EASTERS: [(u32, u32, u32); 10] = [
    (2000, 4, 23),
    (2003, 4, 20),
    (2007, 4, 8),
    (2008, 3, 23),
    (2011, 4, 24),
    (2019, 4, 21),
    (2024, 3, 31),
    (2025, 4, 20),
    (2038, 4, 25),
    (2039, 4, 10),
];

#[test]
fn easters(rt: HostRuntime) -> Result<(), Fail> {
    for (year, month, day) in EASTERS {
        let day = day_of(Date { year, month, day }).ok_or("no such date")?;
        assert_eq!(rt; easter_sunday(year), Some(day));
    }
    assert_eq!(rt; easter_sunday(1999), None);
    assert_eq!(rt; easter_sunday(2040), None);
    Ok(())
}

// months and days of 2007: Good Friday, the eve of Easter, Ascension, Whit Monday, and some more
const KINDS: [(u32, u32, DayKind, Season); 8] = [
    (4, 6, DayKind::Holiday, Season::Transition),
    (4, 7, DayKind::Saturday, Season::Transition),
    (5, 17, DayKind::Holiday, Season::Summer),
    (5, 28, DayKind::Holiday, Season::Summer),
    (9, 14, DayKind::Workday, Season::Summer),
    (9, 15, DayKind::Saturday, Season::Transition),
    (11, 1, DayKind::Workday, Season::Winter),
    (12, 26, DayKind::Holiday, Season::Winter),
];

#[test]
fn kinds_and_seasons(rt: HostRuntime) -> Result<(), Fail> {
    for (month, day, kind, season) in KINDS {
        let day = day_of(Date {
            year: 2007,
            month,
            day,
        })
        .ok_or("no such date")?;
        assert_eq!(rt; Federal.kind(day), Some(kind));
        assert_eq!(rt; season_of(day), Some(season));
    }
    assert_eq!(rt; Federal.kind(14_610), None);
    Ok(())
}

#[test]
fn extra_days(rt: HostRuntime) -> Result<(), Fail> {
    let days = [2705, 2706].to_vec(rt.alloc())?;
    let calendar = ExtraDays::new(PlainWeek, days)?;
    assert_eq!(rt; calendar.kind(2704), Some(DayKind::Workday));
    assert_eq!(rt; calendar.kind(2705), Some(DayKind::Holiday));
    assert_eq!(rt; calendar.kind(14_610), None);
    let twice = [2705, 2705].to_vec(rt.alloc())?;
    assert_eq!(rt;
        ExtraDays::new(PlainWeek, twice).err(),
        Some(units::Refusal::RuleBroken)
    );
    Ok(())
}
