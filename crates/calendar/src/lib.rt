// Days, months and dates of 2000 to 2039, and the calendars that give each day its kind.
#![tactic(auto)]

mod date;
mod day;
mod easter;
mod extra_days;
mod federal;
mod kind;
mod month;
mod plain_week;
mod season;
#[cfg(test)]
mod tests;
mod week;
mod year;

pub use date::{Date, date_of, day_of, day_of_year, round_trip_stands};
pub use day::LAST_DAY;
pub use easter::{easter_stands, easter_sunday};
pub use extra_days::ExtraDays;
pub use federal::Federal;
pub use kind::{Calendar, DayKind};
pub use month::{LAST_MONTH, first_day, last_day, month_number, month_of};
pub use plain_week::PlainWeek;
pub use season::{Season, season_of};
pub use week::{Weekday, weekday_of};
