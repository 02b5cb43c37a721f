// The years 2000 to 2039.
ghost use Rattle.std.specs.Prelude.{◌≡◌, ◌≤◌, ◌&&◌, nat_le, is_some, IfSome};
ghost use Rattle.calendar.specs.Dates.{leap, month_length, known_year, month_index};

use super::month::Month;

// A year of these. A type beside `Day`, since nothing but its making is like a day's.
#[derive(Clone, Copy)]
pub(crate) struct Year {
    pub(crate) number: u32,
    ghost from: { 2000 ≤ number },
    ghost to: { number ≤ 2039 },
}

impl Year {
    pub(crate) fn new(number: u32) -> Option<Year>
        ensures variant { is_some result ≡ known_year number }
        ensures value { IfSome result (λ year. year.number ≡ number) }
    {
        // an early return: with `then` the closure would need a clause of its own for the bound
        if !(2000..=2039).contains(&number) {
            return None;
        }
        Some(Year { number })
    }

    // Whether it is a leap year.
    pub(crate) fn is_leap(self) -> bool
        ensures { result ≡ leap self.number }
    {
        self.number % 4 == 0 && self.number % 100 != 0 || self.number % 400 == 0
    }

    // How many days its month at a place has.
    pub(crate) fn length(self, place: u32) -> u32
        ensures { result ≡ month_length self.number place }
    {
        match place {
            2 if self.is_leap() => 29,
            2 => 28,
            4 | 6 | 9 | 11 => 30,
            _ => 31,
        }
    }

    // Its month at a place from 1 to 12.
    pub(crate) fn month_at(self, place: u32) -> Month
        requires from { 1 ≤ place }
        requires to { place ≤ 12 }
        ensures { result.number ≡ month_index self.number place }
    {
        Month {
            number: 12 * (self.number - 2000) + (place - 1),
        }
    }

    // Its month at a place, if it has such a month.
    pub(crate) fn month(self, place: u32) -> Option<Month>
        ensures variant { is_some result ≡ (nat_le 1 place && nat_le place 12) }
        ensures value { IfSome result (λ month. month.number ≡ month_index self.number place) }
    {
        (1..=12).contains(&place).then(|| self.month_at(place))
    }
}
