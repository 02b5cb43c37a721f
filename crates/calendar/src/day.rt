// The days of 2000 to 2039, counted from 1 January 2000.
ghost use Rattle.std.specs.Prelude.{◌≡◌, ◌≤◌, nat_le, is_some, IfSome};

// 31 December 2039
pub const LAST_DAY: u32 = 14_609;

// A day that there is.
#[derive(Clone, Copy)]
pub(crate) struct Day {
    pub(crate) number: u32,
    ghost known: { number ≤ 14609 },
}

impl Day {
    pub(crate) fn new(number: u32) -> Option<Day>
        ensures variant { is_some result ≡ nat_le number 14609 }
        ensures value { IfSome result (λ day. day.number ≡ number) }
    {
        // an early return: with `then` the closure would need a clause of its own for the bound
        if number > LAST_DAY {
            return None;
        }
        Some(Day { number })
    }
}
