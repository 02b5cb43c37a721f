// The prices of hour after hour from a first day on.
ghost use Rattle.std.specs.Prelude.{◌≡◌, Decides};
ghost use Rattle.feed.specs.Prices.{HoursInRange, HourInRange, Takes, table_prices};
ghost use Rattle.feed.specs.Hours.{table_held};

use crate::feeds::Feed;
use crate::range::in_range;
use units::Refusal;

// 24 places for each day; an hour may be absent.
#[derive(Drop)]
pub struct HourTable {
    first: u32,
    hours: Vec<Option<i32>>,
    ghost held: { HoursInRange hours.items },
}

fn hours_in_range(hours: &[Option<i32>]) -> bool
    ensures { Decides result (HoursInRange hours.now) }
{
    hours.iter().all(|hour| hour.is_none_or(in_range))
}

impl HourTable {
    #[tactic(auto, using(std::proofs::lemmas::Bool::Decides::not_from_Decides))]
    pub fn new(first: u32, hours: Vec<Option<i32>>) -> Result<HourTable, Refusal>
        ensures { Takes (HoursInRange hours.items) (λ feed. (feed.first ≡ first) × (feed.hours.items ≡ hours.items)) result }
    {
        if !hours_in_range(&hours) {
            return Err(Refusal::OutOfRange);
        }
        Ok(HourTable { first, hours })
    }
}

impl Feed for HourTable {
    ghost prices = { λ f. table_prices f.first f.hours.items };

    ghost held = { λ f. table_held f.first f.hours.items f.held };

    fn price(&self, day: u32, hour: u32) -> Option<i32> {
        // an early return, since the look-up after it returns early too
        if day < self.first || hour >= 24 {
            return None;
        }
        let place = 24 * (day - self.first) as usize + hour as usize;
        *self.hours.get(place)?
    }
}
