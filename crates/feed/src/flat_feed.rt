// One price for every hour.
ghost use Rattle.std.specs.Prelude.{◌≡◌};
ghost use Rattle.feed.specs.Prices.{InRange, Takes, flat_prices};
ghost use Rattle.feed.specs.Hours.{flat_held};

use crate::feeds::Feed;
use crate::range::in_range;
use units::Refusal;

#[derive(Clone, Copy)]
pub struct FlatFeed {
    price: i32,
    ghost held: { InRange price },
}

impl FlatFeed {
    pub fn new(price: i32) -> Result<FlatFeed, Refusal>
        ensures { Takes (InRange price) (λ feed. feed.price ≡ price) result }
    {
        if !in_range(price) {
            return Err(Refusal::OutOfRange);
        }
        Ok(FlatFeed { price })
    }
}

impl Feed for FlatFeed {
    ghost prices = { λ f. flat_prices f.price };

    ghost held = { λ f. flat_held f.price f.held };

    fn price(&self, day: u32, hour: u32) -> Option<i32> {
        (hour < 24).then_some(self.price)
    }
}
