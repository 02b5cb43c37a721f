// The range of prices that a feed may hold.
ghost use Rattle.std.specs.Prelude.{Decides};
ghost use Rattle.feed.specs.Prices.{InRange};

const LARGEST_PRICE: i32 = 300_000;

pub(crate) fn in_range(price: i32) -> bool
    ensures { Decides result (InRange price) }
{
    (0..=LARGEST_PRICE).contains(&price)
}
