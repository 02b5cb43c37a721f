// Laws of the unified price.
ghost use Rattle.std.specs.Prelude.{◌≡◌};
ghost use Rattle.feed.specs.Prices.{flat_prices};
ghost use Rattle.price.specs.Answers.{told, unified_answer, Rounds};

use crate::pricing::{UnifiedPrice, unified_price};
use feed::{Feed, FlatFeed};
use mix::Mix;
use shelf::Shelf;
use units::Refusal;

// With one price in every hour the unified price is that price, rounded, whatever the mix.
pub fn flat_unified_price<S: Shelf>(
    shelf: &S,
    feed: &FlatFeed,
    mix: &Mix,
    month: u32,
) -> Result<UnifiedPrice, Refusal>
    ensures answer { told result ≡ unified_answer (S.meaning shelf.now) (flat_prices feed.now.price) mix.now month }
    ensures rounds { Rounds feed.now.price (told result) }
{
    unified_price(shelf, feed, mix, month)
}
