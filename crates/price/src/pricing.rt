// The unified price of a group's mix for a month of application.
ghost use Rattle.std.specs.Prelude.{◌≡◌};
ghost use Rattle.price.specs.Answers.{told, total_answer, window_answer, unified_answer, Averages};

use crate::basis::Basis;
use crate::rounding::rounded_price;
use crate::totals::Totals;
use crate::window::Window;
use feed::Feed;
use mix::Mix;
use shelf::Shelf;
use units::{PriceHundredths, Refusal};

// A price with the totals that it comes from: what the mix's energy costs at the hours' prices, and the energy, in percent times
// tenths of a watt times quarter hours.
#[derive(Clone, Copy)]
pub struct UnifiedPrice {
    pub price: PriceHundredths,
    pub cost: i64,
    pub energy: u64,
}

fn price_of(totals: Totals) -> Result<UnifiedPrice, Refusal>
    ensures { told result ≡ total_answer totals.cost totals.energy }
{
    let price = rounded_price(totals.cost, totals.energy)?;
    Ok(UnifiedPrice {
        price,
        cost: totals.cost,
        energy: totals.energy,
    })
}

impl<S: Shelf, F: Feed> Basis<'_, S, F> {
    fn price(&self, window: Window) -> Result<UnifiedPrice, Refusal>
        ensures { told result ≡ window_answer (S.meaning self.now.shelf.now) (F.prices self.now.feed.now) self.now.mix.now window.first window.days }
    {
        if !self.all_known(window) {
            return Err(Refusal::DayUnknown);
        }
        if !self.all_priced(window) {
            return Err(Refusal::HourMissing);
        }
        price_of(self.totals(window))
    }
}

// The price for bills of a month, from the twelve months that end two before it.
pub fn unified_price<S: Shelf, F: Feed>(
    shelf: &S,
    feed: &F,
    mix: &Mix,
    month: u32,
) -> Result<UnifiedPrice, Refusal>
    ensures answer { told result ≡ unified_answer (S.Shelf.meaning shelf.now) (F.Feed.prices feed.now) mix.now month }
    ensures average { Averages (F.Feed.prices feed.now) month (told result) }
{
    let window = Window::before(month).ok_or(Refusal::OutOfRange)?;
    Basis { shelf, feed, mix }.price(window)
}
