// Whether all is there that a price is made from.
ghost use Rattle.std.specs.Prelude.{◌≡◌};
ghost use Rattle.price.specs.Prices.{all_known, day_priced, all_priced};

use crate::basis::Basis;
use crate::window::Window;
use feed::Feed;
use shelf::Shelf;

impl<S: Shelf, F: Feed> Basis<'_, S, F> {
    pub(crate) fn all_known(&self, window: Window) -> bool
        ensures { result ≡ all_known (S.meaning self.now.shelf.now) self.now.mix.now window.first window.days }
    {
        window.days().all(|day| self.mix.known_on(self.shelf, day))
    }

    #[tactic(auto, unfolding(crate::specs::Prices::hours))]
    fn day_priced(&self, day: u32) -> bool
        ensures { result ≡ day_priced (F.prices self.now.feed.now) day }
    {
        (0..24).all(|hour| self.feed.price(day, hour).is_some())
    }

    pub(crate) fn all_priced(&self, window: Window) -> bool
        ensures { result ≡ all_priced (F.prices self.now.feed.now) window.first window.days }
    {
        window.days().all(|day| self.day_priced(day))
    }
}
