// The question that every feed of hour prices answers.
ghost use Rattle.std.specs.Prelude.{◌≡◌};
ghost use Rattle.feed.specs.Prices.{Prices, Held};

// The prices of a day's hours, 0 to 23, in cents per MWh.
pub trait Feed {
    ghost prices: { Self → Prices };

    fn price(&self, day: u32, hour: u32) -> Option<i32>
        ensures { result ≡ prices self.now day hour };

    ghost held: { (f : Self) → Held (prices f) };
}
