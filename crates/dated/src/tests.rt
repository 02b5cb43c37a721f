// The price of two suppliers on given days.
use super::*;

// a supplier, the day from which a price of its holds, and the price in cents
#[derive(Clone, Copy)]
struct Price(u32, u32, u32);

impl Dated for Price {
    ghost owner_of = { λ p. p.0 };

    ghost date_of = { λ p. p.1 };

    fn owner(&self) -> u32 {
        self.0
    }

    fn date(&self) -> u32 {
        self.1
    }
}

// The second price from day 20 on corrects the first.
const PRICES: [Price; 5] = [
    Price(1, 20, 50),
    Price(1, 10, 40),
    Price(2, 15, 70),
    Price(1, 20, 55),
    Price(1, 30, 60),
];

// days, with the price in cents of supplier 1 on each
const ON: [(u32, Option<u32>); 6] = [
    (9, None),
    (10, Some(40)),
    (19, Some(40)),
    (20, Some(55)),
    (29, Some(55)),
    (30, Some(60)),
];

#[test]
fn latest(rt: HostRuntime) {
    for (day, cents) in ON {
        assert_eq!(rt;
            latest_of(&PRICES, 1, day).map(|price| price.2),
            cents,
            "on day {day}"
        );
    }
}

#[test]
fn other_owners(rt: HostRuntime) {
    assert_eq!(rt; latest_of(&PRICES, 2, 30).map(|price| price.2), Some(70));
    assert!(rt; latest_of(&PRICES, 3, 30).is_none());
}

#[test]
fn changes(rt: HostRuntime) {
    assert_eq!(rt; next_change(&PRICES, 1, 0), 10);
    assert_eq!(rt; next_change(&PRICES, 1, 10), 20);
    assert_eq!(rt; next_change(&PRICES, 1, 20), 30);
    assert_eq!(rt; next_change(&PRICES, 1, 30), u32::MAX);
    assert_eq!(rt; next_change(&PRICES, 2, 0), 15);
}
