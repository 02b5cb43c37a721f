// What a price is made from.
use mix::Mix;

// A shelf of profiles, a feed of hour prices, and a mix of the profiles.
#[derive(Drop)]
pub(crate) struct Basis<'a, S, F> {
    pub(crate) shelf: &'a S,
    pub(crate) feed: &'a F,
    pub(crate) mix: &'a Mix,
}
