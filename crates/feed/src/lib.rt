// Exchange prices of hours, whatever holds them.
#![tactic(auto)]

mod feeds;
mod flat_feed;
mod hour_table;
mod range;

pub use feeds::Feed;
pub use flat_feed::FlatFeed;
pub use hour_table::HourTable;
