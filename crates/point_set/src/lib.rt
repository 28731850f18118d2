//! Points of a splitting strategy of the informed player: beliefs with values, mixes and shares, kept in a set.
#![tactic(auto)]

mod corners;
mod gaps;
mod laws;
mod points;
mod renewing;
mod sawtooth;
mod sets;
mod settles;
mod split;
mod splits;
mod stands;
mod takes;
mod teeth;
mod times;
mod values;

pub use game_model::Branch as Share;
pub use laws::{law_bounds, law_lowered, law_renamed, law_splits};
pub use points::{MOST_SHARE, Point};
pub use sets::{MOST_POINTS, PointSet, PushFault};
pub use split::{MOST_ITEMS, Split};
pub use stands::PointFault;
