//! Trials of a search, and what solving a game gives.
#![tactic(auto)]

mod choices;
mod copies;
mod courses;
mod ends;
mod keeping;
mod laws;
mod least;
mod memory;
mod one_run;
mod search;
mod solving;
mod starts;
mod thresholds;
mod visiting;
mod visits;

pub use laws::{law_growth, law_members};
pub use one_run::{law_beginning, law_one, law_short};
pub use search::{Progress, Search};
pub use solving::{Solved, solve};
pub use starts::StartOf;
pub use visits::Visit;
