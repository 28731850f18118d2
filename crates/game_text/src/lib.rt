//! The text of a game, and its reader.
#![tactic(auto)]

mod body;
mod build;
mod fault;
mod forms;
mod header;
mod laws;
mod lines;
mod numbers;
mod printing;
mod progress;
mod rows;
mod texts;

pub use fault::{Kind, TextFault};
pub use laws::{
    law_accepted, law_any_rest, law_canonical, law_cut, law_decided, law_decided_alone,
    law_front_refused_once, law_games, law_not_refused, law_read, law_refused_once,
    law_whole_games, law_whole_not_refused,
};
pub use printing::print;
pub use texts::{read, read_alone};
