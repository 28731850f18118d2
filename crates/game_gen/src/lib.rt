//! Games made from a number and a size.
#![tactic(auto)]

mod generate;
mod rows;

pub use generate::{law_made, make};
