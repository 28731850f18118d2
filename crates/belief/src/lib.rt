//! Beliefs over the states, mixes of the informed player, and the masses that they bring to the next states.
#![tactic(auto)]

mod beliefs;
mod divisors;
mod laws;
mod masses;
mod mixes;
mod reduced;

pub use beliefs::Belief;
pub use laws::law_reduced;
pub use masses::mass;
pub use mixes::Mixes;
pub use reduced::reduce;
