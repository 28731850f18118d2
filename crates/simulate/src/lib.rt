//! Plays that anyone can repeat: each is a function of a game, a certificate and a seed.
#![tactic(auto)]

mod choices;
mod gains;
mod laws;
mod parts;
mod plays;
mod stages;
mod starts;
mod weights;

pub use gains::longest;
pub use laws::{law_play, law_plays};
pub use parts::{PlayLog, Played, Rival};
pub use plays::play;
