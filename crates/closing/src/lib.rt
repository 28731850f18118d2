//! Closing a certificate: its members are made better until its gap closes.
#![tactic(auto)]

mod bases;
mod branches;
mod closer;
mod export;
mod fineness;
mod fixed;
mod gains;
mod going;
mod hulls;
mod keeps;
mod master;
mod matching;
mod places;
mod pushing;
mod recent;
mod restarts;
mod rounds;
mod sharing;
mod signs;
mod stages;
mod starts;
mod steps;
mod sums;
mod sweeps;
mod tables;
mod visits;
mod wishes;

pub use closer::{MOST_ROUNDS, close};
