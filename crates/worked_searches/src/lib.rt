//! Worked searches: games that are solved, and searches by single visits. This crate has nothing but tests, so that no
//! other crate is proved twice.
#![tactic(auto)]

#[cfg(test)]
mod full;
#[cfg(test)]
mod games;
#[cfg(test)]
mod repeats;
#[cfg(test)]
mod searches;
#[cfg(test)]
mod steps;
