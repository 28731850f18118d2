//! Worked plays. This crate has nothing but tests; `bench/plays/play.py` made what is wanted.
#![tactic(auto)]

#[cfg(test)]
mod plays;
#[cfg(test)]
mod telling;
#[cfg(test)]
mod texts;
