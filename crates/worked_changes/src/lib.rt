//! Worked rows of the calls that change members of sets. This crate has nothing but tests.
#![tactic(auto)]

#[cfg(test)]
mod changes;
