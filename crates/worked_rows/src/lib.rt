//! Worked rows of single calls of the libraries. This crate has nothing but tests, so that no other crate is proved
//! twice.
#![tactic(auto)]

#[cfg(test)]
mod advised;
#[cfg(test)]
mod beliefs;
#[cfg(test)]
mod blocks;
#[cfg(test)]
mod certificates;
#[cfg(test)]
mod checks;
#[cfg(test)]
mod ends;
#[cfg(test)]
mod games;
#[cfg(test)]
mod generated;
#[cfg(test)]
mod nodes;
#[cfg(test)]
mod numbers;
#[cfg(test)]
mod points;
#[cfg(test)]
mod programs;
#[cfg(test)]
mod seeds;
#[cfg(test)]
mod solvers;
#[cfg(test)]
mod stages;
#[cfg(test)]
mod told;
#[cfg(test)]
mod visits;
#[cfg(test)]
mod words;
