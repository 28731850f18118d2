//! A checker of certificates: yes, or the first place at which a certificate does not stand.
#![tactic(auto)]

mod bounds;
mod checker;
mod members;
mod verdicts;

pub use checker::{check, law_once};
pub use verdicts::{Reason, Verdict};
