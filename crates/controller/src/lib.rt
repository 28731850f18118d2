//! Certificates: a controller of player one and a splitting strategy of the informed player, with what they prove.
#![tactic(auto)]

mod bounds;
mod branches;
mod certificates;
mod exporting;
mod found;
mod gaps;
mod kept;
mod laws;
mod nodes;
mod numbering;
mod points;
mod quotients;
mod reached;
mod starts;
mod sums;

pub use bounds::{bound_scale, lower_bound, start_mass, tail, upper_bound};
pub use certificates::{Certificate, MOST_GAP, MOST_GAP_UNDER, Outcome};
pub use exporting::export;
pub use laws::{law_cut, law_export, law_members, law_places};
pub use starts::{MOST_FROM, MOST_OVER, sum_of_weights};
