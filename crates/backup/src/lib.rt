//! The first nodes and points of a search, and what backups add to them.
#![tactic(auto)]

mod corners;
mod laws;
mod lower_visits;
mod new_nodes;
mod new_points;
mod nodes;
mod points;
mod reserve;
mod seeds;
mod shares;
mod upper_visits;

pub use laws::law_seeds;
pub use lower_visits::{law_one_lower_visit, lower_visit};
pub use new_nodes::new_node;
pub use new_points::new_point;
pub use reserve::reserve_solver;
pub use seeds::seed;
pub use upper_visits::{law_one_upper_visit, upper_visit};
