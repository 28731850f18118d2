//! Nodes of a controller.

ghost use Rattle.alpha_set.specs.Members.{node_data};
ghost use Rattle.alpha_set.specs.Worth.{AreWeighed, worth_at};
ghost use Rattle.std.specs.Prelude.{[], ◌∷◌, ◌≡◌};

use crate::worth::node_worth;
use game_model::Branch;

/// What each state is worth at least in units, how player one mixes here, and with which nodes it goes on.
#[derive(Drop)]
pub struct Node {
    /// The alpha-vector: an entry in units for each state.
    pub vector: Vec<i128>,
    /// The weights of the own actions, whose total is 65,536.
    pub mix: Vec<i128>,
    /// The steps, by rising own action, observation and node.
    pub next: Vec<Branch>,
}

impl Node {
    /// What the node is worth at a mass: the sum over the states of the mass times the entry. The node fits a game, and
    /// the mass is over its states, with a total of at most 2^36 times the row total. It takes no memory.
    pub fn worth(&self, mass: &[i128]) -> i128
        requires { AreWeighed (node_data self.now ∷ []) mass.now }
        ensures { result ≡ worth_at mass.now (node_data self.now).vector }
    {
        node_worth(self, mass)
    }
}
