//! Beliefs over the states, in lowest terms.

ghost use Rattle.game_model.specs.Limits.{most_states, most_belief};
ghost use Rattle.belief.specs.Beliefs.{AreParts, corner_of};
ghost use Rattle.game_model.specs.Game.{AreCoprime, IsBelief, IsWithin};
ghost use Rattle.scaled_num.specs.Sums.{sum_of};
ghost use Rattle.std.specs.Bool.{IsTrue};
ghost use Rattle.std.specs.List.{AllByRecursion};
ghost use Rattle.std.specs.Prelude.{IfSome, IsSome, length, pos, ◌<◌, ◌^◌, ◌↔◌, ◌≡◌, ◌≤◌};

use game_model::{Game, MOST_BELIEF, MOST_STATES, law_game};
use scaled_num::{common_divisor, sum};
use std::marker::Model;

/// A belief: coprime whole weights of the states, none negative, with a total of 1 to 2^20.
#[derive(Drop)]
pub struct Belief {
    weights: [i128; MOST_STATES],
    states: usize,
}

impl Model for Belief {
    ghost use Rattle.belief.specs.Beliefs.{AreParts};
    ghost use Rattle.game_model.specs.Limits.{most_states};
    ghost use Rattle.std.specs.Prelude.{List, take, ℤ, ◌≤◌};

    ghost Value = { List ℤ };

    ghost view = { λ b. take b.states b.weights };

    ghost invariant = { λ b. (b.states ≤ most_states) × AreParts (take b.states b.weights) };
}

impl Belief {
    /// The belief with these parts, 1 to 16 of them. None where a part is negative, the total is outside 1 to 2^20
    /// or the parts have a common divisor. It takes no memory.
    pub fn of(parts: &[i128]) -> Option<Belief>
        requires some { 1 ≤ length parts.now }
        requires few { length parts.now ≤ most_states }
        ensures given { IfSome result (λ belief. belief ≡ parts.now) }
        ensures exactly { IsSome result ↔ (IsBelief (length parts.now) parts.now × AreCoprime parts.now) }
    {
        if are_weights(parts) && is_total(sum(parts)) && are_coprime(parts) {
            Some(Belief::of_parts(parts))
        } else {
            None
        }
    }

    /// The belief with these parts.
    pub(crate) fn of_parts(parts: &[i128]) -> Belief
        requires { AreParts parts.now }
        ensures { result ≡ parts.now }
    {
        let mut weights = [0; MOST_STATES];
        weights[..parts.len()].copy_from_slice(parts);
        Belief {
            weights,
            states: parts.len(),
        }
    }

    /// The first belief of a game.
    pub fn first_of(game: &Game) -> Belief
        ensures { result ≡ game.now.first }
    {
        law_game(game);
        Belief::of_parts(game.first())
    }

    /// The belief that is sure of state `s`, among so many states.
    pub fn corner(states: u32, s: u32) -> Belief
        requires state { s < states }
        requires few { states ≤ most_states }
        ensures { result ≡ corner_of states s }
    {
        let mut weights = [0; MOST_STATES];
        weights[s as usize] = 1;
        Belief {
            weights,
            states: states as usize,
        }
    }

    /// The weights of the states in order.
    pub fn parts(&self) -> &[i128]
        ensures parts { result.now ≡ self.now }
        ensures kept { AreParts self.now }
    {
        &self.weights[..self.states]
    }

    /// The sum of the weights, 1 to 2^20.
    pub fn total(&self) -> i128
        ensures { result ≡ sum_of self.now }
    {
        sum(self.parts())
    }

    /// Whether all parts are equal.
    pub fn same(&self, other: &Belief) -> bool
        ensures { IsTrue result ↔ (self.now ≡ other.now) }
    {
        self.parts() == other.parts()
    }

    /// An equal belief.
    pub fn copied(&self) -> Belief
        ensures { result ≡ self.now }
    {
        Belief {
            weights: self.weights,
            states: self.states,
        }
    }
}

/// Whether each weight is 0 to 2^20.
fn are_weights(weights: &[i128]) -> bool
    ensures { IsTrue result ↔ AllByRecursion (IsWithin (pos 0) (pos most_belief)) weights.now }
{
    weights
        .iter()
        .all(|weight| 0 <= *weight && *weight <= MOST_BELIEF)
}

/// Whether this is the total of a belief.
fn is_total(total: i128) -> bool
    ensures { IsTrue result ↔ IsWithin (pos 1) (pos most_belief) total }
{
    1 <= total && total <= MOST_BELIEF
}

/// Whether nothing but 1 divides all weights.
fn are_coprime(weights: &[i128]) -> bool
    requires { AllByRecursion (IsWithin (pos 0) (pos most_belief)) weights.now }
    ensures { IsTrue result ↔ AreCoprime weights.now }
{
    common_divisor(weights) == 1
}
