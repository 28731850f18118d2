//! Mixes of the informed player, one for each state.

ghost use Rattle.game_model.specs.Limits.{most_states, most_actions};
ghost use Rattle.belief.specs.Beliefs.{AreKept, mixes_for};
ghost use Rattle.belief.specs.Mixes.{AreMixes, mix_at, pure_mixes};
ghost use Rattle.belief.specs.Sure.{sure};
ghost use Rattle.game_model.specs.Branches.{mix_total};
ghost use Rattle.game_model.specs.Game.{IsWithin};
ghost use Rattle.std.specs.List.{AllByRecursion};
ghost use Rattle.std.specs.Prelude.{IfOk, flat_map, length, pos, replicate, ◌*◌, ◌<◌, ◌≡◌, ◌≤◌};

use game_model::{Game, MIX_TOTAL, law_game};
use std::alloc::{AllocError, Global};
use std::marker::Model;

/// Mixes of the informed player: for each state the weights of its actions, whose total is 65,536.
#[derive(Drop)]
pub struct Mixes {
    states: u32,
    actions: u32,
    weights: Vec<i128>,
}

impl Model for Mixes {
    ghost use Rattle.belief.specs.Beliefs.{AreKept};
    ghost use Rattle.belief.specs.Mixes.{MixesData};

    ghost Value = { MixesData };

    ghost view = { λ m. record { states = m.states; actions = m.actions; weights = m.weights.items } };

    ghost invariant = { λ m. AreKept (record { states = m.states; actions = m.actions; weights = m.weights.items }) };
}

impl Mixes {
    /// The mixes with these weights, by state and then by informed action.
    ///
    /// # Errors
    ///
    /// Where no memory is to be had.
    pub fn of(alloc: Global, game: &Game, weights: &[i128]) -> Result<Mixes, AllocError>
        requires { AreMixes (mixes_for game.now weights.now) }
        ensures { IfOk result (λ mixes. mixes ≡ mixes_for game.now weights.now) }
    {
        law_game(game);
        let mut kept = Vec::with_capacity(alloc, weights.len())?;
        kept.extend_from_slice(weights)?;
        Ok(Mixes {
            states: game.states(),
            actions: game.informed_actions(),
            weights: kept,
        })
    }

    /// The mixes that surely play action `choice[s]` in each state `s`.
    ///
    /// # Errors
    ///
    /// Where no memory is to be had.
    pub fn pure(alloc: Global, game: &Game, choice: &[u32]) -> Result<Mixes, AllocError>
        requires states { length choice.now ≡ game.now.shape.states }
        requires actions { AllByRecursion (λ chosen. chosen < game.now.shape.informed_actions) choice.now }
        ensures { IfOk result (λ mixes. mixes ≡ pure_mixes game.now choice.now) }
    {
        law_game(game);
        let actions = game.informed_actions();
        let mut weights = vec![in alloc; 0; choice.len() * actions as usize]?;
        choose(choice, actions as usize, &mut weights);
        Ok(Mixes {
            states: game.states(),
            actions,
            weights,
        })
    }

    /// The number of states.
    pub fn states(&self) -> u32
        ensures states { result ≡ self.now.states }
        ensures kept { AreKept self.now }
    {
        self.states
    }

    /// The number of informed actions.
    pub fn actions(&self) -> u32
        ensures actions { result ≡ self.now.actions }
        ensures kept { AreKept self.now }
    {
        self.actions
    }

    /// The weight of the informed action `c` in state `s`, out of 65,536.
    pub fn get(&self, s: u32, c: u32) -> i128
        requires state { s < self.now.states }
        requires action { c < self.now.actions }
        ensures weight { result ≡ mix_at self.now s c }
        ensures small { IsWithin (pos 0) (pos mix_total) result }
    {
        self.weights[s as usize * self.actions as usize + c as usize]
    }

    /// Equal mixes.
    ///
    /// # Errors
    ///
    /// Where no memory is to be had.
    pub fn copied(&self) -> Result<Mixes, AllocError>
        ensures { IfOk result (λ mixes. mixes ≡ self.now) }
    {
        Ok(Mixes {
            states: self.states,
            actions: self.actions,
            weights: self.weights.clone()?,
        })
    }
}

/// Puts the whole weight of each state on its chosen action.
fn choose(choice: &[u32], actions: usize, weights: &mut [i128])
    requires few { length choice.now ≤ most_states }
    requires small { actions ≤ most_actions }
    requires chosen { AllByRecursion (λ chosen. chosen < actions) choice.now }
    requires zeros { weights.old ≡ replicate (length choice.now * actions) (pos 0) }
    ensures { weights.new ≡ flat_map (sure actions) choice.now }
{
    for (s, chosen) in choice.iter().enumerate() {
        weights[s * actions + *chosen as usize] = MIX_TOTAL;
    }
}
