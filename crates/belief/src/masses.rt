//! The mass that a belief and mixes bring on.

ghost use Rattle.game_model.specs.Limits.{most_belief, most_mass};
ghost use Rattle.belief.specs.After.{mass_after};
ghost use Rattle.belief.specs.Beliefs.{mix_weight, weight_at};
ghost use Rattle.belief.specs.Masses.{AreBelow, AreLandings, IsSeen, from_state, landed};
ghost use Rattle.belief.specs.Mixes.{mass_of};
ghost use Rattle.game_model.specs.Game.{IsRising, IsWithin, numbers, weight_in};
ghost use Rattle.std.specs.Prelude.{filter, length, pos, slice_index_or, unsigned_abs, ℕ, ◌*◌, ◌+ℤ◌, ◌<◌, ◌^◌, ◌≡◌};

use crate::beliefs::Belief;
use crate::mixes::Mixes;
use game_model::{Game, Landing, law_game};

/// Writes the mass that a belief brings to each next state after own action `a` and observation `o`, where the
/// informed player plays these mixes: the sum over the states and the informed actions of the belief's weight times
/// the mix's weight times the weight of the landing. It takes no memory.
pub fn mass(game: &Game, belief: &Belief, mixes: &Mixes, a: u32, o: u32, out: &mut [i128])
    requires belief { length belief.now ≡ game.now.shape.states }
    requires states { mixes.now.states ≡ game.now.shape.states }
    requires actions { mixes.now.actions ≡ game.now.shape.informed_actions }
    requires own { a < game.now.shape.own_actions }
    requires seen { o < game.now.shape.observations }
    requires places { length out.old ≡ game.now.shape.states }
    ensures places { length out.new ≡ game.now.shape.states }
    ensures list { out.new ≡ mass_after game.now belief.now mixes.now a o }
    ensures exact { (t : ℕ) → t < game.now.shape.states →
        slice_index_or out.new t (pos 0)
        ≡ pos (mass_of (numbers game.now) (weight_at belief.now) (mix_weight mixes.now) a o t) }
{
    law_game(game);
    out.fill(0);
    let parts = belief.parts();
    for s in 0..mixes.states() {
        add_state(game, mixes, s, a, o, parts[s as usize], out);
    }
}

/// Adds what a state of this weight brings to each next state.
fn add_state(game: &Game, mixes: &Mixes, s: u32, a: u32, o: u32, weight: i128, out: &mut [i128])
    requires states { mixes.now.states ≡ game.now.shape.states }
    requires actions { mixes.now.actions ≡ game.now.shape.informed_actions }
    requires state { s < game.now.shape.states }
    requires own { a < game.now.shape.own_actions }
    requires weight { IsWithin (pos 0) (pos most_belief) weight }
    requires places { length out.old ≡ game.now.shape.states }
    requires room { AreBelow (pos (2 ^ 90)) out.old }
    ensures { (t : ℕ) → t < length out.old →
        slice_index_or out.new t (pos 0)
        ≡ (slice_index_or out.old t (pos 0))
        +ℤ pos (from_state game.now mixes.now (unsigned_abs weight) s a o t) }
{
    law_game(game);
    if weight == 0 {
        return;
    }
    for c in 0..mixes.actions() {
        add_row(game.row(s, a, c), o, weight * mixes.get(s, c), out);
    }
}

/// Adds the weights of a row's landings with an observation, times a factor.
fn add_row(row: &[Landing], o: u32, factor: i128, out: &mut [i128])
    requires rising { IsRising row.now }
    requires landings { AreLandings (length out.old) row.now }
    requires factor { IsWithin (pos 0) (pos most_mass) factor }
    requires room { AreBelow (pos (2 ^ 100)) out.old }
    ensures { (t : ℕ) → t < length out.old →
        slice_index_or out.new t (pos 0)
        ≡ (slice_index_or out.old t (pos 0)) +ℤ pos (unsigned_abs factor * weight_in row.now o t) }
{
    if factor == 0 {
        return;
    }
    add_landings(seen_so(row, o), factor, out);
}

/// The landings with an observation.
fn seen_so(row: &[Landing], o: u32) -> &[Landing]
    requires { IsRising row.now }
    ensures { result.now ≡ filter (IsSeen o) row.now }
{
    let start = row.partition_point(|landing| landing.seen < o);
    let rest = &row[start..];
    let count = rest.partition_point(|landing| landing.seen <= o);
    &rest[..count]
}

/// Adds the weight of each landing times a factor to its next state.
fn add_landings(landings: &[Landing], factor: i128, out: &mut [i128])
    requires landings { AreLandings (length out.old) landings.now }
    requires factor { IsWithin (pos 0) (pos most_mass) factor }
    requires room { AreBelow (pos (2 ^ 100)) out.old }
    ensures { (t : ℕ) → t < length out.old →
        slice_index_or out.new t (pos 0)
        ≡ (slice_index_or out.old t (pos 0)) +ℤ pos (unsigned_abs factor * landed landings.now t) }
{
    for landing in landings {
        out[landing.to as usize] += factor * landing.weight;
    }
}
