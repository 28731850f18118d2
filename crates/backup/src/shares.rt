ghost use Rattle.game_model.specs.Limits.{most_states};
ghost use Rattle.backup.specs.Seeds.{corner_shares, has_weight};
ghost use Rattle.backup.specs.Shares.{AreOver, own_shares, row_shares, seen_shares};
ghost use Rattle.game_model.specs.Branches.{branch_of};
ghost use Rattle.scaled_num.specs.Share.{at};
ghost use Rattle.std.specs.Prelude.{IfOk, OnOk, filter, length, map, ◌++◌, ◌<◌, ◌≡◌, ◌≤◌};

use belief::{Belief, Mixes, mass};
use game_model::{Game, MOST_STATES, law_game};
use point_set::Share;
use std::alloc::{AllocError, Global};

/// The shares that split all masses of a belief and mixes into corners, where point `t` is the corner of state `t`.
///
/// # Errors
///
/// Where no memory is to be had.
pub fn split_into_corners(
    alloc: Global,
    game: &Game,
    belief: &Belief,
    mixes: &Mixes,
) -> Result<Vec<Share>, AllocError>
    requires { AreOver game.now belief.now mixes.now }
    ensures { IfOk result (λ shares. map branch_of shares.items ≡ corner_shares game.now belief.now mixes.now) }
{
    let mut shares = Vec::new(alloc);
    for a in 0..game.own_actions() {
        add_after(game, belief, mixes, a, &mut shares)?;
    }
    Ok(shares)
}

/// Adds the shares after an own action.
fn add_after(
    game: &Game,
    belief: &Belief,
    mixes: &Mixes,
    a: u32,
    shares: &mut Vec<Share>,
) -> Result<(), AllocError>
    requires over { AreOver game.now belief.now mixes.now }
    requires own { a < game.now.shape.own_actions }
    ensures { OnOk result (map branch_of shares.new.items
        ≡ map branch_of shares.old.items ++ filter has_weight
        (own_shares game.now belief.now mixes.now a game.now.shape.observations)) }
{
    for o in 0..game.observations() {
        add_seen(game, belief, mixes, a, o, shares)?;
    }
    Ok(())
}

/// Adds the shares after an own action and an observation.
fn add_seen(
    game: &Game,
    belief: &Belief,
    mixes: &Mixes,
    a: u32,
    o: u32,
    shares: &mut Vec<Share>,
) -> Result<(), AllocError>
    requires over { AreOver game.now belief.now mixes.now }
    requires own { a < game.now.shape.own_actions }
    requires seen { o < game.now.shape.observations }
    ensures { OnOk result (map branch_of shares.new.items
        ≡ map branch_of shares.old.items ++ filter has_weight (seen_shares game.now belief.now mixes.now a o)) }
{
    law_game(game);
    let mut masses = [0; MOST_STATES];
    let masses = &mut masses[..game.states() as usize];
    mass(game, belief, mixes, a, o, masses);
    add_row(masses, a, o, shares)
}

/// Adds a share for each mass that is not zero.
fn add_row(masses: &[i128], a: u32, o: u32, shares: &mut Vec<Share>) -> Result<(), AllocError>
    requires { length masses.now ≤ most_states }
    ensures { OnOk result (map branch_of shares.new.items
        ≡ map branch_of shares.old.items ++ filter has_weight
        (row_shares (at masses.now) a o (length masses.now))) }
{
    for (t, weight) in masses.iter().enumerate() {
        let weighs = *weight != 0;
        if weighs {
            shares.push(Share {
                a,
                o,
                k: t as u32,
                weight: *weight,
            })?;
        }
    }
    Ok(())
}
