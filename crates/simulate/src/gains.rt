//! What plays gain, and how long they may be.

ghost use Rattle.game_model.specs.Game.{greatest_reward, numbers};
ghost use Rattle.simulate.specs.Lengths.{IsInGame, IsLongest, IsShortPlay};
ghost use Rattle.simulate.specs.Plays.{gain_of};
ghost use Rattle.std.specs.List.{AllByRecursion};
ghost use Rattle.std.specs.Prelude.{length, max, pos, unsigned_abs, ◌*◌, ◌*ℤ◌, ◌+ℤ◌, ◌^◌, ◌≡◌, ◌≤◌};

use crate::parts::Played;
use game_model::{Game, law_game};
use scaled_num::Fraction;

/// The most stages of a play.
const MOST_STAGES: u32 = 64;

/// The most that a play gains, times the denominator of the discount to the number of stages.
const MOST_GAIN: u128 = 1 << 120;

/// The most stages that a play of a game may have: 64, or as many as keep the stages times the greatest magnitude of a
/// reward (at least 1) times the denominator of the discount to the number of stages within 2^120.
pub fn longest(game: &Game) -> u32
    ensures longest { IsLongest game.now result }
    ensures some { 1 ≤ result }
{
    law_game(game);
    let reward = greatest_reward(game).max(1);
    let under = denominator(game);
    let mut power: u128 = 1;
    for stages in 0..MOST_STAGES {
        let each = u128::from(stages + 1) * reward * under;
        if power > MOST_GAIN / each {
            return stages;
        }
        power *= under;
    }
    MOST_STAGES
}

/// The greatest magnitude of a reward.
fn greatest_reward(game: &Game) -> u128
    ensures greatest { result ≡ greatest_reward game.now }
    ensures small { result ≤ 2 ^ 30 }
{
    law_game(game);
    let (own, informed) = (game.own_actions(), game.informed_actions());
    let mut most: u128 = 0;
    for triple in 0..game.states() * own * informed {
        let pair = triple / informed;
        let reward = game.reward(pair / own, pair % own, triple % informed);
        most = most.max(reward.unsigned_abs());
    }
    most
}

/// The denominator of the discount.
fn denominator(game: &Game) -> u128
    ensures under { result ≡ (numbers game.now).discount_under }
    ensures some { 1 ≤ result }
    ensures small { result ≤ 2 ^ 20 }
{
    law_game(game);
    game.discount().1.unsigned_abs()
}

/// The gain of steps: each reward is discounted once for every stage before it.
pub fn gain_of(game: &Game, steps: &[Played]) -> Fraction
    requires each { AllByRecursion (IsInGame game.now) steps.now }
    requires short { IsShortPlay game.now (length steps.now) }
    ensures gain { result.num ≡ gain_of (numbers game.now) steps.now }
    ensures scale { result.den ≡ pos ((numbers game.now).discount_under ^ length steps.now) }
{
    law_game(game);
    let under = denominator(game);
    let mut gain: i128 = 0;
    let mut power: u128 = 1;
    for done in 0..steps.len() {
        power *= under;
        gain = with_stage(game, &steps[steps.len() - 1 - done], power, gain);
    }
    Fraction {
        num: gain,
        den: power as i128,
    }
}

/// The gain of a stage and of those after it: its reward times a power of the denominator of the discount, and what
/// the later ones gain times the numerator.
fn with_stage(game: &Game, step: &Played, power: u128, later: i128) -> i128
    requires step { IsInGame game.now step.now }
    requires power { max 1 (greatest_reward game.now) * power ≤ 2 ^ 120 }
    requires later { (numbers game.now).discount_under * unsigned_abs later ≤ 2 ^ 120 }
    ensures { result ≡ (numbers game.now).reward step.now.state step.now.own step.now.informed *ℤ pos power
        +ℤ pos (numbers game.now).discount_over *ℤ later }
{
    law_game(game);
    let (over, _) = game.discount();
    game.reward(step.state, step.own, step.informed) * power as i128 + over * later
}
