//! The numbers of a game that its stage programs are scaled by.

ghost use Rattle.game_model.specs.Game.{IsWithin};
ghost use Rattle.stage_game.specs.Asked.{AreBits, BeliefFits};
ghost use Rattle.stage_game.specs.Scaling.{ceil_of, floor_of, goal_at, most_scale, paid_above, pay_width, scale, width};
ghost use Rattle.stage_game.specs.Variables.{WorthOf};
ghost use Rattle.std.specs.Prelude.{max, neg_ℤ, pos, unsigned_abs, ◌*◌, ◌<ℤ◌, ◌<◌, ◌^◌, ◌≡◌, ◌≤ℤ◌};

use belief::Belief;
use game_model::{Game, UNITS, law_game};
use scaled_num::{ceil_div, floor_div};

/// The power of two that a program of so many bits is scaled by.
pub fn scale_of(bits: u32) -> i128
    requires { AreBits bits }
    ensures exact { result ≡ scale bits }
    ensures small { IsWithin (pos 1) (pos most_scale) result }
{
    1 << bits
}

/// The width that is scaled to that power: twice the span, at least 1.
pub fn width_of(game: &Game) -> i128
    ensures { result ≡ width game.now }
{
    law_game(game);
    width_from(game.span())
}

/// Twice the span, at least 1.
fn width_from(span: i128) -> i128
    requires low { pos 0 ≤ℤ span }
    requires high { span ≤ℤ pos (2 ^ 66) }
    ensures { result ≡ pos (max 1 (2 * unsigned_abs span)) }
{
    if span == 0 { 1 } else { 2 * span }
}

/// What a stage pays at once, raised so that it is never negative, and scaled.
pub fn paid(game: &Game, bits: u32, s: u32, a: u32, c: u32) -> i128
    requires bits { AreBits bits }
    requires state { s < game.now.shape.states }
    requires own { a < game.now.shape.own_actions }
    requires informed { c < game.now.shape.informed_actions }
    ensures { result ≡ paid_above game.now bits s a c }
{
    law_game(game);
    let (over, under) = game.discount();
    let raise = game.span() * (under - over);
    scale_of(bits) * (UNITS * under * game.reward(s, a, c) + raise)
}

/// What that is divided by.
pub fn paid_over(game: &Game) -> i128
    ensures { result ≡ pay_width game.now }
{
    law_game(game);
    let (_, under) = game.discount();
    under * width_of(game)
}

/// Minus the quotient rounded down.
pub fn minus_down(part: i128, whole: i128) -> i128
    requires divisor { pos 0 <ℤ whole }
    requires part { pos 0 ≤ℤ part }
    ensures { result ≡ neg_ℤ (floor_of part whole) }
{
    -floor_div(part, whole)
}

/// Minus the quotient rounded up.
pub fn minus_up(part: i128, whole: i128) -> i128
    requires divisor { pos 0 <ℤ whole }
    requires part { pos 0 ≤ℤ part }
    requires room { part ≤ℤ pos (2 ^ 126) }
    ensures { result ≡ neg_ℤ (ceil_of part whole) }
{
    -ceil_div(part, whole)
}

/// The number of a state in the goal.
pub fn goal_of(game: &Game, belief: &Belief, bits: u32, s: u32) -> i128
    requires bits { AreBits bits }
    requires belief { BeliefFits game.now belief.now }
    requires state { s < game.now.shape.states }
    ensures { result ≡ goal_at belief.now bits (WorthOf s) }
{
    ceil_div(scale_of(bits) * belief.parts()[s as usize], belief.total())
}
