//! How far apart the bounds may be at a depth for a search to go no deeper.

ghost use Rattle.controller.specs.Certificates.{IsGap};
ghost use Rattle.controller.specs.Data.{fraction_data};
ghost use Rattle.game_model.specs.Game.{numbers, span};
ghost use Rattle.hsvi_trial.specs.Thresholds.{threshold};
ghost use Rattle.std.specs.Prelude.{pos, ◌*◌, ◌<◌, ◌≡◌, ◌≤◌};

use game_model::{Game, UNITS, law_game};
use scaled_num::Fraction;

/// The threshold at a depth of a game with a discount, in units: the gap at depth 0, and a stage deeper what it is
/// there over the discount, each rounded down and at most twice the span.
pub fn threshold(game: &Game, gap: &Fraction, depth: u32) -> i128
    requires gap { IsGap (fraction_data gap.now) }
    requires discount { 0 < (numbers game.now).discount_over }
    ensures threshold { result ≡ pos (threshold game.now (fraction_data gap.now) depth) }
    ensures most { threshold game.now (fraction_data gap.now) depth ≤ 2 * span game.now }
{
    law_game(game);
    let most = 2 * game.span().unsigned_abs();
    let (over, under) = game.discount();
    let (over, under) = (over.unsigned_abs(), under.unsigned_abs());
    let in_units = UNITS.unsigned_abs() * gap.num.unsigned_abs();
    let mut distance = most.min(in_units / gap.den.unsigned_abs());
    for _ in 0..depth {
        distance = most.min(distance * under / over);
    }
    distance as i128
}
