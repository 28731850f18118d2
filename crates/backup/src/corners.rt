ghost use Rattle.backup.specs.Rounds.{AreSettled, IsGreatestOf};
ghost use Rattle.backup.specs.Seeds.{AreCornersAfter, IsGreatestCeil, IsReply};
ghost use Rattle.game_model.specs.Bounds.{IsBounded, IsWithinSpan, IsWorthWithin};
ghost use Rattle.game_model.specs.Game.{numbers, span};
ghost use Rattle.game_model.specs.Seeds.{stage_worth};
ghost use Rattle.scaled_num.specs.Share.{at};
ghost use Rattle.std.specs.List.{AllByRecursion};
ghost use Rattle.std.specs.Prelude.{length, pos, slice_index_or, ℕ, ◌<◌, ◌≡◌};

use game_model::{Game, MOST_STATES, SEED_ROUNDS, law_game};
use scaled_num::ceil_div;

/// Writes the value of each corner, and the informed player's reply there: 256 rounds from the span, and the replies
/// of the last one. It takes no memory.
pub fn settle_corners(game: &Game, values: &mut [i128], replies: &mut [u32])
    requires states { length values.old ≡ game.now.shape.states }
    requires replies { length replies.old ≡ game.now.shape.states }
    ensures { AreSettled game.now values.new replies.new }
{
    law_game(game);
    values.fill(game.span());
    settle(game, SEED_ROUNDS - 1, values, replies);
    let mut before = [0; MOST_STATES];
    let before = &mut before[..values.len()];
    before.copy_from_slice(values);
    round(game, before, values, replies);
}

/// Takes values of the span so many rounds on.
fn settle(game: &Game, rounds: u32, values: &mut [i128], replies: &mut [u32])
    requires states { length values.old ≡ game.now.shape.states }
    requires replies { length replies.old ≡ game.now.shape.states }
    requires start { AllByRecursion (λ x. x ≡ pos (span game.now)) values.old }
    ensures corners { AreCornersAfter (numbers game.now) (span game.now) rounds (at values.new) }
    ensures bounded { IsBounded game.now values.new }
{
    law_game(game);
    let mut before = [0; MOST_STATES];
    let before = &mut before[..values.len()];
    for _round in 0..rounds {
        before.copy_from_slice(values);
        round(game, before, values, replies);
    }
}

/// One round: the new values from the old ones, with the replies that leave them.
fn round(game: &Game, old: &[i128], new: &mut [i128], replies: &mut [u32])
    requires bounded { IsBounded game.now old.now }
    requires states { length new.old ≡ game.now.shape.states }
    requires replies { length replies.old ≡ game.now.shape.states }
    ensures replied { (s : ℕ) → s < game.now.shape.states →
        IsReply (numbers game.now) (at old.now) s (slice_index_or replies.new s 0) (at new.new s) }
    ensures bounded { IsBounded game.now new.new }
{
    law_game(game);
    for s in 0..game.states() {
        let (value, chosen) = reply(game, s, old);
        new[s as usize] = value;
        replies[s as usize] = chosen;
    }
}

/// The new value of one state, and the first informed action that leaves it.
fn reply(game: &Game, s: u32, old: &[i128]) -> (i128, u32)
    requires state { s < game.now.shape.states }
    requires bounded { IsBounded game.now old.now }
    ensures reply { IsReply (numbers game.now) (at old.now) s result.1 result.0 }
    ensures bounded { IsWithinSpan game.now result.0 }
{
    law_game(game);
    let mut least = greatest_ceil(game, s, 0, old);
    let mut chosen = 0;
    for c in 1..game.informed_actions() {
        let value = greatest_ceil(game, s, c, old);
        let better = value < least;
        if better {
            least = value;
            chosen = c;
        }
    }
    (least, chosen)
}

/// The most that player one gets in a state against an informed action, rounded up.
fn greatest_ceil(game: &Game, s: u32, c: u32, old: &[i128]) -> i128
    requires state { s < game.now.shape.states }
    requires informed { c < game.now.shape.informed_actions }
    requires bounded { IsBounded game.now old.now }
    ensures ceil { IsGreatestCeil (numbers game.now) (at old.now) s c result }
    ensures bounded { IsWithinSpan game.now result }
{
    law_game(game);
    let worth = greatest_worth(game, s, c, old);
    let (_, under) = game.discount();
    ceil_div(worth, game.row_total() * under)
}

/// The greatest worth over the own actions, before the division.
fn greatest_worth(game: &Game, s: u32, c: u32, old: &[i128]) -> i128
    requires state { s < game.now.shape.states }
    requires informed { c < game.now.shape.informed_actions }
    requires bounded { IsBounded game.now old.now }
    ensures greatest { IsGreatestOf (λ a. stage_worth (numbers game.now) a (at old.now) s c)
        game.now.shape.own_actions result }
    ensures bounded { IsWorthWithin game.now result }
{
    law_game(game);
    let mut most = game.stage_worth(s, 0, c, old);
    for a in 1..game.own_actions() {
        most = most.max(game.stage_worth(s, a, c, old));
    }
    most
}
