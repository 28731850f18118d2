//! Seed vectors: what always playing one action is worth at least.

ghost use Rattle.game_model.specs.Limits.{most_row_total};
ghost use Rattle.game_model.specs.Bounds.{IsBounded, IsLeastOf, IsWithinSpan, IsWorthWithin};
ghost use Rattle.game_model.specs.Game.{numbers, row_at, span};
ghost use Rattle.scaled_num.specs.Sums.{total};
ghost use Rattle.game_model.specs.Seeds.{IsLeastFloor, IsSeed, IsSeedAfter, stage_worth};
ghost use Rattle.std.specs.List.{AllByRecursion};
ghost use Rattle.std.specs.Prelude.{length, neg_ℤ, pos, slice_index_or, sum_by, unsigned_abs, ℕ, ◌*◌, ◌*ℤ◌, ◌<◌, ◌^◌, ◌≡◌, ◌≤◌};

use crate::accepted::{Game, law_game};
use crate::parts::{Landing, MOST_STATES, SEED_ROUNDS, UNITS};
use scaled_num::floor_div;

impl Game {
    /// The seed vector of action `a`, one entry in units for each state: what always playing `a` surely earns.
    /// Each of 256 rounds from minus the span replaces all entries at once by the least, over the informed actions,
    /// of what one stage and the old entries are worth, rounded down. It takes no memory.
    pub fn steady(&self, a: u32, out: &mut [i128])
        requires action { a < self.now.shape.own_actions }
        requires states { length out.old ≡ self.now.shape.states }
        ensures seed { IsSeed (numbers self.now) (span self.now) a (λ s. slice_index_or out.new s (pos 0)) }
        ensures bounded { IsBounded self.now out.new }
        ensures small { AllByRecursion (λ x. unsigned_abs x ≤ 2 ^ 70) out.new }
    {
        law_game(self);
        out.fill(-self.span());
        settle(self, a, SEED_ROUNDS, out);
    }

    /// What one stage is worth in state `s` at own action `a` and informed action `c`, where a vector tells in units
    /// what each next state is worth: 65,536 times the reward, plus the discounted average of the vector over the
    /// row, all of it times the row total and the discount's denominator. It takes no memory.
    pub fn stage_worth(&self, s: u32, a: u32, c: u32, vector: &[i128]) -> i128
        requires state { s < self.now.shape.states }
        requires own { a < self.now.shape.own_actions }
        requires informed { c < self.now.shape.informed_actions }
        requires bounded { IsBounded self.now vector.now }
        ensures exact { result ≡ stage_worth (numbers self.now) a (λ t. slice_index_or vector.now t (pos 0)) s c }
        ensures bounded { IsWorthWithin self.now result }
    {
        law_game(self);
        let later = rest(self, s, a, c, vector);
        let (over, under) = self.discount();
        UNITS * self.reward(s, a, c) * (self.row_total() * under) + over * later
    }
}

/// Takes a vector of minus the span so many rounds on.
fn settle(game: &Game, a: u32, rounds: u32, out: &mut [i128])
    requires action { a < game.now.shape.own_actions }
    requires states { length out.old ≡ game.now.shape.states }
    requires start { AllByRecursion (λ x. x ≡ neg_ℤ (pos (span game.now))) out.old }
    ensures seed { IsSeedAfter (numbers game.now) (span game.now) a rounds (λ s. slice_index_or out.new s (pos 0)) }
    ensures bounded { IsBounded game.now out.new }
{
    law_game(game);
    let mut before = [0; MOST_STATES];
    let before = &mut before[..out.len()];
    for _round in 0..rounds {
        before.copy_from_slice(out);
        round(game, a, before, out);
    }
}

/// One round: the new entries from the old ones.
fn round(game: &Game, a: u32, old: &[i128], new: &mut [i128])
    requires action { a < game.now.shape.own_actions }
    requires bounded { IsBounded game.now old.now }
    requires states { length new.old ≡ game.now.shape.states }
    ensures floors { (s : ℕ) → s < game.now.shape.states →
        IsLeastFloor (numbers game.now) a (λ t. slice_index_or old.now t (pos 0)) s
        (slice_index_or new.new s (pos 0)) }
    ensures bounded { IsBounded game.now new.new }
{
    law_game(game);
    for (s, entry) in new.iter_mut().enumerate() {
        *entry = least(game, a, s as u32, old);
    }
}

/// The new entry of one state.
fn least(game: &Game, a: u32, s: u32, old: &[i128]) -> i128
    requires action { a < game.now.shape.own_actions }
    requires state { s < game.now.shape.states }
    requires bounded { IsBounded game.now old.now }
    ensures floor { IsLeastFloor (numbers game.now) a (λ t. slice_index_or old.now t (pos 0)) s result }
    ensures bounded { IsWithinSpan game.now result }
{
    law_game(game);
    let worth = least_worth(game, a, s, old);
    let (_, under) = game.discount();
    floor_div(worth, game.row_total() * under)
}

/// The least worth over the informed actions, before the division.
fn least_worth(game: &Game, a: u32, s: u32, old: &[i128]) -> i128
    requires action { a < game.now.shape.own_actions }
    requires state { s < game.now.shape.states }
    requires bounded { IsBounded game.now old.now }
    ensures least { IsLeastOf (stage_worth (numbers game.now) a (λ t. slice_index_or old.now t (pos 0)) s)
        game.now.shape.informed_actions result }
    ensures bounded { IsWorthWithin game.now result }
{
    law_game(game);
    let mut least = game.stage_worth(s, a, 0, old);
    for c in 1..game.informed_actions() {
        least = least.min(game.stage_worth(s, a, c, old));
    }
    least
}

/// The sum over the row of a triple of its weights times the old entries.
fn rest(game: &Game, s: u32, a: u32, c: u32, old: &[i128]) -> i128
    requires state { s < game.now.shape.states }
    requires own { a < game.now.shape.own_actions }
    requires informed { c < game.now.shape.informed_actions }
    requires bounded { IsBounded game.now old.now }
    ensures exact { result ≡ total (λ l. l.weight *ℤ slice_index_or old.now l.to (pos 0)) (row_at game.now s a c) }
    ensures bounded { unsigned_abs result ≤ unsigned_abs game.now.shape.row_total * span game.now }
{
    law_game(game);
    expected(game.row(s, a, c), old)
}

/// The sum over a row of its weights times the entries of a vector.
fn expected(row: &[Landing], vector: &[i128]) -> i128
    requires inside { AllByRecursion (λ l. l.to < length vector.now) row.now }
    requires weights { sum_by (λ l. unsigned_abs l.weight) row.now ≤ most_row_total }
    requires entries { AllByRecursion (λ x. unsigned_abs x ≤ 2 ^ 70) vector.now }
    ensures { result ≡ total (λ l. l.weight *ℤ slice_index_or vector.now l.to (pos 0)) row.now }
{
    let mut sum: i128 = 0;
    for landing in row {
        sum += landing.weight * vector[landing.to as usize];
    }
    sum
}
