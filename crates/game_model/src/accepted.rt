//! Accepted games: their readers, and what stages are worth in them.

ghost use Rattle.game_model.specs.Limits.{most_states, most_reward, most_belief};
ghost use Rattle.game_model.specs.Build.{data_of};
ghost use Rattle.game_model.specs.Bounds.{span_from};
ghost use Rattle.game_model.specs.Game.{IsGame, IsRewardInRange, IsShape, IsWithin, first_at, numbers, reward_at, row_at, span, triple};
ghost use Rattle.game_model.specs.Numbers.{product};
ghost use Rattle.game_model.specs.Seeds.{KeepsSpan};
ghost use Rattle.scaled_num.specs.Sums.{below, sum_of, total};
ghost use Rattle.std.specs.List.{AllByRecursion};
ghost use Rattle.std.specs.Prelude.{fold, length, max, pos, slice_index_or, unsigned_abs, ◌*ℤ◌, ◌<◌, ◌^◌, ◌≡◌, ◌≤ℤ◌, ◌≤◌};

use crate::parts::{Entry, Landing, Shape, UNITS};
use scaled_num::{ceil_div, sum};
use std::marker::Model;

/// A game that keeps every limit: its shape, its first belief, and for each state, own action and informed action
/// a reward and a full row of landings.
#[derive(Debug, Drop)]
pub struct Game {
    shape: Shape,
    first: Vec<i128>,
    entries: Vec<Entry>,
    span: i128,
}

impl Model for Game {
    ghost use Rattle.game_model.specs.Build.{IsHeld, data_of};
    ghost use Rattle.game_model.specs.Game.{GameData};

    ghost Value = { GameData };

    ghost view = { λ g. data_of g.shape g.first.items g.entries.items };

    ghost invariant = { λ g. IsHeld (data_of g.shape g.first.items g.entries.items) g.span };
}

impl Game {
    /// A game of its parts.
    pub(crate) fn of_parts(shape: Shape, first: Vec<i128>, entries: Vec<Entry>) -> Game
        requires { IsGame (data_of shape first.items entries.items) }
        ensures { result ≡ data_of shape first.items entries.items }
    {
        let span = span_of(&shape, greatest_reward(&entries));
        Game {
            shape,
            first,
            entries,
            span,
        }
    }

    /// The number of states.
    pub fn states(&self) -> u32
        ensures { result ≡ self.now.shape.states }
    {
        self.shape.states
    }

    /// The number of the maximiser's actions.
    pub fn own_actions(&self) -> u32
        ensures { result ≡ self.now.shape.own_actions }
    {
        self.shape.own_actions
    }

    /// The number of the informed minimiser's actions.
    pub fn informed_actions(&self) -> u32
        ensures { result ≡ self.now.shape.informed_actions }
    {
        self.shape.informed_actions
    }

    /// The number of observations.
    pub fn observations(&self) -> u32
        ensures { result ≡ self.now.shape.observations }
    {
        self.shape.observations
    }

    /// The reward in state `s` at own action `a` and informed action `c`.
    pub fn reward(&self, s: u32, a: u32, c: u32) -> i128
        requires state { s < self.now.shape.states }
        requires own { a < self.now.shape.own_actions }
        requires informed { c < self.now.shape.informed_actions }
        ensures { result ≡ reward_at self.now s a c }
    {
        self.entries[self.place(s, a, c)].reward
    }

    /// The landings from state `s` at own action `a` and informed action `c`, by rising observation and next state.
    pub fn row(&self, s: u32, a: u32, c: u32) -> &[Landing]
        requires state { s < self.now.shape.states }
        requires own { a < self.now.shape.own_actions }
        requires informed { c < self.now.shape.informed_actions }
        ensures { result.now ≡ row_at self.now s a c }
    {
        &self.entries[self.place(s, a, c)].row
    }

    /// The total of each row.
    pub fn row_total(&self) -> i128
        ensures { result ≡ self.now.shape.row_total }
    {
        self.shape.row_total
    }

    /// The discount as numerator and denominator.
    pub fn discount(&self) -> (i128, i128)
        ensures { result ≡ self.now.shape.discount }
    {
        self.shape.discount
    }

    /// The weights of the first belief, which are coprime.
    pub fn first(&self) -> &[i128]
        ensures { result.now ≡ self.now.first }
    {
        &self.first
    }

    /// The total of the first belief.
    pub fn first_total(&self) -> i128
        ensures { result ≡ sum_of self.now.first }
    {
        sum(&self.first)
    }

    /// The product of the first belief with a vector: the sum over the states of the weight times the entry.
    pub fn first_product(&self, vector: &[i128]) -> i128
        requires long { length vector.now ≡ self.now.shape.states }
        requires entries { AllByRecursion (λ x. unsigned_abs x ≤ 2 ^ 70) vector.now }
        ensures { result ≡ product (numbers self.now) (first_at self.now) (λ s. slice_index_or vector.now s (pos 0)) }
    {
        weighted(&self.first, vector)
    }

    /// The span in units: the greatest magnitude of a reward, times the denominator over the denominator less the
    /// numerator of the discount, rounded up.
    pub fn span(&self) -> i128
        ensures { result ≡ pos (span self.now) }
    {
        self.span
    }

    /// The place of a triple in rising order.
    fn place(&self, s: u32, a: u32, c: u32) -> usize
        requires state { s < self.now.shape.states }
        requires own { a < self.now.shape.own_actions }
        requires informed { c < self.now.shape.informed_actions }
        ensures place { result ≡ triple self.now.shape s a c }
        ensures within { result < length self.now.rows }
    {
        let pair = s as usize * self.shape.own_actions as usize + a as usize;
        pair * self.shape.informed_actions as usize + c as usize
    }
}

/// A law: a game keeps every limit, and its numbers keep what seed vectors rest on.
pub fn law_game(game: &Game)
    ensures accepted { IsGame game.now }
    ensures keeps_span { KeepsSpan (numbers game.now) (span game.now) }
    ensures small_span { span game.now ≤ 2 ^ 66 }
{
    let _span = game.span;
}

/// The sum of a vector's entries by weights.
fn weighted(weights: &[i128], vector: &[i128]) -> i128
    requires same { length weights.now ≡ length vector.now }
    requires few { length weights.now ≤ most_states }
    requires weights { AllByRecursion (IsWithin (pos 0) (pos most_belief)) weights.now }
    requires entries { AllByRecursion (λ x. unsigned_abs x ≤ 2 ^ 70) vector.now }
    ensures { result ≡ total (λ s. slice_index_or weights.now s (pos 0) *ℤ slice_index_or vector.now s (pos 0))
        (below (length weights.now)) }
{
    let mut sum = 0;
    for s in 0..weights.len() {
        sum += weights[s] * vector[s];
    }
    sum
}

/// The span of games whose rewards have this greatest magnitude.
fn span_of(shape: &Shape, most: i128) -> i128
    requires shape { IsShape shape.now }
    requires low { pos 0 ≤ℤ most }
    requires high { most ≤ℤ pos most_reward }
    ensures { result ≡ pos (span_from shape.now (unsigned_abs most)) }
{
    let (over, under) = shape.discount;
    ceil_div(UNITS * most * under, under - over)
}

/// The greatest magnitude of a reward.
fn greatest_reward(entries: &[Entry]) -> i128
    requires { AllByRecursion (λ e. IsRewardInRange e.reward) entries.now }
    ensures bounded { result ≤ℤ pos most_reward }
    ensures greatest { result ≡ pos (fold (λ most e. max most (unsigned_abs e.reward)) 0 entries.now) }
{
    let mut most: i128 = 0;
    for entry in entries {
        most = most.max(entry.reward.abs());
    }
    most
}
