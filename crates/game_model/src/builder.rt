//! The builder of games, which takes rewards and rows one by one and refuses what breaks a limit.

ghost use Rattle.game_model.specs.Build.{HasRoom, HasWeightLeft, IsBegun, IsGameFront, IsLastRowFull, IsMultiple, IsNext, landing_of, last_row, with_landing, with_step};
ghost use Rattle.game_model.specs.Game.{IsBelief, IsLanding, IsNarrow, IsRewardInRange, IsShape, triples};
ghost use Rattle.std.specs.Bool.{IsTrue};
ghost use Rattle.std.specs.Prelude.{IfOk, IsErrOf, OnErr, OnOk, [], pos, ◌↔◌, ◌⊎◌, ◌≡◌, ◌≤ℤ◌};

use crate::accepted::Game;
use crate::limits::{
    coprime, count_triples, is_belief, is_landing, is_narrow, is_next, is_reward, is_shape,
};
use crate::parts::{Entry, Landing, Shape};
use std::alloc::{AllocError, Global};
use std::marker::Model;
use thiserror::Error;

/// Why a builder refuses.
#[derive(Debug, Drop, PartialEq, Eq, Error)]
pub enum GameFault {
    /// A number is outside its limit.
    #[error("a number is outside its limit")]
    Range,
    /// The first belief has another length than there are states, or a weight or a total outside its limit.
    #[error("the first belief is no belief")]
    Belief,
    /// All rows were begun.
    #[error("all rows were begun")]
    Extra,
    /// The weights of a row do not sum to the row total.
    #[error("the weights of a row do not sum to the row total")]
    Total,
    /// Sums could pass 128 bits.
    #[error("sums could pass 128 bits")]
    Wide,
    /// A row is missing.
    #[error("a row is missing")]
    Missing,
    /// A landing does not come after the one before it.
    #[error("a landing does not come after the one before it")]
    Order,
    /// No memory was to be had.
    #[error("out of memory")]
    OutOfMemory,
}

/// A game in the making. It takes the triples of state, own action and informed action in rising order.
#[derive(Debug, Drop)]
pub struct GameBuilder {
    shape: Shape,
    first: Vec<i128>,
    entries: Vec<Entry>,
    filled: i128,
}

impl Model for GameBuilder {
    ghost use Rattle.game_model.specs.Build.{IsBuilder, data_of};
    ghost use Rattle.game_model.specs.Game.{GameData};

    ghost Value = { GameData };

    ghost view = { λ b. data_of b.shape b.first.items b.entries.items };

    ghost invariant = { λ b. IsBuilder (data_of b.shape b.first.items b.entries.items) b.filled };
}

impl GameBuilder {
    /// Begins a game without rows. The weights of the first belief are kept divided by their greatest common
    /// divisor.
    ///
    /// # Errors
    ///
    /// `Range` where a field of the shape is outside its limit. `Belief` where the shape is in range and `first`
    /// has another length than the states, an entry outside 0 to 2^20 or a total outside 1 to 2^20.
    pub fn new(alloc: Global, shape: Shape, first: &[i128]) -> Result<GameBuilder, GameFault>
        ensures range { IsErrOf result GameFault.Range ↔ ¬ (IsShape shape) }
        ensures belief { IsErrOf result GameFault.Belief ↔ (IsShape shape × ¬ (IsBelief shape.states first.now)) }
        ensures others { (fault : GameFault) → IsErrOf result fault →
            (fault ≡ GameFault.Range) ⊎ (fault ≡ GameFault.Belief) ⊎ (fault ≡ GameFault.OutOfMemory) }
        ensures shaped { IfOk result (λ builder. builder.shape ≡ shape) }
        ensures divided { IfOk result (λ builder. IsMultiple first.now builder.first) }
        ensures empty { IfOk result (λ builder. (builder.rewards ≡ []) × (builder.rows ≡ [])) }
        ensures front { IfOk result IsGameFront }
    {
        if !is_shape(&shape) {
            return Err(GameFault::Range);
        }
        if !is_belief(shape.states, first) {
            return Err(GameFault::Belief);
        }
        let Ok(first) = coprime(alloc, first) else {
            return Err(GameFault::OutOfMemory);
        };
        Ok(GameBuilder {
            shape,
            first,
            entries: Vec::new(alloc),
            filled: 0,
        })
    }

    /// Begins the row of the next triple of state, own action and informed action.
    ///
    /// # Errors
    ///
    /// In this order: `Extra` where all triples were begun; `Range` where the reward is outside its limit; `Total`
    /// where a row was begun and its weights do not sum to the row total; `Wide` where the width rule refuses the
    /// reward. A refusal leaves the builder as it was.
    pub fn step(&mut self, reward: i128) -> Result<(), GameFault>
        ensures extra { IsErrOf result GameFault.Extra ↔ ¬ (HasRoom self.old) }
        ensures range { IsErrOf result GameFault.Range ↔ (HasRoom self.old × ¬ (IsRewardInRange reward)) }
        ensures total { IsErrOf result GameFault.Total
            ↔ (HasRoom self.old × IsRewardInRange reward × ¬ (IsLastRowFull self.old)) }
        ensures wide { IsErrOf result GameFault.Wide
            ↔ (HasRoom self.old × IsRewardInRange reward × IsLastRowFull self.old
            × ¬ (IsNarrow self.old.shape reward)) }
        ensures others { (fault : GameFault) → IsErrOf result fault →
            (fault ≡ GameFault.Extra) ⊎ (fault ≡ GameFault.Range) ⊎ (fault ≡ GameFault.Total)
            ⊎ (fault ≡ GameFault.Wide) ⊎ (fault ≡ GameFault.OutOfMemory) }
        ensures begun { OnOk result (self.new ≡ with_step self.old reward) }
        ensures unchanged { OnErr result (self.new ≡ self.old) }
        ensures front { IsGameFront self.new }
    {
        if let Err(fault) = self.admit_step(reward) {
            return Err(fault);
        }
        if self.begin(reward).is_err() {
            return Err(GameFault::OutOfMemory);
        }
        Ok(())
    }

    /// Adds a landing to the row that was begun last.
    ///
    /// # Errors
    ///
    /// In this order: `Missing` where no row was begun; `Range` where the observation, the state or the weight is
    /// outside its limit; `Order` where the row has a landing and this one is not greater by observation and next
    /// state than its last; `Total` where the row's weights would pass the row total. A refusal leaves the builder
    /// as it was.
    pub fn landing(&mut self, seen: u32, to: u32, weight: i128) -> Result<(), GameFault>
        ensures missing { IsErrOf result GameFault.Missing ↔ ¬ (IsBegun self.old) }
        ensures range { IsErrOf result GameFault.Range
            ↔ (IsBegun self.old × ¬ (IsLanding self.old.shape (landing_of seen to weight))) }
        ensures order { IsErrOf result GameFault.Order
            ↔ (IsBegun self.old × IsLanding self.old.shape (landing_of seen to weight)
            × ¬ (IsNext (last_row self.old) (landing_of seen to weight))) }
        ensures total { IsErrOf result GameFault.Total
            ↔ (IsBegun self.old × IsLanding self.old.shape (landing_of seen to weight)
            × IsNext (last_row self.old) (landing_of seen to weight) × ¬ (HasWeightLeft self.old weight)) }
        ensures others { (fault : GameFault) → IsErrOf result fault →
            (fault ≡ GameFault.Missing) ⊎ (fault ≡ GameFault.Range) ⊎ (fault ≡ GameFault.Order)
            ⊎ (fault ≡ GameFault.Total) ⊎ (fault ≡ GameFault.OutOfMemory) }
        ensures added { OnOk result (self.new ≡ with_landing self.old (landing_of seen to weight)) }
        ensures unchanged { OnErr result (self.new ≡ self.old) }
        ensures front { IsGameFront self.new }
    {
        let landing = Landing { seen, to, weight };
        if let Err(fault) = self.admit_landing(&landing) {
            return Err(fault);
        }
        if self.add(landing).is_err() {
            return Err(GameFault::OutOfMemory);
        }
        Ok(())
    }

    /// The game, once all rows are there. It takes no memory.
    ///
    /// # Errors
    ///
    /// `Missing` where not all triples were begun; `Total` where all were begun and the last row does not sum to
    /// the row total. A refusal gives the builder up.
    pub fn finish(self) -> Result<Game, GameFault>
        ensures missing { IsErrOf result GameFault.Missing ↔ HasRoom self }
        ensures total { IsErrOf result GameFault.Total ↔ (¬ (HasRoom self) × ¬ (IsLastRowFull self)) }
        ensures others { (fault : GameFault) → IsErrOf result fault →
            (fault ≡ GameFault.Missing) ⊎ (fault ≡ GameFault.Total) }
        ensures built { IfOk result (λ game. game ≡ self) }
    {
        if self.has_room() {
            return Err(GameFault::Missing);
        }
        if !self.is_last_full() {
            return Err(GameFault::Total);
        }
        let GameBuilder {
            shape,
            first,
            entries,
            ..
        } = self;
        Ok(Game::of_parts(shape, first, entries))
    }

    /// Whether some triple was not begun.
    fn has_room(&self) -> bool
        ensures room { IsTrue result ↔ HasRoom self.now }
        ensures front { IsGameFront self.now }
    {
        self.entries.len() < count_triples(&self.shape)
    }

    /// Whether no row was begun, or the weights of the last one sum to the row total.
    fn is_last_full(&self) -> bool
        ensures { IsTrue result ↔ IsLastRowFull self.now }
    {
        self.entries.is_empty() || self.filled == self.shape.row_total
    }

    /// Whether a row was begun.
    fn is_begun(&self) -> bool
        ensures begun { IsTrue result ↔ IsBegun self.now }
        ensures front { IsGameFront self.now }
    {
        !self.entries.is_empty()
    }

    /// Whether the landing comes after the last one of the last row.
    fn is_next(&self, landing: &Landing) -> bool
        requires { IsBegun self.now }
        ensures { IsTrue result ↔ IsNext (last_row self.now) landing.now }
    {
        is_next(&self.entries[self.entries.len() - 1].row, landing)
    }

    /// Whether the weight still fits the last row.
    fn has_left(&self, weight: i128) -> bool
        requires low { pos 1 ≤ℤ weight }
        requires high { weight ≤ℤ self.now.shape.row_total }
        ensures { IsTrue result ↔ HasWeightLeft self.now weight }
    {
        self.filled + weight <= self.shape.row_total
    }

    /// Whether a step with this reward is refused.
    fn admit_step(&self, reward: i128) -> Result<(), GameFault>
        ensures extra { IsErrOf result GameFault.Extra ↔ ¬ (HasRoom self.now) }
        ensures range { IsErrOf result GameFault.Range ↔ (HasRoom self.now × ¬ (IsRewardInRange reward)) }
        ensures total { IsErrOf result GameFault.Total
            ↔ (HasRoom self.now × IsRewardInRange reward × ¬ (IsLastRowFull self.now)) }
        ensures wide { IsErrOf result GameFault.Wide
            ↔ (HasRoom self.now × IsRewardInRange reward × IsLastRowFull self.now
            × ¬ (IsNarrow self.now.shape reward)) }
        ensures others { (fault : GameFault) → IsErrOf result fault →
            (fault ≡ GameFault.Extra) ⊎ (fault ≡ GameFault.Range) ⊎ (fault ≡ GameFault.Total)
            ⊎ (fault ≡ GameFault.Wide) }
        ensures front { IsGameFront self.now }
        ensures admitted { OnOk result (HasRoom self.now × IsRewardInRange reward × IsLastRowFull self.now
            × IsNarrow self.now.shape reward) }
    {
        if !self.has_room() {
            return Err(GameFault::Extra);
        }
        if !is_reward(reward) {
            return Err(GameFault::Range);
        }
        if !self.is_last_full() {
            return Err(GameFault::Total);
        }
        if !is_narrow(&self.shape, reward) {
            return Err(GameFault::Wide);
        }
        Ok(())
    }

    /// Whether a landing is refused.
    fn admit_landing(&self, landing: &Landing) -> Result<(), GameFault>
        ensures missing { IsErrOf result GameFault.Missing ↔ ¬ (IsBegun self.now) }
        ensures range { IsErrOf result GameFault.Range ↔ (IsBegun self.now × ¬ (IsLanding self.now.shape landing.now)) }
        ensures order { IsErrOf result GameFault.Order
            ↔ (IsBegun self.now × IsLanding self.now.shape landing.now
            × ¬ (IsNext (last_row self.now) landing.now)) }
        ensures total { IsErrOf result GameFault.Total
            ↔ (IsBegun self.now × IsLanding self.now.shape landing.now × IsNext (last_row self.now) landing.now
            × ¬ (HasWeightLeft self.now landing.now.weight)) }
        ensures others { (fault : GameFault) → IsErrOf result fault →
            (fault ≡ GameFault.Missing) ⊎ (fault ≡ GameFault.Range) ⊎ (fault ≡ GameFault.Order)
            ⊎ (fault ≡ GameFault.Total) }
        ensures front { IsGameFront self.now }
        ensures admitted { OnOk result (IsBegun self.now × IsLanding self.now.shape landing.now
            × IsNext (last_row self.now) landing.now × HasWeightLeft self.now landing.now.weight) }
    {
        if !self.is_begun() {
            return Err(GameFault::Missing);
        }
        if !is_landing(&self.shape, landing) {
            return Err(GameFault::Range);
        }
        if !self.is_next(landing) {
            return Err(GameFault::Order);
        }
        if !self.has_left(landing.weight) {
            return Err(GameFault::Total);
        }
        Ok(())
    }

    /// Begins a row.
    fn begin(&mut self, reward: i128) -> Result<(), AllocError>
        requires room { HasRoom self.old }
        requires range { IsRewardInRange reward }
        requires last { IsLastRowFull self.old }
        requires narrow { IsNarrow self.old.shape reward }
        ensures begun { OnOk result (self.new ≡ with_step self.old reward) }
        ensures unchanged { OnErr result (self.new ≡ self.old) }
        ensures front { IsGameFront self.new }
    {
        let row = Vec::new(*self.entries.allocator());
        self.entries.push(Entry { reward, row })?;
        self.filled = 0;
        Ok(())
    }

    /// Adds a landing to the last row.
    fn add(&mut self, landing: Landing) -> Result<(), AllocError>
        requires begun { IsBegun self.old }
        requires right { IsLanding self.old.shape landing }
        requires next { IsNext (last_row self.old) landing }
        requires left { HasWeightLeft self.old landing.weight }
        ensures added { OnOk result (self.new ≡ with_landing self.old landing) }
        ensures unchanged { OnErr result (self.new ≡ self.old) }
        ensures front { IsGameFront self.new }
    {
        let last = self.entries.len() - 1;
        let entry = &mut self.entries[last];
        entry.row.push(landing)?;
        self.filled += landing.weight;
        Ok(())
    }
}
