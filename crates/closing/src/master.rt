//! The program of a stage by columns: player one's plans are its columns, and its prices are how the informed player
//! plays against them. It is solved by the primal simplex in numbers of fixed width; what it says is advice alone.

ghost use Rattle.std.specs.Prelude.{length, ◌<◌, ◌≤◌};

use crate::fixed::{BITS, ONE, inverse_of, word};
use crate::places::OWN_PLACES;
use game_model::MOST_STATES;
use std::alloc::{AllocError, Global};

/// How many plans there are at most.
pub const MOST_PLANS: usize = 160;

/// How many columns there are at most, with the right-hand sides: one for each state and each plan.
const WIDE: usize = 177;

/// How many steps a run makes at most.
const STEPS: u32 = 200;

/// A price that is not below this counts as 0.
const LEAST_PRICE: i64 = -(1 << 8);

/// An entry has to be above this, to be divided by.
const LEAST_PIVOT: i64 = 1 << 18;

/// What a row or a column of the dictionary stands for.
#[derive(Clone, Copy)]
enum Variable {
    /// What a state is worth.
    Worth,
    /// What a row has to spare.
    Spare(u32),
    /// How much of a plan is played.
    Plan(u32),
}

/// A row: its right-hand side and an entry for each column.
type Row = [i64; WIDE];

/// A row of zeros.
const EMPTY: Row = [0; WIDE];

/// What a plan costs in each row of the program, from 0 to 1.
pub type Costs = [i128; MOST_STATES * OWN_PLACES];

/// A dictionary. Its rows are one for each state and informed action, one that says that all plans together are one,
/// and the goal.
#[derive(Drop)]
pub struct Master {
    rows: Vec<Row>,
    basic: Vec<Variable>,
    out: [Variable; WIDE],
    /// How many columns there are, with the right-hand sides.
    columns: usize,
    plans: u32,
}

impl Master {
    /// A program without plans, over states of these parts of a belief, each with so many informed actions.
    ///
    /// # Errors
    ///
    /// Where no memory is to be had.
    pub fn of(alloc: Global, parts: &[i128], actions: usize) -> Result<Master, AllocError>
        requires states { length parts.now ≤ 16 }
        requires actions { actions ≤ 6 }
    {
        let rows = parts.len() * actions + 2;
        let mut master = Master {
            rows: vec![in alloc; EMPTY; rows]?,
            basic: vec![in alloc; Variable::Worth; rows]?,
            out: [Variable::Worth; WIDE],
            columns: parts.len() + 1,
            plans: 0,
        };
        for (row, variable) in master.basic.iter_mut().enumerate() {
            *variable = Variable::Spare(row as u32);
        }
        master.put(rows - 2, 0, ONE as i64);
        for (state, part) in parts.iter().enumerate() {
            master.put_state(state, actions, *part);
        }
        Ok(master)
    }

    /// Writes the entries of what a state is worth.
    fn put_state(&mut self, state: usize, actions: usize, part: i128)
        requires state { state < 16 }
        requires actions { actions ≤ 6 }
    {
        for action in 0..actions {
            self.put(state * actions + action, state + 1, ONE as i64);
        }
        self.put(self.goal(), state + 1, word(0i128.wrapping_sub(part)));
    }

    /// How many plans there are.
    pub fn plans(&self) -> u32 {
        self.plans
    }

    /// What the plans are worth together, from 0 to 1.
    pub fn value(&self) -> i128 {
        i128::from(self.entry(self.goal(), 0))
    }

    /// Writes the price of each row, from 0 to 1.
    pub fn write_prices(&self, prices: &mut Costs) {
        prices.fill(0);
        for (column, variable) in self.out.iter().enumerate() {
            if let Variable::Spare(row) = *variable {
                let price = i128::from(self.entry(self.goal(), column)).clamp(0, ONE);
                if let Some(place) = prices.get_mut(row as usize) {
                    *place = price;
                }
            }
        }
    }

    /// Writes how much of each plan is played, from 0 to 1.
    pub fn write_played(&self, played: &mut [i128; MOST_PLANS]) {
        played.fill(0);
        for (row, variable) in self.basic.iter().enumerate() {
            if let Variable::Plan(plan) = *variable {
                let part = i128::from(self.entry(row, 0)).clamp(0, ONE);
                if let Some(place) = played.get_mut(plan as usize) {
                    *place = part;
                }
            }
        }
    }

    /// Adds a plan by what it costs in each row, and answers whether it helps and there is room for it.
    pub fn add(&mut self, costs: &Costs) -> bool {
        let first = self.plans == 0;
        let column = self.columns;
        if column >= WIDE || !(first || self.entry_of(self.goal(), costs) < LEAST_PRICE) {
            return false;
        }
        self.put_column(column, costs);
        if let Some(variable) = self.out.get_mut(column) {
            *variable = Variable::Plan(self.plans);
        }
        self.columns = column + 1;
        self.plans = self.plans.saturating_add(1);
        if first {
            self.pivot(self.goal().saturating_sub(1), column);
        }
        true
    }

    /// Makes steps until no price is below 0, or no more may be made; answers whether no price is.
    pub fn run(&mut self) -> bool {
        for _ in 0..STEPS {
            match self.entering() {
                Some(column) => self.step(column),
                None => return true,
            }
        }
        false
    }

    /// The number of the goal's row.
    fn goal(&self) -> usize {
        self.rows.len().saturating_sub(1)
    }

    /// An entry, and 0 where there is none.
    fn entry(&self, row: usize, column: usize) -> i64 {
        match self.rows.get(row) {
            Some(entries) => entry_at(entries, column),
            None => 0,
        }
    }

    /// Writes an entry, where there is its place.
    fn put(&mut self, row: usize, column: usize, entry: i64) {
        if let Some(entries) = self.rows.get_mut(row) {
            if let Some(place) = entries.get_mut(column) {
                *place = entry;
            }
        }
    }

    /// Writes the column of a new plan.
    fn put_column(&mut self, column: usize, costs: &Costs) {
        for row in 0..self.rows.len() {
            let entry = self.entry_of(row, costs);
            self.put(row, column, entry);
        }
    }

    /// The entry of a new plan in a row of the dictionary.
    fn entry_of(&self, row: usize, costs: &Costs) -> i64 {
        let mut sum = match self.basic.get(row) {
            Some(variable) => self.cost(costs, *variable).wrapping_mul(ONE),
            None => 0,
        };
        for (column, variable) in self.out.iter().enumerate() {
            let entry = i128::from(self.entry(row, column));
            sum = sum.wrapping_add(entry.wrapping_mul(self.cost(costs, *variable)));
        }
        word(sum >> BITS)
    }

    /// What a plan has in the row of the program that a variable stands for, and 0 where it stands for none.
    fn cost(&self, costs: &Costs, variable: Variable) -> i128 {
        let Variable::Spare(row) = variable else {
            return 0;
        };
        if row as usize == self.goal().saturating_sub(1) {
            return ONE;
        }
        match costs.get(row as usize) {
            Some(cost) if (row as usize) < self.goal() => 0i128.wrapping_sub(*cost),
            _ => 0,
        }
    }

    /// The first column of least price, where a price is below 0.
    fn entering(&self) -> Option<usize> {
        let mut least = LEAST_PRICE;
        let mut found = None;
        for column in 1..self.columns {
            let price = self.entry(self.goal(), column);
            if price < least {
                least = price;
                found = Some(column);
            }
        }
        found
    }

    /// Makes a step by a column; where no row bounds it, its price becomes 0.
    fn step(&mut self, column: usize) {
        match self.leaving(column) {
            Some(row) => self.pivot(row, column),
            None => self.put(self.goal(), column, 0),
        }
    }

    /// The row that a column uses up first, of equal ones the first of greatest entry.
    fn leaving(&self, column: usize) -> Option<usize> {
        let mut found = None;
        let mut side: i64 = 0;
        let mut most: i64 = 1;
        for row in 0..self.goal() {
            let entry = self.entry(row, column);
            let ours = self.entry(row, 0).max(0);
            let (here, there) = (wide(ours, most), wide(side, entry));
            let sooner = here < there || (here == there && entry > most) || found.is_none();
            if entry > LEAST_PIVOT && sooner {
                found = Some(row);
                side = ours;
                most = entry;
            }
        }
        found
    }

    /// Trades the variables of a row and a column.
    fn pivot(&mut self, row: usize, column: usize) {
        let columns = self.columns.min(WIDE);
        let lead = self.lead(row, column, columns);
        for (other, entries) in self.rows.iter_mut().enumerate() {
            if other == row {
                *entries = lead;
            } else {
                lessen(entries, &lead, column, columns);
            }
        }
        if let (Some(basic), Some(out)) = (self.basic.get_mut(row), self.out.get_mut(column)) {
            std::mem::swap(basic, out);
        }
    }

    /// A row, solved for the variable of a column.
    fn lead(&self, row: usize, column: usize, columns: usize) -> Row
        requires { columns ≤ 177 }
    {
        let mut lead = match self.rows.get(row) {
            Some(entries) => *entries,
            None => EMPTY,
        };
        let inverse = word(inverse_of(i128::from(entry_at(&lead, column))));
        if let Some(place) = lead.get_mut(column) {
            *place = ONE as i64;
        }
        for entry in &mut lead[..columns] {
            *entry = word(wide(*entry, inverse) >> BITS);
        }
        lead
    }
}

/// An entry of a row, and 0 where there is none.
fn entry_at(row: &Row, column: usize) -> i64 {
    match row.get(column) {
        Some(entry) => *entry,
        None => 0,
    }
}

/// Takes a row off another one, as often as it has the column of the step.
fn lessen(row: &mut Row, lead: &Row, column: usize, columns: usize)
    requires { columns ≤ 177 }
{
    let times = entry_at(row, column);
    if times == 0 {
        return;
    }
    if let Some(place) = row.get_mut(column) {
        *place = 0;
    }
    for (entry, other) in row[..columns].iter_mut().zip(lead) {
        *entry = word(i128::from(*entry).wrapping_sub(wide(times, *other) >> BITS));
    }
}

/// A product.
fn wide(first: i64, second: i64) -> i128 {
    i128::from(first).wrapping_mul(i128::from(second))
}
