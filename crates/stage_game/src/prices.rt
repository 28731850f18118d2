//! Weights of groups of prices, read from the last dictionary of a solver.

ghost use Rattle.scaled_num.specs.Sums.{sum_of};
ghost use Rattle.stage_game.specs.Reading.{AreCountedPrices, ArePriceWeights, CanBeRead, IsCountedPrice, IsLeastShift, last_of, shifted, weight_end};
ghost use Rattle.std.specs.List.{All};
ghost use Rattle.std.specs.Prelude.{ℕ, length, map, pos, ◌+◌, ◌/◌, ◌≡◌, ◌<◌, ◌≤◌, ◌^◌, ◌≤ℤ◌, slice_index};

use simplex::Solver;

/// Where the weights end that are read.
const PRICE_END: u64 = 1 << 30;

/// The price of a row, where a negative one counts 0.
fn counted_price(solver: &Solver, row: u32) -> u64
    requires last { CanBeRead solver.now }
    requires row { row < length (last_of solver.now).basic }
    ensures price { IsCountedPrice (last_of solver.now) row result }
    ensures small { result < 2 ^ 62 }
{
    let price = solver.price(row);
    if price < 0 { 0 } else { price as u64 }
}

/// Writes the counted prices of the rows from `first` on.
fn read_prices(solver: &Solver, first: u32, prices: &mut [u64])
    requires last { CanBeRead solver.now }
    requires rows { first + length prices.old ≤ length (last_of solver.now).basic }
    requires few { length (last_of solver.now).basic < 2 ^ 32 }
    ensures prices { AreCountedPrices (last_of solver.now) first (length prices.old) prices.new }
    ensures small { (i : ℕ) → i < length prices.new → slice_index prices.new i < 2 ^ 62 }
{
    for place in 0..prices.len() {
        prices[place] = counted_price(solver, first + place as u32);
    }
}

/// The least number of bits that brings a price below the end of weights.
fn shift_of(price: u64) -> u32
    requires { price < 2 ^ 62 }
    ensures few { result ≤ 32 }
    ensures fits { price / 2 ^ result < weight_end }
    ensures least { (fewer : ℕ) → price / 2 ^ fewer < weight_end → result ≤ fewer }
{
    for bits in 0..32 {
        if price >> bits < PRICE_END {
            return bits;
        }
    }
    32
}

/// The least number of bits that brings all prices below the end of weights.
fn least_shift(prices: &[u64]) -> u32
    requires { (i : ℕ) → i < length prices.now → slice_index prices.now i < 2 ^ 62 }
    ensures few { result ≤ 32 }
    ensures least { IsLeastShift prices.now result }
{
    let mut bits = 0;
    for place in 0..prices.len() {
        let own = shift_of(prices[place]);
        if bits < own {
            bits = own;
        }
    }
    bits
}

/// Writes the prices without their last bits.
fn shift(prices: &[u64], bits: u32, weights: &mut [i128])
    requires bits { bits ≤ 32 }
    requires lengths { length weights.old ≡ length prices.now }
    ensures { weights.new ≡ map pos (shifted bits prices.now) }
{
    for place in 0..prices.len() {
        weights[place] = i128::from(prices[place] >> bits);
    }
}

/// Writes the weights of the prices of the rows from `first` on. The other slice is overwritten too.
pub fn read_price_weights(solver: &Solver, first: u32, prices: &mut [u64], weights: &mut [i128])
    requires last { CanBeRead solver.now }
    requires rows { first + length weights.old ≤ length (last_of solver.now).basic }
    requires few { length (last_of solver.now).basic < 2 ^ 32 }
    requires lengths { length prices.old ≡ length weights.old }
    ensures long { length weights.new ≡ length weights.old }
    ensures prices { length prices.new ≡ length prices.old }
    ensures weights { ArePriceWeights (last_of solver.now) first (length weights.old) weights.new }
    ensures positive { All (λ weight. pos 0 ≤ℤ weight) weights.new }
    ensures small { sum_of weights.new ≤ℤ pos (2 ^ 100) }
{
    read_prices(solver, first, prices);
    let bits = least_shift(prices);
    shift(prices, bits, weights);
}
