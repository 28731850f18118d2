//! Weights of variables, read from the last dictionary of a solver.

ghost use Rattle.scaled_num.specs.Sums.{sum_of};
ghost use Rattle.stage_game.specs.Reading.{ArePrimalWeights, CanBeRead, IsPrimalWeight, last_of};
ghost use Rattle.std.specs.List.{All};
ghost use Rattle.std.specs.Prelude.{length, pos, ◌+◌, ◌<◌, ◌≡◌, ◌≤◌, ◌^◌, ◌≤ℤ◌};

use scaled_num::floor_div;
use simplex::Solver;

/// Where the weights end that are read.
pub const WEIGHT_END: i128 = 1 << 30;

/// The weight of a variable: its value times 2^30, rounded down.
fn primal_weight(solver: &Solver, variable: u32) -> i128
    requires last { CanBeRead solver.now }
    requires variable { variable < length (last_of solver.now).out }
    ensures weight { IsPrimalWeight (last_of solver.now) variable result }
    ensures positive { pos 0 ≤ℤ result }
    ensures small { result ≤ℤ pos (2 ^ 92) }
{
    let (num, den) = solver.primal(variable);
    floor_div(num * WEIGHT_END, den)
}

/// Writes the weights of the variables from `first` on.
pub fn read_primal_weights(solver: &Solver, first: u32, weights: &mut [i128])
    requires last { CanBeRead solver.now }
    requires variables { first + length weights.old ≤ length (last_of solver.now).out }
    requires few { length (last_of solver.now).out < 2 ^ 32 }
    requires short { length weights.old ≤ 16 }
    ensures long { length weights.new ≡ length weights.old }
    ensures weights { ArePrimalWeights (last_of solver.now) first (length weights.old) weights.new }
    ensures positive { All (λ weight. pos 0 ≤ℤ weight) weights.new }
    ensures small { sum_of weights.new ≤ℤ pos (2 ^ 100) }
{
    for place in 0..weights.len() {
        weights[place] = primal_weight(solver, first + place as u32);
    }
}
