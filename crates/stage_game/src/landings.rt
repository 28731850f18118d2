//! What the landings of a row with one observation bring.

ghost use Rattle.belief.specs.Masses.{AreLandings, IsSeen, landed};
ghost use Rattle.game_model.specs.Game.{IsRising};
ghost use Rattle.scaled_num.specs.Share.{at};
ghost use Rattle.scaled_num.specs.Sums.{total};
ghost use Rattle.std.specs.List.{AllByRecursion};
ghost use Rattle.std.specs.Prelude.{filter, length, pos, unsigned_abs, ◌*ℤ◌, ◌+ℤ◌, ◌^◌, ◌≡◌, ◌≤◌};

use game_model::Landing;

/// The landings with an observation.
pub fn seen_so(row: &[Landing], o: u32) -> &[Landing]
    requires { IsRising row.now }
    ensures { result.now ≡ filter (IsSeen o) row.now }
{
    let start = row.partition_point(|landing| landing.seen < o);
    let rest = &row[start..];
    let count = rest.partition_point(|landing| landing.seen <= o);
    &rest[..count]
}

/// The sum over landings of the weight times the entry of the next state, raised by a number.
pub fn raised_sum(landings: &[Landing], vector: &[i128], raise: i128) -> i128
    requires landings { AreLandings (length vector.now) landings.now }
    requires entries { AllByRecursion (λ x. unsigned_abs x ≤ 2 ^ 69) vector.now }
    requires raise { unsigned_abs raise ≤ 2 ^ 69 }
    ensures { result ≡ total (λ l. l.weight *ℤ (at vector.now l.to +ℤ raise)) landings.now }
{
    let mut sum: i128 = 0;
    for landing in landings {
        sum += landing.weight * (vector[landing.to as usize] + raise);
    }
    sum
}

/// The weight of the landings in a next state.
pub fn weight_to(landings: &[Landing], t: u32) -> i128
    requires { AreLandings 16 landings.now }
    ensures { result ≡ pos (landed landings.now t) }
{
    let mut sum = 0;
    for landing in landings {
        if landing.to == t {
            sum += landing.weight;
        }
    }
    sum
}
