//! Certificates, and whether one fits a game.

ghost use Rattle.controller.specs.Certificates.{CertificateFits, IsGap, IsShort};
ghost use Rattle.controller.specs.Data.{fraction_data};
ghost use Rattle.std.specs.Bool.{IsTrue};
ghost use Rattle.std.specs.Prelude.{◌↔◌};

use crate::nodes::nodes_fit;
use crate::points::points_fit;
use crate::starts::starts_fit;
use alpha_set::NodeSet;
use game_model::Game;
use point_set::PointSet;
use scaled_num::Fraction;
use std::marker::Model;

/// How a run of the solver ended.
#[derive(Clone, Copy, Debug, PartialEq, Eq)]
pub enum Outcome {
    /// The gap was within the tolerance.
    Closed,
    /// The trials were used up.
    Trials,
    /// A set was full.
    Full,
}

/// A controller as nodes and a splitting strategy as points, with their starts, the bounds that they are to prove,
/// and how the run ended that made them.
#[derive(Drop)]
pub struct Certificate {
    /// What the controller earns at least, less the tail.
    pub lower: Fraction,
    /// What player one earns at most against the splitting strategy, plus the tail.
    pub upper: Fraction,
    /// The tail at the horizon 0: the span in units of reward.
    pub tail: Fraction,
    /// The tolerance on upper less lower: numerator 0 to 2^40, denominator 1 to 2^20.
    pub gap: Fraction,
    /// How the run ended.
    pub outcome: Outcome,
    /// The nodes, by number.
    pub nodes: NodeSet,
    /// The points, by number; those below the number of states are the corners.
    pub points: PointSet,
    /// The nodes among which the controller draws its start, by rising number, each with its weight.
    pub start_nodes: Vec<(u32, i128)>,
    /// The points whose beliefs, by these weights, make up a multiple of the first belief, by rising number.
    pub start_points: Vec<(u32, i128)>,
    /// The multiple of the first belief that the start points make up.
    pub multiple: i128,
}

impl Model for Certificate {
    ghost use Rattle.controller.specs.Certificates.{CertificateData};
    ghost use Rattle.controller.specs.Data.{ending_of, fraction_data};

    ghost Value = { CertificateData };

    ghost view = { λ k. record {
      lower = fraction_data k.lower;
      upper = fraction_data k.upper;
      tail = fraction_data k.tail;
      gap = fraction_data k.gap;
      outcome = ending_of k.outcome;
      nodes = k.nodes.members;
      points = k.points.members;
      start_nodes = k.start_nodes.items;
      start_points = k.start_points.items;
      multiple = k.multiple;
    } };
}

/// The greatest numerator of a gap.
pub const MOST_GAP: i128 = 1 << 40;

/// The greatest denominator of a gap.
pub const MOST_GAP_UNDER: i128 = 1 << 20;

/// The first number of 37 digits.
const SHORT_END: i128 = 1_000_000_000_000_000_000_000_000_000_000_000_000;

impl Certificate {
    /// Whether the certificate fits a game: every node and point fits and names members, there is a node and a point
    /// for each state, the gap is within its limits and no fraction has more than 36 digits. The starts rise, name
    /// members and have coprime weights, those of nodes 1 to 65,536 in all and those of points 1 to 2^36 each; the
    /// multiple is 1 to 65,536, and 1 where there is one start node and one start point. It takes no memory.
    pub fn fits(&self, game: &Game) -> bool
        ensures { IsTrue result ↔ CertificateFits game.now self.now }
    {
        1 <= self.nodes.len()
            && game.states() <= self.points.len()
            && starts_fit(
                self.nodes.len(),
                self.points.len(),
                &self.start_nodes,
                &self.start_points,
                self.multiple,
            )
            && is_gap(&self.gap)
            && is_short(&self.lower)
            && is_short(&self.upper)
            && is_short(&self.tail)
            && nodes_fit(game, &self.nodes)
            && points_fit(game, &self.points)
    }
}

/// Whether a gap is within its limits.
fn is_gap(gap: &Fraction) -> bool
    ensures { IsTrue result ↔ IsGap (fraction_data gap.now) }
{
    0 <= gap.num && gap.num <= MOST_GAP && 1 <= gap.den && gap.den <= MOST_GAP_UNDER
}

/// Whether numerator and denominator have at most 36 digits.
fn is_short(fraction: &Fraction) -> bool
    ensures { IsTrue result ↔ IsShort (fraction_data fraction.now) }
{
    -SHORT_END < fraction.num
        && fraction.num < SHORT_END
        && 1 <= fraction.den
        && fraction.den < SHORT_END
}
