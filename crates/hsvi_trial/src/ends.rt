//! Whether a run has a further visit, and how it ended.

ghost use Rattle.controller.specs.Certificates.{IsGap};
ghost use Rattle.controller.specs.Data.{ending_of, fraction_data};
ghost use Rattle.hsvi_trial.specs.Ends.{IsEnd, IsOnward};
ghost use Rattle.hsvi_trial.specs.Founds.{HasStart};
ghost use Rattle.hsvi_trial.specs.Run.{IsOutcome, Task};
ghost use Rattle.hsvi_trial.specs.Sets.{Sets};
ghost use Rattle.hsvi_trial.specs.Starts.{AreClosed, AreOpen};
ghost use Rattle.std.specs.Bool.{IsFalse, IsTrue};
ghost use Rattle.std.specs.Prelude.{IfSome, IsNone, ◌≤◌};

use crate::starts::are_closed;
use alpha_set::NodeSet;
use controller::Outcome;
use game_model::Game;
use point_set::PointSet;
use scaled_num::Fraction;

/// How a run has ended; None where it has a further visit. The run is at the beginning of the trial of this number, or
/// in the midst of one, and its last visit was cut or not. It takes no memory.
pub fn end_of(
    game: &Game,
    trials: u32,
    gap: &Fraction,
    nodes: &NodeSet,
    points: &PointSet,
    cut: bool,
    begins: bool,
    trial: u32,
) -> Option<Outcome>
    requires start { HasStart game.now (record { nodes = nodes.now.members; points = points.now.members }) }
    requires gap { IsGap (fraction_data gap.now) }
    requires trial { trial ≤ trials }
    ensures ended { IfSome result (λ outcome.
        IsEnd (record { game = game.now; trials = trials; gap = fraction_data gap.now })
        (record { nodes = nodes.now.members; points = points.now.members })
        cut begins trial (ending_of outcome)) }
    ensures onward { IsNone result →
        IsOnward (record { game = game.now; trials = trials; gap = fraction_data gap.now })
        (record { nodes = nodes.now.members; points = points.now.members })
        cut begins trial }
{
    if cut {
        return Some(outcome(are_closed(game, nodes, points, gap), cut));
    }
    if !begins {
        return None;
    }
    if are_closed(game, nodes, points, gap) {
        return Some(Outcome::Closed);
    }
    if trial == trials {
        return Some(Outcome::Trials);
    }
    None
}

/// The outcome of a run whose bounds are closed or not, and whose last visit was cut or not.
pub fn outcome(closed: bool, cut: bool) -> Outcome
    ensures { (task : Task) (sets : Sets) →
        (IsTrue closed → AreClosed task.game task.gap sets) → (IsFalse closed → AreOpen task.game task.gap sets) →
        IsOutcome task sets cut (ending_of result) }
{
    if closed {
        Outcome::Closed
    } else if cut {
        Outcome::Full
    } else {
        Outcome::Trials
    }
}
