//! The first place at which a point does not stand.

ghost use Rattle.game_model.specs.Game.{numbers};
ghost use Rattle.point_set.specs.Faults.{point_places};
ghost use Rattle.point_set.specs.Members.{FailsFirstAmong, IsMember, StandsAmong};
ghost use Rattle.std.specs.Prelude.{IfSome, IsNone, ◌↔◌};

use crate::points::Point;
use crate::splits::first_split;
use crate::values::first_value;
use game_model::Game;

/// The first place at which a point does not stand.
#[derive(Clone, Copy, Debug, PartialEq, Eq)]
pub enum PointFault {
    /// The shares do not make up the mass.
    Split {
        /// The own action.
        a: u32,
        /// The observation.
        o: u32,
        /// The next state.
        s: u32,
    },
    /// One stage is worth more than the value.
    Value {
        /// The own action.
        a: u32,
    },
}

/// The first place at which a point among others does not stand.
pub fn first_fault(game: &Game, points: &[Point], point: &Point) -> Option<PointFault>
    requires { IsMember game.now points.now point.now }
    ensures none { IsNone result ↔ StandsAmong game.now points.now point.now }
    ensures first { IfSome result (FailsFirstAmong game.now points.now point.now (point_places (numbers game.now))) }
{
    if let Some((a, o, s)) = first_split(game, points, point) {
        return Some(PointFault::Split { a, o, s });
    }
    let a = first_value(game, points, point)?;
    Some(PointFault::Value { a })
}
