//! What the controller and the splitting strategy of a certificate promise, against every plan of the other player.
#![tactic(auto)]

ghost use Rattle.controller.specs.Certificates.{CertificateStands};
ghost use Rattle.history_model.specs.Halves.{HoldIsPlan, LowerHalf, LowerHalfAt, LowerHolds, MassesDivide, NodesArePlans, NodesEarn, OwnIsPlan};
ghost use Rattle.history_model.specs.Halves.{PointsArePlans, PointsHold, UpperHalf, UpperHolds};
ghost use Rattle.history_model.specs.MachinePlans.{ActionsPlay, BroughtDivides, MultiplesAgree, NodePlans, NodesPlay, PointPlans, PointsPlay};
ghost use Rattle.history_model.specs.Playing.{CoursesWeigh, PlansPay, PlansWeigh};
ghost use Rattle.history_model.specs.Starts.{StartNodesWeigh, StartPointsMakeUp, StartsEarn, StartsEarnAt, StartsHold};
ghost use Rattle.history_model.specs.Trees.{InformedStrategiesArePlans, InformedStrategiesPlay, OwnStrategiesArePlans, OwnStrategiesPlay, StrategiesPay};

use controller::Certificate;
use game_model::{Game, law_game};

/// A law: the plans of all nodes of every certificate that stands are right plans, and earn the node's entry less the
/// tail in each first state; the draw among the start nodes earns the lower bound less the tail.
pub fn law_controllers()
    ensures { LowerHolds }
{}

/// A law: the plans of all points of every certificate that stands are right plans in each first state, and hold every
/// plan of player one to the point's value plus the tail; the draw among the start points holds it to the upper bound
/// plus the tail. Each positive mass divides the common multiple.
pub fn law_splittings()
    ensures { UpperHolds }
{}

/// A law: the lower half for a certificate that stands. The plan of every node, each weight times any number, is a
/// right plan of that number times the total of a mix, and over every number of stages, in each first state, against
/// every plan of the informed player and any total, it earns at least the node's entry less the tail. The controller,
/// which draws among the plans of the start nodes, earns at least the lower bound less the tail against every family
/// of plans, and in each first state alone the weighted entries of the start nodes less the tail.
pub fn law_lower(game: &Game, certificate: &Certificate)
    requires { CertificateStands game.now certificate.now }
    ensures plans { NodesArePlans game.now certificate.now }
    ensures nodes { NodesEarn game.now certificate.now }
    ensures plan { OwnIsPlan game.now certificate.now }
    ensures family { LowerHalf game.now certificate.now }
    ensures state { LowerHalfAt game.now certificate.now }
{
    law_game(game);
    law_controllers();
}

/// A law: the upper half for a certificate that stands. The plan of every point, each weight times any number, is a
/// right plan in each first state, and over every number of stages, summed over the first states by the point's
/// belief, it holds every plan of player one, of any total, to at most the point's value plus the tail. The splitting
/// strategy, which draws among the plans of the start points by what each brings to the first state, holds it to at
/// most the upper bound plus the tail. Each positive mass divides the common multiple.
pub fn law_upper(game: &Game, certificate: &Certificate)
    requires { CertificateStands game.now certificate.now }
    ensures divide { MassesDivide game.now certificate.now }
    ensures plans { PointsArePlans game.now certificate.now }
    ensures points { PointsHold game.now certificate.now }
    ensures plan { HoldIsPlan game.now certificate.now }
    ensures half { UpperHalf game.now certificate.now }
{
    law_game(game);
    law_splittings();
}

/// A law: two plans that play as weights say pay what the weights earn, a plain sum over all lists of n stages. The
/// weights of these lists sum to those of all plays, and for right plans to the scale, so what is earned is a mean.
pub fn law_courses()
    ensures pay { PlansPay }
    ensures weights { PlansWeigh }
    ensures mean { CoursesWeigh }
{}

/// A law: a strategy of either player that depends on the history has a plan, which is a right plan of the strategy's
/// total, plays as the strategy says, and pays what the strategy earns.
pub fn law_strategies()
    ensures own_plans { OwnStrategiesArePlans }
    ensures informed_plans { InformedStrategiesArePlans }
    ensures own_plays { OwnStrategiesPlay }
    ensures informed_plays { InformedStrategiesPlay }
    ensures pay { StrategiesPay }
{}

/// A law: of every certificate that stands the plan of each node, and of each point in each first state, plays as a
/// machine whose coin is the node, or the point, that comes next, and is a right plan. The plan that always plays one
/// action plays as a machine too. The multiple by which the points' machine draws is the common multiple of the plans,
/// and each positive number that a point brings divides it.
pub fn law_machines()
    ensures nodes { NodesPlay }
    ensures node_plans { NodePlans }
    ensures points { PointsPlay }
    ensures point_plans { PointPlans }
    ensures actions { ActionsPlay }
    ensures multiple { MultiplesAgree }
    ensures divide { BroughtDivides }
{}

/// A law: both halves at the starts of every certificate that stands, by the own plans of its start nodes and start
/// points, as sums of weight times pay. The weights of the start nodes sum to at least 1, and those of the start points
/// times their beliefs make up the multiple of the first belief.
pub fn law_starts()
    ensures lower { StartsEarn }
    ensures lower_at { StartsEarnAt }
    ensures upper { StartsHold }
    ensures some_node { StartNodesWeigh }
    ensures make_up_first { StartPointsMakeUp }
{}
