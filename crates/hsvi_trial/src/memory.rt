//! What the last visit of each depth made, to be used again while the sets stay as they are.

ghost use Rattle.alpha_set.specs.Members.{node_data};
ghost use Rattle.hsvi_trial.specs.Remembered.{AreLowerSides, AreUpperSides, IsLowerMade, IsUpperMade};
ghost use Rattle.point_set.specs.Members.{point_data};
ghost use Rattle.stage_game.specs.Data.{lower_data, upper_data};
ghost use Rattle.std.specs.Bool.{IsTrue};
ghost use Rattle.std.specs.List.{All};
ghost use Rattle.std.specs.Prelude.{IfOk, IfSome, None, ◌≡◌};

use alpha_set::{Node, NodeSet};
use belief::Belief;
use game_model::Game;
use point_set::{Point, PointSet};
use stage_game::{LowerAdvice, UpperAdvice};
use std::alloc::{AllocError, Global};

/// The depths of visits: 0 to 64.
const DEPTHS: usize = 65;

/// The lower side of a visit: the advice and its node, with the belief and the number of nodes that they were made at.
#[derive(Drop)]
pub struct LowerSide {
    pub belief: Belief,
    pub count: u32,
    pub advice: LowerAdvice,
    pub node: Node,
}

/// The upper side of a visit: the advice and its point, with the belief and the number of points that they were made
/// at.
#[derive(Drop)]
pub struct UpperSide {
    pub belief: Belief,
    pub count: u32,
    pub advice: UpperAdvice,
    pub point: Point,
}

/// By depth, each side of the last visit there whose member was not kept.
#[derive(Drop)]
pub struct Memory {
    pub lower: Vec<Option<LowerSide>>,
    pub upper: Vec<Option<UpperSide>>,
}

impl Memory {
    /// A memory of no visit, with room for a visit at each depth.
    ///
    /// # Errors
    ///
    /// Where no memory is to be had.
    pub fn new(alloc: Global) -> Result<Memory, AllocError>
        ensures lower { IfOk result (λ memory. All (λ side. side ≡ None) memory.lower.items) }
        ensures upper { IfOk result (λ memory. All (λ side. side ≡ None) memory.upper.items) }
    {
        Ok(Memory {
            lower: blank(alloc)?,
            upper: blank(alloc)?,
        })
    }
}

/// Nothing for each depth.
fn blank<T: Drop>(alloc: Global) -> Result<Vec<Option<T>>, AllocError>
    ensures { IfOk result (λ sides. All (λ side. side ≡ None) sides.items) }
{
    let mut sides = Vec::with_capacity(alloc, DEPTHS)?;
    for _depth in 0..DEPTHS {
        sides.push(None)?;
    }
    Ok(sides)
}

/// The lower side of a visit, where one is remembered that was made at this belief and number of nodes. It is then no
/// longer remembered.
pub fn recall_lower(
    sides: &mut Vec<Option<LowerSide>>,
    _game: &Game,
    belief: &Belief,
    nodes: &NodeSet,
) -> Option<LowerSide>
    requires sides { AreLowerSides _game.now nodes.now.members sides.old.items }
    ensures sides { AreLowerSides _game.now nodes.now.members sides.new.items }
    ensures made { IfSome result (λ side.
        IsLowerMade _game.now nodes.now.members belief.now (lower_data side.advice) (node_data side.node)) }
{
    for i in 0..sides.len() {
        if is_lower_at(&sides[i], belief, nodes.len()) {
            return sides[i].take();
        }
    }
    None
}

/// Whether a lower side is remembered that was made at this belief and this number of nodes.
fn is_lower_at(side: &Option<LowerSide>, belief: &Belief, count: u32) -> bool
    ensures { IsTrue result → IfSome side.now (λ side. (side.count ≡ count) × (side.belief ≡ belief.now)) }
{
    match side {
        Some(side) => side.count == count && side.belief.same(belief),
        None => false,
    }
}

/// Remembers the lower side of a visit at a depth, where its node was left.
pub fn remember_lower(
    sides: &mut Vec<Option<LowerSide>>,
    _game: &Game,
    belief: &Belief,
    depth: u32,
    nodes: &NodeSet,
    advice: LowerAdvice,
    left: Option<Node>,
)
    requires sides { AreLowerSides _game.now nodes.now.members sides.old.items }
    requires left { IfSome left (λ node.
        IsLowerMade _game.now nodes.now.members belief.now (lower_data advice) (node_data node)) }
    ensures { AreLowerSides _game.now nodes.now.members sides.new.items }
{
    let Some(node) = left else {
        return;
    };
    let i = depth as usize;
    if i < sides.len() {
        sides[i] = Some(LowerSide {
            belief: belief.copied(),
            count: nodes.len(),
            advice,
            node,
        });
    }
}

/// The upper side of a visit, where one is remembered that was made at this belief and number of points. It is then no
/// longer remembered.
pub fn recall_upper(
    sides: &mut Vec<Option<UpperSide>>,
    _game: &Game,
    belief: &Belief,
    points: &PointSet,
) -> Option<UpperSide>
    requires sides { AreUpperSides _game.now points.now.members sides.old.items }
    ensures sides { AreUpperSides _game.now points.now.members sides.new.items }
    ensures made { IfSome result (λ side.
        IsUpperMade _game.now points.now.members belief.now (upper_data side.advice) (point_data side.point)) }
{
    for i in 0..sides.len() {
        if is_upper_at(&sides[i], belief, points.len()) {
            return sides[i].take();
        }
    }
    None
}

/// Whether a upper side is remembered that was made at this belief and this number of points.
fn is_upper_at(side: &Option<UpperSide>, belief: &Belief, count: u32) -> bool
    ensures { IsTrue result → IfSome side.now (λ side. (side.count ≡ count) × (side.belief ≡ belief.now)) }
{
    match side {
        Some(side) => side.count == count && side.belief.same(belief),
        None => false,
    }
}

/// Remembers the upper side of a visit at a depth, where its point was left.
pub fn remember_upper(
    sides: &mut Vec<Option<UpperSide>>,
    _game: &Game,
    belief: &Belief,
    depth: u32,
    points: &PointSet,
    advice: UpperAdvice,
    left: Option<Point>,
)
    requires sides { AreUpperSides _game.now points.now.members sides.old.items }
    requires left { IfSome left (λ point.
        IsUpperMade _game.now points.now.members belief.now (upper_data advice) (point_data point)) }
    ensures { AreUpperSides _game.now points.now.members sides.new.items }
{
    let Some(point) = left else {
        return;
    };
    let i = depth as usize;
    if i < sides.len() {
        sides[i] = Some(UpperSide {
            belief: belief.copied(),
            count: points.len(),
            advice,
            point,
        });
    }
}
