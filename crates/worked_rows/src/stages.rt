//! Worked stage programs and their candidates.

ghost use Rattle.alpha_set.specs.Members.{most_nodes};
ghost use Rattle.alpha_set.specs.Nodes.{NodeFits};
ghost use Rattle.belief.specs.Beliefs.{corner_of};
ghost use Rattle.game_model.specs.Game.{AreCoprime, IsBelief, IsWithin, span};
ghost use Rattle.point_set.specs.Corners.{HasCorner};
ghost use Rattle.point_set.specs.Members.{most_points};
ghost use Rattle.point_set.specs.Points.{PointFits};
ghost use Rattle.scaled_num.specs.Sums.{sum_of};
ghost use Rattle.stage_game.specs.Asked.{AreBits, AreLowerEnds, AreUpperEnds, NodesServe, PointsServe};
ghost use Rattle.stage_game.specs.Fits.{MixesFit};
ghost use Rattle.std.specs.List.{AllByRecursion};
ghost use Rattle.std.specs.Prelude.{IfOk, IfSome, OnOk, pos, ℕ, ◌*ℤ◌, ◌<◌, ◌≡◌};

use crate::advised::SURE_AT_FIRST;
use crate::nodes::node_with;
use crate::points::plain_point;
use crate::told::{game_of, program_told};
use alpha_set::NodeSet;
use backup::seed;
use belief::{Belief, Mixes};
use game_model::{Game, GameBuilder, GameFault, Shape, law_game};
use point_set::PointSet;
use simplex::Program;
use stage_game::{lower_candidates, lower_program, upper_candidates, upper_program};
use std::alloc::{AllocError, Global};
use std::test::Fail;

/// One state, two actions of each player and these rewards by own and informed action.
fn one_state(alloc: Global, rewards: &[i128], discount: (i128, i128)) -> Result<Game, GameFault> {
    let shape = Shape {
        states: 1,
        own_actions: 2,
        informed_actions: 2,
        observations: 1,
        row_total: 1,
        discount,
    };
    let mut builder = GameBuilder::new(alloc, shape, &[1])?;
    for reward in rewards {
        builder.step(*reward)?;
        builder.landing(0, 0, 1)?;
    }
    builder.finish()
}

/// Matching pennies without a future.
fn pennies(alloc: Global) -> Result<Game, GameFault> {
    one_state(alloc, &[1, -1, -1, 1], (0, 1))
}

/// Nothing is ever paid; the discount is a half.
pub fn nothing_paid(alloc: Global) -> Result<Game, GameFault> {
    one_state(alloc, &[0, 0, 0, 0], (1, 2))
}

/// Two states with one action of each player; from both states the next one is either, evenly. The first belief is
/// sure of state 1.
fn either_next(alloc: Global) -> Result<Game, GameFault> {
    let shape = Shape {
        states: 2,
        own_actions: 1,
        informed_actions: 1,
        observations: 1,
        row_total: 2,
        discount: (0, 1),
    };
    let mut builder = GameBuilder::new(alloc, shape, &[0, 1])?;
    for _ in 0..2 {
        builder.step(1)?;
        builder.landing(0, 0, 1)?;
        builder.landing(0, 1, 1)?;
    }
    builder.finish()
}

/// Whether these are the rows of a program.
fn has_rows(program: &Program, rows: &[&[i128]]) -> bool {
    if program.rows.len() != rows.len() {
        return false;
    }
    for i in 0..rows.len() {
        if program.rows[i].as_slice() != rows[i] {
            return false;
        }
    }
    true
}

/// The lower candidates at the first belief of a game.
pub fn lower_of(
    alloc: Global,
    game: &Game,
    nodes: &NodeSet,
    informed: Option<&Mixes>,
) -> Result<Vec<u32>, AllocError>
    requires nodes { NodesServe game.now nodes.now.members }
    requires informed { IfSome informed (λ mixes. MixesFit game.now mixes.now) }
    ensures serve { IfOk result (λ found. AreLowerEnds nodes.now.members found.items) }
{
    law_game(game);
    lower_candidates(alloc, game, &Belief::first_of(game), nodes, informed)
}

/// The upper candidates at the first belief of a game.
pub fn upper_of(
    alloc: Global,
    game: &Game,
    points: &PointSet,
    informed: Option<&Mixes>,
) -> Result<Vec<u32>, AllocError>
    requires points { PointsServe game.now points.now.members }
    requires informed { IfSome informed (λ mixes. MixesFit game.now mixes.now) }
    ensures serve { IfOk result (λ found. AreUpperEnds game.now points.now.members found.items) }
{
    law_game(game);
    upper_candidates(alloc, game, &Belief::first_of(game), points, informed)
}

/// The seeds of a game, which serve its stage programs.
pub fn seeds_of(alloc: Global, game: &Game) -> Result<(NodeSet, PointSet), AllocError>
    ensures nodes { IfOk result (λ sets. NodesServe game.now sets.0.members) }
    ensures points { IfOk result (λ sets. PointsServe game.now sets.1.members) }
{
    law_game(game);
    let (nodes, points) = seed(alloc, game)?;
    let _counts = (nodes.len(), points.len());
    Ok((nodes, points))
}

/// The lower program of a game at its first belief and its seeds.
fn lower_of_seeds(alloc: Global, game: &Game, bits: u32) -> Result<Program, AllocError>
    requires { AreBits bits }
{
    law_game(game);
    let (nodes, _) = seeds_of(alloc, game)?;
    let candidates = lower_of(alloc, game, &nodes, None)?;
    lower_program(
        alloc,
        game,
        &Belief::first_of(game),
        &nodes,
        &candidates,
        bits,
    )
}

/// The upper program of a game at its first belief and its seeds.
fn upper_of_seeds(alloc: Global, game: &Game, bits: u32) -> Result<Program, AllocError>
    requires { AreBits bits }
{
    law_game(game);
    let (_, points) = seeds_of(alloc, game)?;
    let candidates = upper_of(alloc, game, &points, None)?;
    upper_program(
        alloc,
        game,
        &Belief::first_of(game),
        &points,
        &candidates,
        bits,
    )
}

/// Whether a program has these rows, limits and goal.
fn is_program(program: &Program, rows: &[&[i128]], limits: &[i128], goal: &[i128]) -> bool {
    has_rows(program, rows)
        && program.limits.as_slice() == limits
        && program.goal.as_slice() == goal
}

/// Whether a program is the lower one of matching pennies at its seeds, with this number where the coins agree and as
/// the goal's coefficient.
fn is_pennies_program(program: &Program, number: i128) -> bool
    requires { IsWithin (pos 0) (pos 1024) number }
{
    let rows: [&[i128]; 5] = [
        &[1, -number, 0, 0, 0, 0, 0],
        &[1, 0, -number, 0, 0, 0, 0],
        &[0, -1, 0, 1, 1, 0, 0],
        &[0, 0, -1, 0, 0, 1, 1],
        &[0, 1, 1, 0, 0, 0, 0],
    ];
    is_program(
        program,
        &rows,
        &[0, 0, 0, 0, 1],
        &[number, 0, 0, 0, 0, 0, 0],
    )
}

#[test]
fn the_first_candidates_of_matching_pennies_are_its_seeds(rt: HostRuntime) {
    let Ok(game) = pennies(rt.alloc()) else {
        panic!(rt; "the game is refused");
    };
    let Ok((nodes, points)) = seeds_of(rt.alloc(), &game) else {
        panic!(rt; "out of memory");
    };
    let Ok(lower) = lower_of(rt.alloc(), &game, &nodes, None) else {
        panic!(rt; "out of memory");
    };
    assert!(rt; lower.as_slice() == [0, 1].as_slice());
    let Ok(upper) = upper_of(rt.alloc(), &game, &points, None) else {
        panic!(rt; "out of memory");
    };
    assert!(rt; upper.as_slice() == [0].as_slice());
}

#[test]
fn the_lower_program_of_matching_pennies_is_scaled_by_its_bits(rt: HostRuntime) {
    let Ok(game) = pennies(rt.alloc()) else {
        panic!(rt; "the game is refused");
    };
    let Ok(fine) = lower_of_seeds(rt.alloc(), &game, 7) else {
        panic!(rt; "out of memory");
    };
    assert!(rt; is_pennies_program(&fine, 128));
    let Ok(coarse) = lower_of_seeds(rt.alloc(), &game, 5) else {
        panic!(rt; "out of memory");
    };
    assert!(rt; is_pennies_program(&coarse, 32));
}

#[test]
fn the_upper_program_of_matching_pennies_has_a_row_for_its_corner_after_each_action(
    rt: HostRuntime,
) {
    let Ok(game) = pennies(rt.alloc()) else {
        panic!(rt; "the game is refused");
    };
    let Ok(program) = upper_of_seeds(rt.alloc(), &game, 7) else {
        panic!(rt; "out of memory");
    };
    let rows: [&[i128]; 5] = [
        &[1, -128, 0, 0, 0],
        &[1, 0, -128, 0, 0],
        &[0, -128, 0, 128, 0],
        &[0, 0, -128, 0, 128],
        &[0, 1, 1, 0, 0],
    ];
    assert!(rt; is_program(&program, &rows, &[0, 0, 0, 0, 1], &[128, 0, 0, 0, 0]));
}

#[test]
fn the_programs_of_a_game_that_pays_nothing_are_scaled_to_a_width_of_1(rt: HostRuntime) {
    let Ok(game) = nothing_paid(rt.alloc()) else {
        panic!(rt; "the game is refused");
    };
    assert_eq!(rt; game.span(), 0);
    let Ok(lower) = lower_of_seeds(rt.alloc(), &game, 7) else {
        panic!(rt; "out of memory");
    };
    let lower_rows: [&[i128]; 5] = [
        &[1, 0, 0, 0, 0, 0, 0],
        &[1, 0, 0, 0, 0, 0, 0],
        &[0, -1, 0, 1, 1, 0, 0],
        &[0, 0, -1, 0, 0, 1, 1],
        &[0, 1, 1, 0, 0, 0, 0],
    ];
    assert!(rt;
        is_program(
            &lower,
            &lower_rows,
            &[0, 0, 0, 0, 1],
            &[128, 0, 0, 0, 0, 0, 0]
        )
    );
    let Ok(upper) = upper_of_seeds(rt.alloc(), &game, 7) else {
        panic!(rt; "out of memory");
    };
    let upper_rows: [&[i128]; 5] = [
        &[1, 0, 0, -64, -64],
        &[1, 0, 0, -64, -64],
        &[0, 0, 0, 128, 0],
        &[0, 0, 0, 0, 128],
        &[0, 1, 1, 0, 0],
    ];
    assert!(rt; is_program(&upper, &upper_rows, &[0, 0, 0, 0, 1], &[128, 0, 0, 0, 0]));
}

/// `bench/stage/model.py` made the wanted programs.
#[test]
fn programs_at_a_corner_count_its_state_alone(rt: HostRuntime) -> Result<(), Fail> {
    let game = game_of(rt.alloc(), SURE_AT_FIRST).expect(&rt, "a game");
    let lower = program_told(rt.alloc(), &lower_of_seeds(rt.alloc(), &game, 5)?)?;
    let wanted_lower = "row 1 0 -10 -5 -5 -5 0 0 -5 -5 0 0
row 1 0 -5 -10 -5 -5 0 0 -5 -5 0 0
row 0 1 -16 -5 0 0 -5 -5 0 0 -5 -5
row 0 1 -5 -16 0 0 -5 -5 0 0 -5 -5
row 0 0 -1 0 1 1 0 0 0 0 0 0
row 0 0 -1 0 0 0 1 1 0 0 0 0
row 0 0 0 -1 0 0 0 0 1 1 0 0
row 0 0 0 -1 0 0 0 0 0 0 1 1
row 0 0 1 1 0 0 0 0 0 0 0 0
limits 0 0 0 0 0 0 0 0 1
goal 32 0 0 0 0 0 0 0 0 0 0 0
";
    assert_eq!(rt; lower.as_str(), wanted_lower);
    let upper = program_told(rt.alloc(), &upper_of_seeds(rt.alloc(), &game, 5)?)?;
    let wanted_upper = "row 1 0 -11 -6 -8 -8 0 0 -16 0 0 0
row 1 0 -6 -11 -16 0 0 0 0 -16 0 0
row 0 1 -16 -6 0 0 0 -16 0 0 0 -16
row 0 1 -6 -16 0 0 0 -16 0 0 -8 -8
row 0 0 -25 0 32 0 0 0 0 0 0 0
row 0 0 -30 0 0 32 0 0 0 0 0 0
row 0 0 -25 0 0 0 32 0 0 0 0 0
row 0 0 -30 0 0 0 0 32 0 0 0 0
row 0 0 0 -25 0 0 0 0 32 0 0 0
row 0 0 0 -30 0 0 0 0 0 32 0 0
row 0 0 0 -25 0 0 0 0 0 0 32 0
row 0 0 0 -30 0 0 0 0 0 0 0 32
row 0 0 1 1 0 0 0 0 0 0 0 0
limits 0 0 0 0 0 0 0 0 0 0 0 0 1
goal 32 0 0 0 0 0 0 0 0 0 0 0
";
    assert_eq!(rt; upper.as_str(), wanted_upper);
    Ok(())
}

/// The mixes of the only informed action of two states.
fn only_mixes(alloc: Global, game: &Game) -> Result<Mixes, AllocError>
    requires states { game.now.shape.states ≡ 2 }
    requires informed { game.now.shape.informed_actions ≡ 1 }
    ensures { IfOk result (λ mixes. MixesFit game.now mixes) }
{
    Mixes::pure(alloc, game, &[0, 0])
}

/// Adds a node with these entries.
fn push_node(
    alloc: Global,
    game: &Game,
    first: i128,
    second: i128,
    set: &mut NodeSet,
) -> Result<(), AllocError>
    requires states { game.now.shape.states ≡ 2 }
    requires own { game.now.shape.own_actions ≡ 1 }
    requires seen { game.now.shape.observations ≡ 1 }
    requires span { span game.now ≡ 65536 }
    requires first { IsWithin (pos 0) (pos 65536) first }
    requires second { IsWithin (pos 0) (pos 65536) second }
    requires fit { AllByRecursion (NodeFits game.now most_nodes) set.old.members }
    ensures { OnOk result (NodesServe game.now set.new.members) }
{
    let node = node_with(alloc, game, vec![in alloc; first, second]?)?;
    let Ok(_) = set.push(node) else {
        return Err(AllocError);
    };
    Ok(())
}

/// Twenty nodes: one that is worth 10 in each state, one that is worth 15 in state 1, and 18 that are worth nothing.
fn twenty_nodes(alloc: Global, game: &Game) -> Result<NodeSet, AllocError>
    requires states { game.now.shape.states ≡ 2 }
    requires own { game.now.shape.own_actions ≡ 1 }
    requires seen { game.now.shape.observations ≡ 1 }
    requires span { span game.now ≡ 65536 }
    ensures { IfOk result (λ set. NodesServe game.now set.members) }
{
    let mut set = NodeSet::new(alloc, game);
    push_node(alloc, game, 10, 10, &mut set)?;
    push_node(alloc, game, 0, 15, &mut set)?;
    for _ in 0..18 {
        push_node(alloc, game, 0, 0, &mut set)?;
    }
    Ok(set)
}

#[test]
fn priced_lower_candidates_have_the_node_of_the_next_mass(rt: HostRuntime) {
    let Ok(game) = either_next(rt.alloc()) else {
        panic!(rt; "the game is refused");
    };
    assert_eq!(rt; game.states(), 2);
    assert_eq!(rt; game.own_actions(), 1);
    assert_eq!(rt; game.informed_actions(), 1);
    assert_eq!(rt; game.observations(), 1);
    assert_eq!(rt; game.span(), 65_536);
    let Ok(nodes) = twenty_nodes(rt.alloc(), &game) else {
        panic!(rt; "out of memory");
    };
    let Ok(mixes) = only_mixes(rt.alloc(), &game) else {
        panic!(rt; "out of memory");
    };
    let Ok(first) = lower_of(rt.alloc(), &game, &nodes, None) else {
        panic!(rt; "out of memory");
    };
    let last = [1, 5, 6, 7, 8, 9, 10, 11, 12, 13, 14, 15, 16, 17, 18, 19];
    assert!(rt; first.as_slice() == last.as_slice());
    let Ok(priced) = lower_of(rt.alloc(), &game, &nodes, Some(&mixes)) else {
        panic!(rt; "out of memory");
    };
    let with_next = [0, 1, 6, 7, 8, 9, 10, 11, 12, 13, 14, 15, 16, 17, 18, 19];
    assert!(rt; priced.as_slice() == with_next.as_slice());
}

/// The lower candidates where it is sure that the state is 0, of two.
fn lower_at_corner(
    alloc: Global,
    game: &Game,
    nodes: &NodeSet,
    informed: Option<&Mixes>,
) -> Result<Vec<u32>, AllocError>
    requires states { game.now.shape.states ≡ 2 }
    requires nodes { NodesServe game.now nodes.now.members }
    requires informed { IfSome informed (λ mixes. MixesFit game.now mixes.now) }
{
    law_game(game);
    lower_candidates(alloc, game, &Belief::corner(2, 0), nodes, informed)
}

#[test]
fn lower_candidates_at_a_corner_have_the_node_that_is_worth_the_most_there(rt: HostRuntime) {
    let Ok(game) = either_next(rt.alloc()) else {
        panic!(rt; "the game is refused");
    };
    assert_eq!(rt; game.states(), 2);
    assert_eq!(rt; game.own_actions(), 1);
    assert_eq!(rt; game.informed_actions(), 1);
    assert_eq!(rt; game.observations(), 1);
    assert_eq!(rt; game.span(), 65_536);
    let Ok(nodes) = twenty_nodes(rt.alloc(), &game) else {
        panic!(rt; "out of memory");
    };
    let Ok(mixes) = only_mixes(rt.alloc(), &game) else {
        panic!(rt; "out of memory");
    };
    let wanted = [0, 5, 6, 7, 8, 9, 10, 11, 12, 13, 14, 15, 16, 17, 18, 19];
    let Ok(first) = lower_at_corner(rt.alloc(), &game, &nodes, None) else {
        panic!(rt; "out of memory");
    };
    assert!(rt; first.as_slice() == wanted.as_slice());
    let Ok(priced) = lower_at_corner(rt.alloc(), &game, &nodes, Some(&mixes)) else {
        panic!(rt; "out of memory");
    };
    assert!(rt; priced.as_slice() == wanted.as_slice());
}

/// Adds a point at a belief.
fn push_point(
    alloc: Global,
    game: &Game,
    belief: Belief,
    value: i128,
    set: &mut PointSet,
) -> Result<(), AllocError>
    requires states { game.now.shape.states ≡ 2 }
    requires informed { game.now.shape.informed_actions ≡ 1 }
    requires span { span game.now ≡ 65536 }
    requires belief { IsBelief 2 belief }
    requires coprime { AreCoprime belief }
    requires value { IsWithin (pos 0) (pos 65536 *ℤ sum_of belief) value }
    requires fit { AllByRecursion (PointFits game.now most_points) set.old.members }
    ensures fit { OnOk result (AllByRecursion (PointFits game.now most_points) set.new.members) }
    ensures keeps { OnOk result ((s : ℕ) → HasCorner set.old.members s → HasCorner set.new.members s) }
    ensures adds { OnOk result ((s : ℕ) → s < 2 → belief ≡ corner_of 2 s → HasCorner set.new.members s) }
{
    let point = plain_point(alloc, game, belief, value)?;
    let Ok(_) = set.push(point) else {
        return Err(AllocError);
    };
    Ok(())
}

/// Twelve points: the corners, and ten at the even belief, of which the first has the least value.
fn twelve_points(alloc: Global, game: &Game, even: &Belief) -> Result<PointSet, AllocError>
    requires states { game.now.shape.states ≡ 2 }
    requires informed { game.now.shape.informed_actions ≡ 1 }
    requires span { span game.now ≡ 65536 }
    requires even { IsBelief 2 even.now }
    requires coprime { AreCoprime even.now }
    requires total { sum_of even.now ≡ pos 2 }
    ensures { IfOk result (λ set. PointsServe game.now set.members) }
{
    let mut set = PointSet::new(alloc, game);
    push_point(alloc, game, Belief::corner(2, 0), 65_536, &mut set)?;
    push_point(alloc, game, Belief::corner(2, 1), 65_536, &mut set)?;
    push_point(alloc, game, even.copied(), 70_000, &mut set)?;
    for _ in 0..9 {
        push_point(alloc, game, even.copied(), 80_000, &mut set)?;
    }
    Ok(set)
}

#[test]
fn priced_upper_candidates_have_the_best_point_of_the_next_mass(rt: HostRuntime) {
    let Ok(game) = either_next(rt.alloc()) else {
        panic!(rt; "the game is refused");
    };
    assert_eq!(rt; game.states(), 2);
    assert_eq!(rt; game.informed_actions(), 1);
    assert_eq!(rt; game.span(), 65_536);
    let Some(even) = Belief::of(&[1, 1]) else {
        panic!(rt; "no belief");
    };
    let Ok(points) = twelve_points(rt.alloc(), &game, &even) else {
        panic!(rt; "out of memory");
    };
    let Ok(mixes) = only_mixes(rt.alloc(), &game) else {
        panic!(rt; "out of memory");
    };
    let Ok(first) = upper_of(rt.alloc(), &game, &points, None) else {
        panic!(rt; "out of memory");
    };
    let last = [0, 1, 4, 5, 6, 7, 8, 9, 10, 11];
    assert!(rt; first.as_slice() == last.as_slice());
    let Ok(priced) = upper_of(rt.alloc(), &game, &points, Some(&mixes)) else {
        panic!(rt; "out of memory");
    };
    let with_best = [0, 1, 2, 5, 6, 7, 8, 9, 10, 11];
    assert!(rt; priced.as_slice() == with_best.as_slice());
}
