ghost use Rattle.alpha_set.specs.Members.{most_nodes};
ghost use Rattle.alpha_set.specs.Nodes.{NodeFits};
ghost use Rattle.game_model.specs.Game.{IsMass};
ghost use Rattle.point_set.specs.Corners.{HasCorner};
ghost use Rattle.point_set.specs.Members.{most_points};
ghost use Rattle.point_set.specs.Points.{PointFits};
ghost use Rattle.point_set.specs.Split.{IsWanted};
ghost use Rattle.sets_bench.specs.Full.{AreFull};
ghost use Rattle.std.specs.List.{AllByRecursion};
ghost use Rattle.std.specs.Prelude.{length, ℕ, ◌<◌, ◌≡◌};

use alpha_set::{MOST_NODES, NodeSet};
use controller::Certificate;
use game_model::{Game, MOST_STATES, law_game};
use point_set::{MOST_POINTS, PointSet, Split};
use std::io;
use std::time::Instant;

/// How often a round is repeated; the fastest counts.
const REPETITIONS: u32 = 40;

/// A call that is measured.
#[derive(Clone, Copy)]
pub enum Call {
    /// What the nodes are worth at a mass.
    Worth,
    /// The sawtooth bound of a mass.
    Sawtooth,
    /// The split of a mass.
    SplitInto,
    /// Whether the certificate of the sets fits.
    Fits,
}

/// A call, and how many states have some of each mass that it is given.
#[derive(Clone, Copy)]
pub struct Round {
    pub call: Call,
    pub held: u32,
}

/// Repeats a round over masses, and prints what the fastest one took.
pub fn measure(
    rt: HostRuntime,
    round: Round,
    game: &Game,
    certificate: &Certificate,
    wanted: &[(u32, i128)],
    masses: &[[i128; MOST_STATES]],
) -> io::Result<()>
    requires full { AreFull game.now certificate.now.nodes certificate.now.points }
    requires wanted { IsWanted certificate.now.points game.now.shape.states wanted.now }
    requires masses { AllByRecursion (IsMass game.now) masses.now }
{
    let mut took = u128::MAX;
    let mut answers = 0;
    for _ in 0..REPETITIONS {
        let start = Instant::now(&rt)?;
        answers = answers_of(round.call, game, certificate, wanted, masses);
        took = took.min(start.elapsed(&rt)?.as_nanos());
    }
    let (name, member, members) = named(round.call);
    let held = round.held;
    let calls = masses.len().max(1) as u128;
    let nanos = took / calls;
    let tenths = took.saturating_mul(10) / calls / u128::from(members.max(1));
    let whole = tenths / 10;
    let tenth = tenths % 10;
    println!(rt;
        "{name}, mass in {held} states: {nanos} ns a call, {whole}.{tenth} ns a {member}, answers {answers}"
    )
}

/// The name of a call, what its time is shared by, and how many of these there are.
fn named(call: Call) -> (&'static str, &'static str, u32) {
    match call {
        Call::Worth => ("worth", "node", MOST_NODES as u32),
        Call::Sawtooth => ("sawtooth", "point", MOST_POINTS as u32),
        Call::SplitInto => ("split_into", "wanted point", 8),
        Call::Fits => ("fits", "member", (MOST_NODES + MOST_POINTS) as u32),
    }
}

/// Makes the call for each mass, and adds the answers up.
fn answers_of(
    call: Call,
    game: &Game,
    certificate: &Certificate,
    wanted: &[(u32, i128)],
    masses: &[[i128; MOST_STATES]],
) -> i128
    requires full { AreFull game.now certificate.now.nodes certificate.now.points }
    requires wanted { IsWanted certificate.now.points game.now.shape.states wanted.now }
    requires masses { AllByRecursion (IsMass game.now) masses.now }
{
    match call {
        Call::Worth => worths(game, &certificate.nodes, masses),
        Call::Sawtooth => bounds(game, &certificate.points, masses),
        Call::SplitInto => items(game, &certificate.points, wanted, masses),
        Call::Fits => fitting(game, certificate, masses),
    }
}

/// How often the certificate fits, asked once for each mass.
fn fitting(game: &Game, certificate: &Certificate, masses: &[[i128; MOST_STATES]]) -> i128 {
    let mut count: i128 = 0;
    for _mass in masses {
        count = count.wrapping_add(i128::from(certificate.fits(game)));
    }
    count
}

/// What the nodes are worth at each mass, added up.
fn worths(game: &Game, nodes: &NodeSet, masses: &[[i128; MOST_STATES]]) -> i128
    requires full { length nodes.now.members ≡ most_nodes }
    requires fit { AllByRecursion (NodeFits game.now most_nodes) nodes.now.members }
    requires masses { AllByRecursion (IsMass game.now) masses.now }
{
    law_game(game);
    let mut sum: i128 = 0;
    for mass in masses {
        sum = sum.wrapping_add(nodes.worth(mass).0);
    }
    sum
}

/// The sawtooth bound of each mass, added up.
fn bounds(game: &Game, points: &PointSet, masses: &[[i128; MOST_STATES]]) -> i128
    requires fit { AllByRecursion (PointFits game.now most_points) points.now.members }
    requires corners { (s : ℕ) → s < game.now.shape.states → HasCorner points.now.members s }
    requires masses { AllByRecursion (IsMass game.now) masses.now }
{
    law_game(game);
    let mut sum: i128 = 0;
    for mass in masses {
        sum = sum.wrapping_add(points.sawtooth(mass));
    }
    sum
}

/// How many items the split of each mass has, added up.
fn items(
    game: &Game,
    points: &PointSet,
    wanted: &[(u32, i128)],
    masses: &[[i128; MOST_STATES]],
) -> i128
    requires fit { AllByRecursion (PointFits game.now most_points) points.now.members }
    requires corners { (s : ℕ) → s < game.now.shape.states → HasCorner points.now.members s }
    requires wanted { IsWanted points.now.members game.now.shape.states wanted.now }
    requires masses { AllByRecursion (IsMass game.now) masses.now }
{
    law_game(game);
    let mut split = Split::new();
    let mut sum: i128 = 0;
    for mass in masses {
        points.split_into(wanted, mass, &mut split);
        sum = sum.wrapping_add(i128::from(split.len()));
    }
    sum
}
