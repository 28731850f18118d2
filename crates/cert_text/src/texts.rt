//! Reads the whole text of a certificate for a game.
ghost use Rattle.std.specs.Prelude.{◌≡◌, ◌^◌, ◌≤◌, length, map, IfOk, IfErr};
ghost use Rattle.cert_text.specs.Answers.{IsNoText, IsRefused, IsTextFor};
ghost use Rattle.cert_text.specs.Steps.{IsStopped};
ghost use Rattle.cert_text.specs.Entries.{limits_of, start_of};
ghost use Rattle.std.specs.List.{AllByRecursion};
ghost use Rattle.alpha_set.specs.Members.{node_data};
ghost use Rattle.controller.specs.Certificates.{CertificateFits};
ghost use Rattle.point_set.specs.Members.{point_data};
ghost use Rattle.cert_text.specs.Draft.{AreFit, draft_data, spot_data};
ghost use Rattle.cert_text.specs.declared.fault.CertFault.TheVariants as certs;
ghost use Rattle.cert_text.specs.View.{AreLimits, IsProgress};

use crate::draft::{Draft, Spot};
use crate::fault::{CertFault, CertKind};
use crate::progress::{Latest, Limits, MOST_PAIRS, NO_WEIGHTS, Progress, Starts};
use crate::reader::read_draft;
use alpha_set::{Node, NodeSet};
use belief::{Belief, Mixes};
use controller::Certificate;
use game_model::{Game, law_game};
use point_set::{Point, PointSet};
use scaled_num::Fraction;
use std::alloc::Global;

/// What the reader knows of a game.
fn limits(game: &Game) -> Limits
    ensures value { result ≡ limits_of game.now }
    ensures kept { AreLimits result }
{
    law_game(game);
    Limits {
        states: game.states(),
        own_actions: game.own_actions(),
        informed_actions: game.informed_actions(),
        observations: game.observations(),
        span: game.span(),
    }
}

/// Before the first line.
fn start(game: &Game) -> Progress
    ensures value { result ≡ start_of game.now }
    ensures kept { IsProgress result }
{
    Progress {
        limits: limits(game),
        latest: Latest::Nothing,
        nodes: 0,
        points: 0,
        starts: Starts {
            version: 0,
            sum: 0,
            nodes: NO_WEIGHTS,
            points: NO_WEIGHTS,
        },
        begun: 0,
        state: 0,
        lacking: [0; MOST_PAIRS],
        total: 0,
    }
}

/// The certificate in the making that the whole of the bytes say.
fn read_whole(alloc: Global, game: &Game, bytes: &[u8]) -> Result<Draft, CertFault>
    requires { length bytes.now ≤ 2 ^ 27 }
    ensures text { IfOk result (λ draft. IsTextFor game.now (draft_data draft) bytes.now) }
    ensures refused { IfErr result (IsStopped game.now bytes.now) }
{
    law_game(game);
    let (draft, lines, rest) = read_draft(alloc, start(game), bytes)?;
    if !rest.is_empty() {
        return Err(CertFault::Line {
            line: lines + 1,
            kind: CertKind::Trailing,
        });
    }
    Ok(draft)
}

/// The set of these nodes.
fn node_set(alloc: Global, game: &Game, nodes: Vec<Node>) -> Result<NodeSet, CertFault>
    ensures same { IfOk result (λ set. set.members ≡ map node_data nodes.items) }
    ensures memory { IfErr result (λ fault. fault ≡ certs.OutOfMemory) }
{
    let mut set = NodeSet::new(alloc, game);
    for node in nodes {
        let Ok(_) = set.push(node) else {
            return Err(CertFault::OutOfMemory);
        };
    }
    Ok(set)
}

/// The point that was in the making.
fn point(alloc: Global, game: &Game, spot: Spot) -> Result<Point, CertFault>
    requires { AreFit game.now (spot_data spot) }
    ensures same { IfOk result (λ point. point_data point ≡ spot_data spot) }
    ensures memory { IfErr result (λ fault. fault ≡ certs.OutOfMemory) }
{
    law_game(game);
    let Some(belief) = Belief::of(&spot.belief) else {
        return Err(CertFault::OutOfMemory);
    };
    let mixes = Mixes::of(alloc, game, &spot.weights)?;
    Ok(Point {
        belief,
        value: spot.value,
        mixes,
        splits: spot.splits,
    })
}

/// The set of the points that were in the making.
fn point_set(alloc: Global, game: &Game, spots: Vec<Spot>) -> Result<PointSet, CertFault>
    requires { AllByRecursion (AreFit game.now) (map spot_data spots.items) }
    ensures same { IfOk result (λ set. set.members ≡ map spot_data spots.items) }
    ensures memory { IfErr result (λ fault. fault ≡ certs.OutOfMemory) }
{
    let mut set = PointSet::new(alloc, game);
    for spot in spots {
        let point = point(alloc, game, spot)?;
        let Ok(_) = set.push(point) else {
            return Err(CertFault::OutOfMemory);
        };
    }
    Ok(set)
}

/// The certificate that was in the making.
fn finish(alloc: Global, game: &Game, draft: Draft) -> Result<Certificate, CertFault>
    requires { CertificateFits game.now (draft_data draft) }
    ensures same { IfOk result (λ certificate. certificate ≡ draft_data draft) }
    ensures memory { IfErr result (λ fault. fault ≡ certs.OutOfMemory) }
{
    let nodes = node_set(alloc, game, draft.nodes)?;
    let points = point_set(alloc, game, draft.points)?;
    Ok(Certificate {
        lower: Fraction {
            num: draft.lower.0,
            den: draft.lower.1,
        },
        upper: Fraction {
            num: draft.upper.0,
            den: draft.upper.1,
        },
        tail: Fraction {
            num: draft.tail.0,
            den: draft.tail.1,
        },
        gap: Fraction {
            num: draft.gap.0,
            den: draft.gap.1,
        },
        outcome: draft.outcome,
        nodes,
        points,
        start_nodes: draft.start_nodes,
        start_points: draft.start_points,
        multiple: draft.multiple,
    })
}

/// Reads the text of a certificate for a game, which is the whole of the bytes.
///
/// # Errors
///
/// `Line` exactly where the bytes are the text of no certificate that fits the game: with the first refused line,
/// counted from 1, and its least kind.
pub fn read(alloc: Global, game: &Game, bytes: &[u8]) -> Result<Certificate, CertFault>
    requires { length bytes.now ≤ 2 ^ 27 }
    ensures text { IfOk result (λ certificate. IsTextFor game.now certificate bytes.now) }
    ensures refused { IfErr result (IsRefused game.now bytes.now) }
    ensures no_text { IfErr result (IsNoText game.now bytes.now) }
{
    law_game(game);
    let draft = read_whole(alloc, game, bytes)?;
    finish(alloc, game, draft)
}
