//! The export of a certificate.

ghost use Rattle.controller.specs.Certificates.{CertificateFits, CertificateStands};
ghost use Rattle.controller.specs.Data.{ending_of, fraction_data, parts};
ghost use Rattle.controller.specs.Export.{IsExport};
ghost use Rattle.controller.specs.Parts.{PartsFit, PartsStand};
ghost use Rattle.controller.specs.Reached.{AreExportedNodes, AreExportedPoints};
ghost use Rattle.controller.specs.Starts.{MakesUpMultiple};
ghost use Rattle.controller.specs.Sums.{AreNodes, ArePoints};
ghost use Rattle.std.specs.List.{AllByRecursion};
ghost use Rattle.std.specs.Prelude.{IfOk, length, ◌<◌, ◌≤◌};

use crate::bounds::{lower_bound, tail, upper_bound};
use crate::certificates::{Certificate, Outcome};
use crate::kept::{keep_nodes, keep_points, renumber_starts};
use crate::numbering::Numbering;
use crate::reached::{reached_nodes, reached_points};
use alpha_set::NodeSet;
use game_model::{Game, law_game};
use point_set::PointSet;
use scaled_num::Fraction;
use std::alloc::{AllocError, Global};

/// The certificate of nodes and points with their starts: it keeps the nodes that the start nodes reach by steps, and
/// the points that the corners and the start points reach by shares, under new numbers in their order, and has the
/// bounds that the starts prove.
///
/// # Errors
///
/// Where no memory is to be had.
pub fn export(
    alloc: Global,
    game: &Game,
    nodes: &NodeSet,
    points: &PointSet,
    start_nodes: &[(u32, i128)],
    start_points: &[(u32, i128)],
    multiple: i128,
    gap: &Fraction,
    outcome: Outcome,
) -> Result<Certificate, AllocError>
    requires fit { PartsFit game.now
        (parts nodes.now points.now start_nodes.now start_points.now multiple (fraction_data gap.now)
        (ending_of outcome)) }
    requires start { MakesUpMultiple points.now.members start_points.now multiple game.now.first game.now.shape.states }
    ensures exported { IfOk result
        (IsExport game.now (parts nodes.now points.now start_nodes.now start_points.now multiple (fraction_data gap.now)
        (ending_of outcome))) }
    ensures fits { IfOk result (CertificateFits game.now) }
    ensures stands { PartsStand game.now
        (parts nodes.now points.now start_nodes.now start_points.now multiple (fraction_data gap.now)
        (ending_of outcome)) → IfOk result (CertificateStands game.now) }
{
    law_game(game);
    let (nodes_kept, nodes_from) = export_nodes(alloc, game, nodes, start_nodes)?;
    let (points_kept, points_over) = export_points(alloc, game, points, start_points)?;
    Ok(Certificate {
        lower: lower_bound(game, nodes, start_nodes),
        upper: upper_bound(game, points, start_points, multiple),
        tail: tail(game),
        gap: *gap,
        outcome,
        nodes: nodes_kept,
        points: points_kept,
        start_nodes: nodes_from,
        start_points: points_over,
        multiple,
    })
}

/// The nodes that start nodes reach by steps, and the starts, under new numbers.
fn export_nodes(
    alloc: Global,
    game: &Game,
    nodes: &NodeSet,
    starts: &[(u32, i128)],
) -> Result<(NodeSet, Vec<(u32, i128)>), AllocError>
    requires nodes { AreNodes game.now nodes.now.members }
    requires starts { AllByRecursion (λ start. start.0 < length nodes.now.members) starts.now }
    ensures { IfOk result (λ kept.
        AreExportedNodes nodes.now.members starts.now kept.0.members kept.1.items) }
{
    let flags = reached_nodes(alloc, nodes, starts)?;
    let numbering = Numbering::of(alloc, flags)?;
    let kept = keep_nodes(alloc, game, nodes, &numbering)?;
    let kept_starts = renumber_starts(alloc, starts, &numbering)?;
    Ok((kept, kept_starts))
}

/// The points that corners and start points reach by shares, and the starts, under new numbers.
fn export_points(
    alloc: Global,
    game: &Game,
    points: &PointSet,
    starts: &[(u32, i128)],
) -> Result<(PointSet, Vec<(u32, i128)>), AllocError>
    requires points { ArePoints game.now points.now.members }
    requires corners { game.now.shape.states ≤ length points.now.members }
    requires starts { AllByRecursion (λ start. start.0 < length points.now.members) starts.now }
    ensures { IfOk result (λ kept.
        AreExportedPoints game.now.shape.states points.now.members starts.now kept.0.members kept.1.items) }
{
    let flags = reached_points(alloc, game, points, starts)?;
    let numbering = Numbering::of(alloc, flags)?;
    let kept = keep_points(alloc, game, points, &numbering)?;
    let kept_starts = renumber_starts(alloc, starts, &numbering)?;
    Ok((kept, kept_starts))
}
