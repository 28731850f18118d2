//! The command `solve`: a search, and the certificate that it makes.
ghost use Rattle.controller.specs.Certificates.{CertificateStands, IsGap};
ghost use Rattle.controller.specs.Data.{ending_of, fraction_data};
ghost use Rattle.controller.specs.Export.{IsExport};
ghost use Rattle.controller.specs.Parts.{PartsFit, PartsStand};
ghost use Rattle.controller.specs.Starts.{MakesUpMultiple};
ghost use Rattle.hsvi_trial.specs.Data.{solved_data, solved_parts};
ghost use Rattle.hsvi_trial.specs.Run.{most_trials};
ghost use Rattle.osposg_cli.specs.Defined.{IsDefined};
ghost use Rattle.osposg_cli.specs.Inputs.{most_input};
ghost use Rattle.osposg_cli.specs.Solve.{AnswersSolve, IsMade, IsSolved, KeepsSolve, SolveIsDefined, status_of};
ghost use Rattle.std.specs.Prelude.{IfOk, length, ◌≡◌, ◌≤◌};

use crate::answer::Answer;
use crate::inputs::{game_alone, law_texts};
use crate::status::Status;
use controller::{Certificate, Outcome, export, law_export};
use game_model::Game;
use history_model::{law_controllers, law_splittings};
use hsvi_trial::Solved;
use scaled_num::Fraction;
use std::alloc::{AllocError, Global};

/// The answer of `solve` to a game text, with at most so many trials and this tolerance.
pub fn work(alloc: Global, trials: u32, gap: &Fraction, bytes: &[u8]) -> Result<Answer, AllocError>
    requires trials { trials ≤ most_trials }
    requires gap { IsGap (fraction_data gap.now) }
    requires bytes { length bytes.now ≤ most_input }
    ensures { IfOk result (λ answer.
        AnswersSolve trials (fraction_data gap.now) bytes.now answer.status answer.text.items) }
{
    match game_alone(alloc, bytes)? {
        Ok(game) => searched(alloc, &game, trials, gap),
        Err(refusal) => Ok(refusal),
    }
}

/// A law: the answer of `solve` is defined, and keeps its promise.
pub fn law_solve()
    ensures defined { SolveIsDefined }
    ensures keeps { KeepsSolve }
{
    law_texts();
    law_export();
    law_controllers();
    law_splittings();
}

/// The certificate that a search makes for a game, as an answer.
fn searched(alloc: Global, game: &Game, trials: u32, gap: &Fraction) -> Result<Answer, AllocError>
    requires trials { trials ≤ most_trials }
    requires gap { IsGap (fraction_data gap.now) }
    ensures { IfOk result (λ answer.
        IsSolved trials (fraction_data gap.now) game.now answer.status answer.text.items) }
{
    let certificate = certified(alloc, game, trials, gap)?;
    Ok(Answer {
        status: status_of(certificate.outcome),
        text: cert_text::print(alloc, game, &certificate)?,
    })
}

/// The certificate that a search makes for a game.
pub fn certified(
    alloc: Global,
    game: &Game,
    trials: u32,
    gap: &Fraction,
) -> Result<Certificate, AllocError>
    requires trials { trials ≤ most_trials }
    requires gap { IsGap (fraction_data gap.now) }
    ensures { IfOk result (IsMade trials (fraction_data gap.now) game.now) }
{
    let solved = hsvi_trial::solve(alloc, game, trials, gap)?;
    let certificate = exported(alloc, game, gap, &solved)?;
    Ok(certificate)
}

/// The certificate of what a search found.
fn exported(
    alloc: Global,
    game: &Game,
    gap: &Fraction,
    solved: &Solved,
) -> Result<Certificate, AllocError>
    requires fit { PartsFit game.now (solved_parts (fraction_data gap.now) (solved_data solved.now)) }
    requires start { MakesUpMultiple solved.now.points.members solved.now.start_points.items solved.now.multiple
        game.now.first game.now.shape.states }
    requires stand { PartsStand game.now (solved_parts (fraction_data gap.now) (solved_data solved.now)) }
    ensures exported { IfOk result (IsExport game.now (solved_parts (fraction_data gap.now) (solved_data solved.now))) }
    ensures stands { IfOk result (CertificateStands game.now) }
{
    export(
        alloc,
        game,
        &solved.nodes,
        &solved.points,
        &[(solved.start_node, 1)],
        &solved.start_points,
        solved.multiple,
        gap,
        solved.outcome,
    )
}

/// How the run ends that wrote a certificate of this outcome.
pub fn status_of(outcome: Outcome) -> Status
    ensures { result ≡ status_of (ending_of outcome) }
{
    match outcome {
        Outcome::Closed => Status::Done,
        Outcome::Trials | Outcome::Full => Status::Open,
    }
}
