//! Laws: the run of solve is one, it goes on from each of its beginnings, and its trials are short.

ghost use Rattle.hsvi_trial.specs.Laws.{EndsThere, OneBeginning, OneRunFor, RunsAreShort};

use game_model::{Game, law_game};

/// A law: at most one journal with its sets, start and outcome meets the run of solve for a game, a budget and a gap.
pub fn law_one(game: &Game)
    ensures { OneRunFor game.now }
{
    law_game(game);
}

/// A law: of two runs so far of one task the shorter one is the beginning of the other, and a run that has ended goes
/// no further.
pub fn law_beginning()
    ensures beginning { OneBeginning }
    ensures ends { EndsThere }
{}

/// A law: a run so far has at most 130 visits in each of its trials.
pub fn law_short()
    ensures { RunsAreShort }
{}
