//! Laws that make acceptance and refusal exact.
ghost use Rattle.game_text.specs.Laws.{AnyRest, Decided, DecidedAlone, FrontRefusedOnce, LinesAreTexts, RefusedOnce, TextsAreGames, TextsAreNotRefused, TextsAreRead, WholeTextsAreGames, WholeTextsAreNotRefused};
ghost use Rattle.game_text.specs.Laws.{CanonicalTexts};
ghost use Rattle.std.specs.Prelude.{take};
ghost use Rattle.game_text.specs.Cuts.{IsCutBeforeEnd, IsMissing};

/// A law: the canonical text of a game is a text of it.
pub fn law_canonical()
    ensures { CanonicalTexts }
{}

/// A law: a text is of one game, and ends at one offset.
pub fn law_games()
    ensures { TextsAreGames }
{}

/// A law: the whole of bytes is a text of one game.
pub fn law_whole_games()
    ensures { WholeTextsAreGames }
{}

/// A law: lines that are accepted are a text of a game.
pub fn law_accepted()
    ensures { LinesAreTexts }
{}

/// A law: each text of a game is accepted.
pub fn law_read()
    ensures { TextsAreRead }
{}

/// A law: a text is refused at one line, with one kind.
pub fn law_refused_once()
    ensures { RefusedOnce }
{}

/// A law: so is a text at the front of bytes.
pub fn law_front_refused_once()
    ensures { FrontRefusedOnce }
{}

/// A law: what begins with a text of a game is not refused.
pub fn law_not_refused()
    ensures { TextsAreNotRefused }
{}

/// A law: a whole text of a game is not refused where it is read alone.
pub fn law_whole_not_refused()
    ensures { WholeTextsAreNotRefused }
{}

/// A law: a text of a game at the front of bytes is one whatever bytes follow it.
pub fn law_any_rest()
    ensures { AnyRest }
{}

/// A law: bytes begin with a text of a game, or are refused.
pub fn law_decided()
    ensures { Decided }
{}

/// A law: bytes are a text of a game, or are refused where they are read alone.
pub fn law_decided_alone()
    ensures { DecidedAlone }
{}

/// A law: a text of a game that is cut before the last byte of its word `end` is refused: the line in which it is cut is missing.
pub fn law_cut(bytes: &[u8], at: usize)
    requires { IsCutBeforeEnd bytes.now at }
    ensures { IsMissing (take at bytes.now) }
{}
