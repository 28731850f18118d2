//! Laws that make acceptance and refusal exact.
ghost use Rattle.std.specs.Prelude.{◌<◌, length, take};
ghost use Rattle.cert_text.specs.Cuts.{IsCutShort, IsSomeText};
ghost use Rattle.cert_text.specs.Laws.{AcceptedIsNotRefused, Decided, LinesAreTexts, OneCertificate, RefusedOnce, TextsAreRead};

use game_model::{Game, law_game};

/// A law: lines that are accepted are the text of the certificate that they say, which fits the game.
pub fn law_accepted()
    ensures { LinesAreTexts }
{}

/// A law: each text of a certificate that fits the game is accepted, and its lines say the certificate.
pub fn law_read()
    ensures { TextsAreRead }
{}

/// A law: a text is of one certificate.
pub fn law_one()
    ensures { OneCertificate }
{}

/// A law: a text is refused at one line, with one kind.
pub fn law_refused_once()
    ensures { RefusedOnce }
{}

/// A law: what is accepted is not refused.
pub fn law_not_refused()
    ensures { AcceptedIsNotRefused }
{}

/// A law: bytes are the text of a certificate that fits the game, or are refused.
pub fn law_decided()
    ensures { Decided }
{}

/// A law: the text of a certificate that is cut anywhere before its last byte is refused, as the line in which it
/// ends is missing. The number of that line is one above the count of line feeds before the cut.
pub fn law_cut(game: &Game, bytes: &[u8], at: usize)
    requires text { IsSomeText game.now bytes.now }
    requires within { at < length bytes.now }
    ensures { IsCutShort game.now (take at bytes.now) }
{
    law_game(game);
}
