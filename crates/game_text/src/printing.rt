//! The canonical text of a game, printed.
ghost use Rattle.game_text.specs.Text.{IsWholeTextOf, canonical_text, header_text, informed_text, landing_line, row_text, rows_text, size_text, state_text, step_line};
ghost use Rattle.std.specs.Prelude.{IfOk, OnOk, flat_map, ◌++◌, ◌<◌, ◌≡◌};
ghost use Rattle.std.specs.String.{string_bytes};

use game_model::{Game, Landing, law_game};
use std::alloc::{AllocError, Global};
use text_words::write_line;

/// Writes the line of a landing.
fn landing_line(text: &mut String, landing: &Landing) -> Result<(), AllocError>
    ensures { OnOk result (string_bytes text.new ≡ string_bytes text.old ++ landing_line landing.now) }
{
    write_line(
        text,
        "out",
        &[
            i128::from(landing.seen),
            i128::from(landing.to),
            landing.weight,
        ],
    )
}

/// Writes the lines of landings.
fn landing_lines(text: &mut String, row: &[Landing]) -> Result<(), AllocError>
    ensures { OnOk result (string_bytes text.new ≡ string_bytes text.old ++ flat_map landing_line row.now) }
{
    for landing in row {
        landing_line(text, landing)?;
    }
    Ok(())
}

/// Writes the lines of the row of a triple.
fn row_lines(text: &mut String, game: &Game, s: u32, a: u32, c: u32) -> Result<(), AllocError>
    requires state { s < game.now.shape.states }
    requires own { a < game.now.shape.own_actions }
    requires informed { c < game.now.shape.informed_actions }
    ensures { OnOk result (string_bytes text.new ≡ string_bytes text.old ++ row_text game.now s a c) }
{
    step_line(text, s, a, c, game.reward(s, a, c))?;
    landing_lines(text, game.row(s, a, c))
}

/// Writes the line of a triple and its reward.
fn step_line(text: &mut String, s: u32, a: u32, c: u32, reward: i128) -> Result<(), AllocError>
    ensures { OnOk result (string_bytes text.new ≡ string_bytes text.old ++ step_line s a c reward) }
{
    write_line(
        text,
        "step",
        &[i128::from(s), i128::from(a), i128::from(c), reward],
    )
}

/// Writes the lines of the rows of a state and an own action.
fn informed_lines(text: &mut String, game: &Game, s: u32, a: u32) -> Result<(), AllocError>
    requires state { s < game.now.shape.states }
    requires own { a < game.now.shape.own_actions }
    ensures { OnOk result (string_bytes text.new ≡ string_bytes text.old ++ informed_text game.now s a) }
{
    for c in 0..game.informed_actions() {
        row_lines(text, game, s, a, c)?;
    }
    Ok(())
}

/// Writes the lines of the rows of a state.
fn own_lines(text: &mut String, game: &Game, s: u32) -> Result<(), AllocError>
    requires state { s < game.now.shape.states }
    ensures { OnOk result (string_bytes text.new ≡ string_bytes text.old ++ state_text game.now s) }
{
    for a in 0..game.own_actions() {
        informed_lines(text, game, s, a)?;
    }
    Ok(())
}

/// Writes the lines of all rows.
fn rows_lines(text: &mut String, game: &Game) -> Result<(), AllocError>
    ensures { OnOk result (string_bytes text.new ≡ string_bytes text.old ++ rows_text game.now) }
{
    for s in 0..game.states() {
        own_lines(text, game, s)?;
    }
    Ok(())
}

/// Writes the lines before the rows.
fn header_lines(text: &mut String, game: &Game) -> Result<(), AllocError>
    ensures { OnOk result (string_bytes text.new ≡ string_bytes text.old ++ header_text game.now game.now.first) }
{
    write_line(text, "osposg", &[1])?;
    size_line(text, game)?;
    write_line(text, "total", &[game.row_total()])?;
    let (over, under) = game.discount();
    write_line(text, "discount", &[over, under])?;
    write_line(text, "first", game.first())
}

/// Writes the line of the sizes.
fn size_line(text: &mut String, game: &Game) -> Result<(), AllocError>
    ensures { OnOk result (string_bytes text.new ≡ string_bytes text.old ++ size_text game.now) }
{
    write_line(
        text,
        "size",
        &[
            i128::from(game.states()),
            i128::from(game.own_actions()),
            i128::from(game.informed_actions()),
            i128::from(game.observations()),
        ],
    )
}

/// The canonical text of a game: its first belief is coprime, and no line could be left out. `read_alone` answers the
/// game again: by `law_whole_not_refused` no line of it is refused, and by `law_whole_games` it is a text of no other game.
///
/// # Errors
///
/// Where no memory is to be had.
pub fn print(alloc: Global, game: &Game) -> Result<Vec<u8>, AllocError>
    ensures canonical { IfOk result (λ text. text.items ≡ canonical_text game.now) }
    ensures text { IfOk result (λ text. IsWholeTextOf game.now text.items) }
{
    law_game(game);
    let mut text = String::new(alloc);
    header_lines(&mut text, game)?;
    rows_lines(&mut text, game)?;
    write_line(&mut text, "end", &[])?;
    Ok(text.into_bytes())
}
