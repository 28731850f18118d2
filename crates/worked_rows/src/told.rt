//! Advice and members as text, in the form that `bench/stage/model.py` writes, and games from their texts.

ghost use Rattle.std.specs.Prelude.{◌<◌};

use alpha_set::Node;
use belief::Mixes;
use game_model::{Branch, Game};
use game_text::read_alone;
use point_set::Point;
use simplex::{End, Program};
use stage_game::{LowerAdvice, UpperAdvice};
use std::alloc::{AllocError, Global};
use text_words::write_line;

/// The game of a short text.
pub fn game_of(alloc: Global, text: &str) -> Option<Game> {
    if text.len() > 1_000 {
        return None;
    }
    match read_alone(alloc, text.as_bytes()) {
        Ok(game) => Some(game),
        Err(_) => None,
    }
}

/// Writes how a run ended.
fn write_end(text: &mut String, end: End) -> Result<(), AllocError> {
    match end {
        End::Optimal => text.push_str("end optimal\n"),
        End::Spent => text.push_str("end spent\n"),
        End::Unbounded { .. } => text.push_str("end unbounded\n"),
        End::Wide { row, col } => write_line(text, "end wide", &[i128::from(row), i128::from(col)]),
    }
}

/// Writes a line for each branch.
fn write_branches(text: &mut String, name: &str, branches: &[Branch]) -> Result<(), AllocError> {
    for branch in branches {
        let numbers = [
            i128::from(branch.a),
            i128::from(branch.o),
            i128::from(branch.k),
            branch.weight,
        ];
        write_line(text, name, &numbers)?;
    }
    Ok(())
}

/// Writes the weights of the informed player's actions in a state.
fn write_mix(text: &mut String, mixes: &Mixes, s: u32) -> Result<(), AllocError>
    requires { s < mixes.now.states }
{
    text.push_str("informed")?;
    for c in 0..mixes.actions() {
        write!(text, " {}", mixes.get(s, c))?;
    }
    text.push('\n')
}

/// Writes a line for the informed player's mix in each state.
fn write_mixes(text: &mut String, mixes: &Mixes) -> Result<(), AllocError> {
    for s in 0..mixes.states() {
        write_mix(text, mixes, s)?;
    }
    Ok(())
}

/// A lower advice and its node.
pub fn lower_told(alloc: Global, advice: &LowerAdvice, node: &Node) -> Result<String, AllocError> {
    let mut text = String::new(alloc);
    write_end(&mut text, advice.end)?;
    write_line(&mut text, "own", &node.mix)?;
    write_branches(&mut text, "next", &node.next)?;
    write_mixes(&mut text, &advice.informed)?;
    write_line(&mut text, "vector", &node.vector)?;
    Ok(text)
}

/// An upper advice and its point.
pub fn upper_told(
    alloc: Global,
    advice: &UpperAdvice,
    point: &Point,
) -> Result<String, AllocError> {
    let mut text = String::new(alloc);
    write_end(&mut text, advice.end)?;
    write_line(&mut text, "own", &advice.own)?;
    write_branches(&mut text, "wanted", &advice.wanted)?;
    write_mixes(&mut text, &point.mixes)?;
    write_line(&mut text, "belief", point.belief.parts())?;
    write_line(&mut text, "value", &[point.value])?;
    write_branches(&mut text, "split", &point.splits)?;
    Ok(text)
}

/// A stage program: its rows, limits and goal.
pub fn program_told(alloc: Global, program: &Program) -> Result<String, AllocError> {
    let mut text = String::new(alloc);
    for row in &program.rows {
        write_line(&mut text, "row", row)?;
    }
    write_line(&mut text, "limits", &program.limits)?;
    write_line(&mut text, "goal", &program.goal)?;
    Ok(text)
}
