//! Runs drawn programs of three sizes, and prints pivots and nanoseconds an entry. Without the word `measure` it does
//! nothing.
#![tactic(auto)]

ghost use Rattle.std.specs.Prelude.{◌≡◌, ℕ, pos, ◌+◌, ◌*◌, ◌<◌, ◌≤◌, ◌^◌, ◌≤ℤ◌, IsTrue, length, IfOk};
ghost use Rattle.simplex.specs.Program.{at, AllNarrow, IsProgram, row_count, variable_count};
ghost use Rattle.simplex.specs.Solver.{HasRoomFor};
ghost use Rattle.simplex.specs.Tableau.{list_at};

use simplex::{End, Program, Solver};
use std::alloc::{AllocError, Global};
use std::time::Instant;
use std::{env, io};

/// Whether all numbers are below 2^62 in magnitude.
fn all_narrow(row: &[i128]) -> bool
    ensures { IsTrue result → AllNarrow row.now }
{
    for place in 0..row.len() {
        if row[place].unsigned_abs() >= 1 << 62 {
            return false;
        }
    }
    true
}

/// Whether no number is negative.
fn none_negative(row: &[i128]) -> bool
    ensures { IsTrue result → (k : ℕ) → k < length row.now → pos 0 ≤ℤ (at row.now k) }
{
    for place in 0..row.len() {
        if row[place] < 0 {
            return false;
        }
    }
    true
}

/// Whether all rows have this width.
fn all_wide(rows: &[Vec<i128>], width: usize) -> bool
    ensures { IsTrue result → (k : ℕ) → k < length rows.now → length (list_at rows.now k) ≡ width }
{
    for place in 0..rows.len() {
        if rows[place].len() != width {
            return false;
        }
    }
    true
}

/// Whether all rows are narrow.
fn all_rows_narrow(rows: &[Vec<i128>]) -> bool
    ensures { IsTrue result → (k : ℕ) → k < length rows.now → AllNarrow (list_at rows.now k) }
{
    for place in 0..rows.len() {
        if !all_narrow(&rows[place]) {
            return false;
        }
    }
    true
}

/// Whether the program keeps the condition of a run.
fn is_program(program: &Program) -> bool
    ensures { IsTrue result → IsProgram program.now }
{
    let variables = program.goal.len();
    !program.limits.is_empty()
        && variables != 0
        && program.rows.len() == program.limits.len()
        && all_wide(&program.rows, variables)
        && none_negative(&program.limits)
        && all_rows_narrow(&program.rows)
        && all_narrow(&program.limits)
        && all_narrow(&program.goal)
}

/// A drawn number below 2^31.
fn draw(seed: &mut u64) -> u64
    ensures { result < 2 ^ 31 }
{
    *seed = seed
        .wrapping_mul(6364136223846793005)
        .wrapping_add(1442695040888963407);
    *seed >> 33
}

/// The sizes of a program like those of a stage: values, actions, and choices that each hang on an action.
#[derive(Clone, Copy)]
struct Shape {
    values: u32,
    replies: u32,
    actions: u32,
    links: u32,
    choices: u32,
}

/// A coefficient below 1,024 in magnitude.
fn coefficient(shape: Shape, row: u32, column: u32, seed: &mut u64) -> i128
    requires replies { 1 ≤ shape.replies }
    requires links { 1 ≤ shape.links }
    requires actions { 1 ≤ shape.actions }
    requires few_values { shape.values ≤ 100 }
    requires few_actions { shape.actions ≤ 100 }
    requires few_replies { shape.replies ≤ 100 }
    requires few_links { shape.links ≤ 1000 }
{
    let is_value = column < shape.values;
    let is_action = !is_value && column - shape.values < shape.actions;
    let choice = column.saturating_sub(shape.values + shape.actions);
    let value_rows = shape.values * shape.replies;
    if row < value_rows {
        if is_value {
            return i128::from(column == row / shape.replies);
        }
        if is_action || draw(seed) % 10 < 3 {
            return -i128::from(draw(seed) % 1024);
        }
        return 0;
    }
    let link = row - value_rows;
    if link < shape.links {
        if is_action {
            return -i128::from(column - shape.values == link % shape.actions);
        }
        return i128::from(!is_value && choice % shape.links == link);
    }
    i128::from(is_action)
}

/// A program of this shape: the last row bounds the actions, which bound all else.
fn stage(alloc: Global, shape: Shape, seed: &mut u64) -> Result<Program, AllocError>
    requires replies { 1 ≤ shape.replies }
    requires links { 1 ≤ shape.links }
    requires actions { 1 ≤ shape.actions }
    requires few_values { shape.values ≤ 100 }
    requires few_actions { shape.actions ≤ 100 }
    requires few_replies { shape.replies ≤ 100 }
    requires few_links { shape.links ≤ 1000 }
    requires few_choices { shape.choices ≤ 1000 }
{
    let mut rows = Vec::new(alloc);
    let mut limits = Vec::new(alloc);
    let mut goal = Vec::new(alloc);
    let last = shape.values * shape.replies + shape.links;
    let variables = shape.values + shape.actions + shape.choices;
    for row in 0..last + 1 {
        let mut line = Vec::new(alloc);
        for column in 0..variables {
            line.push(coefficient(shape, row, column, seed))?;
        }
        rows.push(line)?;
        limits.push(i128::from(row == last))?;
    }
    for column in 0..variables {
        goal.push(if column < shape.values {
            i128::from(draw(seed) % 1024)
        } else {
            0
        })?;
    }
    Ok(Program { rows, limits, goal })
}

/// A program all of whose numbers are drawn, with limits that are not negative.
fn dense(alloc: Global, rows: u32, variables: u32, seed: &mut u64) -> Result<Program, AllocError> {
    let mut lines = Vec::new(alloc);
    let mut limits = Vec::new(alloc);
    let mut goal = Vec::new(alloc);
    for _ in 0..rows {
        let mut line = Vec::new(alloc);
        for _ in 0..variables {
            line.push(i128::from(draw(seed) % 1024) - 256)?;
        }
        lines.push(line)?;
        limits.push(i128::from(draw(seed) % 1024))?;
    }
    for _ in 0..variables {
        goal.push(i128::from(draw(seed) % 1024) - 256)?;
    }
    Ok(Program {
        rows: lines,
        limits,
        goal,
    })
}

/// Runs the program if it keeps the conditions.
fn run(solver: &mut Solver, program: &Program, pivots: u32) -> End {
    if program.limits.len() < 1 << 30 && program.goal.len() < 1 << 30 {
        let rows = program.limits.len() as u32;
        let variables = program.goal.len() as u32;
        if is_program(program) && solver.fits(rows, variables) {
            return solver.run(program, pivots);
        }
    }
    End::Spent
}

/// The pivots that a run of at most 400 makes.
fn pivots(solver: &mut Solver, program: &Program) -> u32 {
    for made in 0..400 {
        if run(solver, program, made) != End::Spent {
            return made;
        }
    }
    400
}

/// Runs a program twenty times, and prints what the fastest run took.
fn measure(rt: HostRuntime, kind: &str, program: &Program) -> io::Result<()> {
    if program.limits.len() > 1000 || program.goal.len() > 1000 {
        return Ok(());
    }
    let rows = program.limits.len() as u32;
    let variables = program.goal.len() as u32;
    let mut solver = Solver::new(rt.alloc());
    solver.reserve(400, 300)?;
    let made = pivots(&mut solver, program);
    let mut took = u128::MAX;
    for _ in 0..20 {
        let start = Instant::now(&rt)?;
        let _ = run(&mut solver, program, 400);
        took = took.min(start.elapsed(&rt)?.as_nanos());
    }
    let end = run(&mut solver, program, 400);
    let entries = u128::from(made.max(1)) * (u128::from(rows) + 1) * (u128::from(variables) + 2);
    let tenths = took.saturating_mul(10) / entries;
    let whole = tenths / 10;
    let tenth = tenths % 10;
    let micros = took / 1000;
    println!(rt;
        "{kind} {rows} x {variables}: {end:?} after {made} pivots in {micros} us, {whole}.{tenth} ns an entry"
    )
}

/// Measures programs of one size, like those of a stage and dense ones.
fn measure_both(rt: HostRuntime, shape: Shape, seed: &mut u64) -> io::Result<()>
    requires replies { 1 ≤ shape.replies }
    requires links { 1 ≤ shape.links }
    requires actions { 1 ≤ shape.actions }
    requires few_values { shape.values ≤ 100 }
    requires few_actions { shape.actions ≤ 100 }
    requires few_replies { shape.replies ≤ 100 }
    requires few_links { shape.links ≤ 1000 }
    requires few_choices { shape.choices ≤ 1000 }
{
    measure(rt, "stage", &stage(rt.alloc(), shape, seed)?)?;
    let rows = shape.values * shape.replies + shape.links + 1;
    let variables = shape.values + shape.actions + shape.choices;
    measure(rt, "dense", &dense(rt.alloc(), rows, variables, seed)?)
}

/// The shape of these sizes.
fn shape_of(values: u32, replies: u32, actions: u32, links: u32, choices: u32) -> Shape
    ensures { result ≡ record {
      values = values;
      replies = replies;
      actions = actions;
      links = links;
      choices = choices;
    } }
{
    Shape {
        values,
        replies,
        actions,
        links,
        choices,
    }
}

fn main(rt: HostRuntime) -> io::Result<()> {
    let Some(word) = env::args(&rt)?.nth(1) else {
        return Ok(());
    };
    if word.as_str() != "measure" {
        return Ok(());
    }
    let mut seed: u64 = 12345;
    measure_both(rt, shape_of(2, 3, 2, 6, 66), &mut seed)?;
    measure_both(rt, shape_of(8, 6, 4, 28, 200), &mut seed)?;
    measure_both(rt, shape_of(32, 10, 4, 32, 176), &mut seed)
}
