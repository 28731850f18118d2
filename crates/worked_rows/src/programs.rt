//! Worked programs: how each run ends, and what is read from it.

ghost use Rattle.std.specs.Prelude.{◌≡◌, ℕ, pos, ◌<◌, ◌≤◌, ◌^◌, ◌≤ℤ◌, IsTrue, length, IsSome, IfSome};
ghost use Rattle.simplex.specs.Program.{at, AllNarrow, IsProgram};
ghost use Rattle.simplex.specs.Tableau.{AreWide, list_at};

use simplex::{End, Program, Solver};
use std::alloc::{AllocError, Global};
use std::test::Fail;

/// Whether all numbers are below 2^62 in magnitude.
fn all_narrow(row: &[i128]) -> bool
    ensures { IsTrue result → AllNarrow row.now }
{
    for place in 0..row.len() {
        if row[place].unsigned_abs() >= 1 << 62 {
            return false;
        }
    }
    true
}

/// Whether no number is negative.
fn none_negative(row: &[i128]) -> bool
    ensures { IsTrue result → (k : ℕ) → k < length row.now → pos 0 ≤ℤ (at row.now k) }
{
    for place in 0..row.len() {
        if row[place] < 0 {
            return false;
        }
    }
    true
}

/// Whether all rows have this width.
fn all_wide(rows: &[Vec<i128>], width: usize) -> bool
    ensures { IsTrue result → AreWide rows.now width }
{
    for place in 0..rows.len() {
        if rows[place].len() != width {
            return false;
        }
    }
    true
}

/// Whether all rows are narrow.
fn all_rows_narrow(rows: &[Vec<i128>]) -> bool
    ensures { IsTrue result → (k : ℕ) → k < length rows.now → AllNarrow (list_at rows.now k) }
{
    for place in 0..rows.len() {
        if !all_narrow(&rows[place]) {
            return false;
        }
    }
    true
}

/// Whether the program keeps the condition of a run.
fn is_program(program: &Program) -> bool
    ensures { IsTrue result → IsProgram program.now }
{
    let variables = program.goal.len();
    !program.limits.is_empty()
        && variables != 0
        && program.rows.len() == program.limits.len()
        && all_wide(&program.rows, variables)
        && none_negative(&program.limits)
        && all_rows_narrow(&program.rows)
        && all_narrow(&program.limits)
        && all_narrow(&program.goal)
}

/// What a run answers, and all that is then read.
#[derive(Debug, PartialEq, Drop)]
struct Report {
    end: End,
    primal: Vec<(i128, i128)>,
    dual: Vec<(i128, i128)>,
    prices: Vec<i128>,
    goal_lead: i128,
    basis: Vec<u32>,
}

/// The values of all own variables.
fn primals(alloc: Global, solver: &Solver, count: u32) -> Result<Vec<(i128, i128)>, AllocError>
    requires last { IsSome solver.now.last }
    requires count { IfSome solver.now.last (λ d. length d.out ≡ count) }
{
    let mut values = Vec::new(alloc);
    for i in 0..count {
        values.push(solver.primal(i))?;
    }
    Ok(values)
}

/// The multipliers of all rows.
fn duals(alloc: Global, solver: &Solver, count: u32) -> Result<Vec<(i128, i128)>, AllocError>
    requires last { IsSome solver.now.last }
    requires count { IfSome solver.now.last (λ d. length d.basic ≡ count) }
{
    let mut multipliers = Vec::new(alloc);
    for i in 0..count {
        multipliers.push(solver.dual(i))?;
    }
    Ok(multipliers)
}

/// The prices of all rows.
fn prices(alloc: Global, solver: &Solver, count: u32) -> Result<Vec<i128>, AllocError>
    requires last { IsSome solver.now.last }
    requires count { IfSome solver.now.last (λ d. length d.basic ≡ count) }
{
    let mut prices = Vec::new(alloc);
    for i in 0..count {
        prices.push(solver.price(i))?;
    }
    Ok(prices)
}

/// Runs the program if it keeps the conditions.
fn run_all(
    alloc: Global,
    solver: &mut Solver,
    program: &Program,
    pivots: u32,
) -> Result<Option<Report>, AllocError> {
    if program.limits.len() >= 1 << 30 || program.goal.len() >= 1 << 30 {
        return Ok(None);
    }
    let rows = program.limits.len() as u32;
    let variables = program.goal.len() as u32;
    if !is_program(program) || !solver.fits(rows, variables) {
        return Ok(None);
    }
    let end = solver.run(program, pivots);
    Ok(Some(Report {
        end,
        primal: primals(alloc, solver, variables)?,
        dual: duals(alloc, solver, rows)?,
        prices: prices(alloc, solver, rows)?,
        goal_lead: solver.goal_lead(),
        basis: Vec::from_slice(alloc, solver.basis())?,
    }))
}

/// Half of 1,024 is what two rows of one pay each leave to the first variable.
fn pennies(alloc: Global) -> Result<Program, AllocError> {
    Ok(Program {
        rows: vec![in alloc;
            vec![in alloc; 1, -1024, 0]?,
            vec![in alloc; 1, 0, -1024]?,
            vec![in alloc; 0, 1, 1]?,
        ]?,
        limits: vec![in alloc; 0, 0, 1]?,
        goal: vec![in alloc; 1024, 0, 0]?,
    })
}

#[test]
fn a_run_is_optimal_or_spent(rt: HostRuntime) -> Result<(), Fail> {
    let alloc = rt.alloc();
    let program = pennies(alloc)?;
    let mut solver = Solver::new(alloc);
    assert!(rt; !solver.fits(1, 1));
    solver.reserve(3, 3)?;
    assert!(rt; solver.fits(3, 3));
    assert!(rt; !solver.fits(4, 3));
    assert!(rt; solver.basis().is_empty());
    let optimal = run_all(alloc, &mut solver, &program, 400)?.expect(&rt, "it fits");
    assert_eq!(rt; optimal.end, End::Optimal);
    assert_eq!(rt;
        optimal.primal.as_slice(),
        [(512, 1), (1, 2), (1, 2)].as_slice()
    );
    assert_eq!(rt;
        optimal.dual.as_slice(),
        [(512, 1), (512, 1), (524288, 1)].as_slice()
    );
    assert_eq!(rt; optimal.prices.as_slice(), [512, 512, 524288].as_slice());
    assert_eq!(rt; optimal.goal_lead, 1);
    assert_eq!(rt; optimal.basis.as_slice(), [0, 1, 2].as_slice());
    let spent = run_all(alloc, &mut solver, &program, 1)?.expect(&rt, "it fits");
    assert_eq!(rt; spent.end, End::Spent);
    assert_eq!(rt; spent.basis.as_slice(), [0, 4, 5].as_slice());
    Ok(())
}

#[test]
fn a_run_of_a_smaller_program_is_unbounded_or_wide(rt: HostRuntime) -> Result<(), Fail> {
    let alloc = rt.alloc();
    let mut solver = Solver::new(alloc);
    solver.reserve(3, 3)?;
    let endless = Program {
        rows: vec![in alloc; vec![in alloc; -1]?]?,
        limits: vec![in alloc; 1]?,
        goal: vec![in alloc; 1]?,
    };
    let unbounded = run_all(alloc, &mut solver, &endless, 400)?.expect(&rt, "it fits");
    assert_eq!(rt; unbounded.end, End::Unbounded { col: 0 });
    let great = Program {
        rows: vec![in alloc; vec![in alloc; 4294967296, 1]?]?,
        limits: vec![in alloc; 1]?,
        goal: vec![in alloc; 1, 2147483648]?,
    };
    let wide = run_all(alloc, &mut solver, &great, 400)?.expect(&rt, "it fits");
    assert_eq!(rt; wide.end, End::Wide { row: 1, col: 3 });
    assert_eq!(rt; wide.basis.as_slice(), [2].as_slice());
    Ok(())
}
