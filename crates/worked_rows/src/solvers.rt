//! The reserve of a solver for the largest stage program.

use simplex::Solver;

/// The rows of the largest stage program without its goal row, and its variables: with the goal row, the leads and
/// the constants it is a dictionary of 1,250 rows and 792 columns.
pub const MOST_ROWS: u32 = 1249;

pub const MOST_VARIABLES: u32 = 790;

#[test]
fn the_largest_stage_program_is_reserved(rt: HostRuntime) {
    let mut solver = Solver::new(rt.alloc());
    assert!(rt; !solver.fits(1, 1));
    assert!(rt; matches!(solver.reserve(MOST_ROWS, MOST_VARIABLES), Ok(())));
    assert!(rt; solver.fits(MOST_ROWS, MOST_VARIABLES));
    assert!(rt; solver.fits(1, MOST_VARIABLES));
    assert!(rt; !solver.fits(MOST_ROWS + 1, MOST_VARIABLES));
    assert!(rt; !solver.fits(MOST_ROWS, MOST_VARIABLES + 1));
    assert!(rt; !solver.fits(0, 1));
}
