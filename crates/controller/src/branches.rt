//! Whether the branches of a node or a point fit a game.

ghost use Rattle.game_model.specs.Branches.{AreBranches, AreRising, IsBranch, IsBranchBefore, branch_of};
ghost use Rattle.game_model.specs.Game.{numbers};
ghost use Rattle.std.specs.Bool.{IsTrue};
ghost use Rattle.std.specs.List.{AllByRecursion};
ghost use Rattle.std.specs.Prelude.{map, ◌↔◌};

use game_model::{Branch, Game};

/// Whether branches rise, and each is in range: it names one of so many members, by a weight of 1 to the most.
pub fn are_branches(game: &Game, members: u32, most: i128, branches: &[Branch]) -> bool
    ensures { IsTrue result ↔ AreBranches (numbers game.now) members most (map branch_of branches.now) }
{
    are_rising(branches) && are_in_range(game, members, most, branches)
}

/// Whether each branch is in range.
fn are_in_range(game: &Game, members: u32, most: i128, branches: &[Branch]) -> bool
    ensures { IsTrue result ↔
        AllByRecursion (λ b. IsBranch (numbers game.now) members most (branch_of b)) branches.now }
{
    for branch in branches {
        if !is_in_range(game, members, most, branch) {
            return false;
        }
    }
    true
}

/// Whether a branch is in range.
fn is_in_range(game: &Game, members: u32, most: i128, branch: &Branch) -> bool
    ensures { IsTrue result ↔ IsBranch (numbers game.now) members most (branch_of branch.now) }
{
    branch.a < game.own_actions()
        && branch.o < game.observations()
        && branch.k < members
        && 1 <= branch.weight
        && branch.weight <= most
}

/// Whether branches rise strictly by own action, observation and member.
fn are_rising(branches: &[Branch]) -> bool
    ensures { IsTrue result ↔ AreRising (map branch_of branches.now) }
{
    for i in 1..branches.len() {
        if !is_before(&branches[i - 1], &branches[i]) {
            return false;
        }
    }
    true
}

/// Whether a branch comes before another.
fn is_before(branch: &Branch, other: &Branch) -> bool
    ensures { IsTrue result ↔ IsBranchBefore (branch_of branch.now) (branch_of other.now) }
{
    branch.a < other.a
        || (branch.a == other.a
            && (branch.o < other.o || (branch.o == other.o && branch.k < other.k)))
}
