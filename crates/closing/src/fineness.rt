//! How finely rounds tell beliefs apart, and how many they visit: coarsely and few at first, so that one visit serves
//! many masses, and ever more finely and more of them. And whether they drop members: as long as the bounds come nearer
//! together, what the starts do not reach only takes time.

use game_model::MIX_TOTAL;

/// The total of the first grid.
const FIRST_GRID: i128 = 1_024;

/// The first distance within which beliefs are near: an eighth, where all parts together are 2^26.
const FIRST_NEAR: i64 = 1 << 23;

/// Where the distance is below this, rounds do not become finer by it.
const LEAST_NEAR: i64 = 1 << 10;

/// What of a mass's gap may be lost at first where corners are taken off it: a quarter, of 256.
const FIRST_LOSS: i128 = 64;

/// How many beliefs the first round visits at most.
const FIRST_BUDGET: u32 = 64;

/// How many beliefs a round visits at most.
const MOST_BUDGET: u32 = 400;

/// How finely a round tells beliefs apart.
#[derive(Clone, Copy)]
pub struct Fineness {
    /// The total that beliefs are rounded to, where theirs is greater.
    pub grid: i128,
    /// A belief whose parts differ from those of a point's by less than this in all is taken for the point's.
    pub near: i64,
    /// What of a mass's gap may be lost where corners are taken off it, of 256.
    pub loss: i128,
    /// How many beliefs are visited at most on the way from the first one.
    pub budget: u32,
    /// Whether members that the starts do not reach are dropped.
    pub drops: bool,
}

impl Fineness {
    /// That of the first round.
    pub fn coarse() -> Fineness {
        Fineness {
            grid: FIRST_GRID,
            near: FIRST_NEAR,
            loss: FIRST_LOSS,
            budget: FIRST_BUDGET,
            drops: true,
        }
    }

    /// Whether no later round tells beliefs apart more finely by much.
    pub fn is_finest(&self) -> bool {
        self.grid >= MIX_TOTAL && self.near < LEAST_NEAR && self.loss == 0
    }

    /// That of the round after one that brought the bounds much nearer together, or did not.
    pub fn finer(&self, gained: bool) -> Fineness {
        let budget = (self.budget.saturating_mul(5) / 4).min(MOST_BUDGET);
        if gained {
            Fineness {
                grid: self.grid,
                near: self.near - self.near / 4,
                loss: self.loss,
                budget,
                drops: true,
            }
        } else {
            Fineness {
                grid: self.grid.saturating_mul(2).min(MIX_TOTAL),
                near: self.near / 4,
                loss: self.loss / 2,
                budget,
                drops: false,
            }
        }
    }
}
