//! Places in the tables of matching, which have room for the largest game, and which beliefs are a game's.

ghost use Rattle.stage_game.specs.Asked.{BeliefFits};
ghost use Rattle.std.specs.Bool.{IsTrue};
ghost use Rattle.std.specs.Prelude.{length, ◌<◌, ◌≡◌};

use belief::Belief;
use game_model::{Game, law_game};

/// How many actions a player has at most.
pub const OWN_PLACES: usize = 6;

/// A weight for each action of a player.
pub type Weights = [i128; OWN_PLACES];

/// How many observations there are at most.
pub const SEEN_PLACES: usize = 8;

/// How many pairs of an own action and an observation there are at most.
pub const PAIRS: usize = 48;

/// How many of these pairs with a next state there are at most.
pub const ENDS: usize = 768;

/// The place of an own action and an observation.
pub fn pair_place(game: &Game, a: u32, o: u32) -> usize
    requires own { a < game.now.shape.own_actions }
    requires seen { o < game.now.shape.observations }
    ensures { result < 48 }
{
    law_game(game);
    a as usize * 8 + o as usize
}

/// The place of a pair and a next state.
pub fn end_place(pair: usize, to: usize) -> usize
    requires pair { pair < 48 }
    requires to { to < 16 }
    ensures { result < 768 }
{
    pair * 16 + to
}

/// Adds to the number of a place, where there is such a place.
pub fn add_at(numbers: &mut [i128], place: u32, more: i128)
    ensures { length numbers.new ≡ length numbers.old }
{
    if (place as usize) < numbers.len() {
        numbers[place as usize] = numbers[place as usize].saturating_add(more);
    }
}

/// Whether a belief has a weight for each state of a game.
pub fn is_of_game(game: &Game, belief: &Belief) -> bool
    ensures { IsTrue result → BeliefFits game.now belief.now }
{
    belief.parts().len() == game.states() as usize
}
