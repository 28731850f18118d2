//! Pairs of numbers, so that what runs over two numbers is one loop.

ghost use Rattle.scaled_num.specs.Sums.{below};
ghost use Rattle.stage_game.specs.Pairs.{pairs};
ghost use Rattle.std.specs.Prelude.{IfOk, OnOk, map, ◌++◌, ◌≡◌, ◌≤◌};

use std::alloc::{AllocError, Global};

/// All pairs of a first number and a second one below these counts, in order, the second one running faster.
pub fn all_pairs(alloc: Global, firsts: u32, seconds: u32) -> Result<Vec<(u32, u32)>, AllocError>
    requires firsts { firsts ≤ 16 }
    requires seconds { seconds ≤ 16 }
    ensures { IfOk result (λ made. made.items ≡ pairs firsts seconds) }
{
    let mut made = Vec::with_capacity(alloc, firsts as usize * seconds as usize)?;
    for first in 0..firsts {
        push_pairs(first, seconds, &mut made)?;
    }
    Ok(made)
}

/// Pushes the pairs with this first number.
fn push_pairs(first: u32, seconds: u32, made: &mut Vec<(u32, u32)>) -> Result<(), AllocError>
    ensures { OnOk result (made.new.items ≡ made.old.items ++ map (λ j. (first, j)) (below seconds)) }
{
    for second in 0..seconds {
        made.push((first, second))?;
    }
    Ok(())
}
