//! Numbers chosen out of lists of preference, each once, and put in order.

ghost use Rattle.stage_game.specs.Chosen.{downwards, risen};
ghost use Rattle.stage_game.specs.Preferred.{GoesOn};
ghost use Rattle.std.specs.Prelude.{IfOk, OnOk, [], take, ◌++◌, ◌∷◌, ◌≡◌};

use std::alloc::{AllocError, Global};

/// The numbers below a count that are among these, by rising number.
pub fn risen(alloc: Global, count: u32, numbers: &[u32]) -> Result<Vec<u32>, AllocError>
    ensures { IfOk result (λ found. found.items ≡ risen count numbers.now) }
{
    let mut found = Vec::with_capacity(alloc, numbers.len())?;
    for k in 0..count {
        if numbers.contains(&k) {
            found.push(k)?;
        }
    }
    Ok(found)
}

/// Adds the number that is preferred next, unless so many are chosen or it is there.
pub fn prefer(kept: &mut Vec<u32>, most: usize, k: u32) -> Result<(), AllocError>
    ensures { OnOk result (GoesOn most (k ∷ []) kept.old.items kept.new.items) }
{
    if kept.len() >= most {
        return Ok(());
    }
    if kept.contains(&k) {
        return Ok(());
    }
    kept.push(k)?;
    Ok(())
}

/// Adds the numbers below a count, from the last one downwards, as far as so many are chosen.
pub fn prefer_downwards(kept: &mut Vec<u32>, most: usize, count: u32) -> Result<(), AllocError>
    ensures { OnOk result (GoesOn most (downwards count) kept.old.items kept.new.items) }
{
    for i in 0..count {
        prefer(kept, most, count - 1 - i)?;
    }
    Ok(())
}

/// Pushes the last numbers below a count, from the last one downwards, at most so many.
pub fn push_last(kept: &mut Vec<u32>, most: u32, count: u32) -> Result<(), AllocError>
    ensures { OnOk result (kept.new.items ≡ kept.old.items ++ take most (downwards count)) }
{
    let few = count.min(most);
    for i in 0..few {
        kept.push(count - 1 - i)?;
    }
    Ok(())
}
