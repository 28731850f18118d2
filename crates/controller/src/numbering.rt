//! New numbers for the members of a set that are kept.

ghost use Rattle.controller.specs.Export.{new_number};
ghost use Rattle.controller.specs.Reached.{flag_at};
ghost use Rattle.game_model.specs.Limits.{most_members};
ghost use Rattle.std.specs.Prelude.{IfOk, length, ◌<◌, ◌≡◌, ◌≤◌};

use std::alloc::{AllocError, Global};
use std::marker::Model;

/// Which members of a set are kept, and the new number of each: how many kept ones stand before it.
#[derive(Drop)]
pub struct Numbering {
    kept: Vec<bool>,
    numbers: Vec<u32>,
}

impl Model for Numbering {
    ghost use Rattle.controller.specs.Reached.{new_numbers};
    ghost use Rattle.std.specs.Prelude.{Bool, List, ◌≡◌};

    ghost Value = { List Bool };

    ghost view = { λ numbering. numbering.kept.items };

    ghost invariant = { λ numbering. numbering.numbers.items ≡ new_numbers numbering.kept.items };
}

impl Numbering {
    /// The numbering that keeps these members.
    ///
    /// # Errors
    ///
    /// Where no memory is to be had.
    pub fn of(alloc: Global, kept: Vec<bool>) -> Result<Numbering, AllocError>
        requires { length kept.items ≤ most_members }
        ensures { IfOk result (λ numbering. numbering ≡ kept.items) }
    {
        let mut numbers = Vec::with_capacity(alloc, kept.len())?;
        let mut count = 0;
        for keep in &kept {
            numbers.push(count)?;
            count += u32::from(*keep);
        }
        Ok(Numbering { kept, numbers })
    }

    /// Whether a member is kept.
    pub fn keeps(&self, j: u32) -> bool
        requires { j < length self.now }
        ensures { result ≡ flag_at self.now j }
    {
        self.kept[j as usize]
    }

    /// The new number of a member.
    pub fn number(&self, j: u32) -> u32
        requires { j < length self.now }
        ensures { result ≡ new_number (flag_at self.now) j }
    {
        self.numbers[j as usize]
    }
}
