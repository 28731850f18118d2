//! Members of a set that are found, one after the other.

ghost use Rattle.controller.specs.Reached.{FindsAlso, IsFound, IsListed, members_of, starts_of};
ghost use Rattle.game_model.specs.Branches.{branch_of};
ghost use Rattle.std.specs.List.{AllByRecursion};
ghost use Rattle.std.specs.Prelude.{IfOk, OnOk, false, length, map, replicate, ◌<◌, ◌≡◌, ◌≤◌};

use game_model::Branch;
use std::alloc::{AllocError, Global};

/// The members that are found: a flag for each member of a set, and the numbers of those found, each once and in the
/// order in which they were found.
#[derive(Drop)]
pub struct Found {
    /// Whether each member is found.
    pub flags: Vec<bool>,
    /// The members found.
    pub numbers: Vec<u32>,
}

impl Found {
    /// None of so many members.
    ///
    /// # Errors
    ///
    /// Where no memory is to be had.
    pub fn none(alloc: Global, count: u32) -> Result<Found, AllocError>
        ensures flags { IfOk result (λ found. found.flags.items ≡ replicate count false) }
        ensures found { IfOk result IsFound }
    {
        Ok(Found {
            flags: vec![in alloc; false; count as usize]?,
            numbers: Vec::with_capacity(alloc, count as usize)?,
        })
    }

    /// Finds a member.
    fn add(&mut self, j: u32) -> Result<(), AllocError>
        requires found { IsFound self.old }
        requires inside { j < length self.old.flags.items }
        ensures { OnOk result (FindsAlso self.old self.new (λ i. i ≡ j)) }
    {
        if self.flags[j as usize] {
            return Ok(());
        }
        self.flags[j as usize] = true;
        self.numbers.push(j)?;
        Ok(())
    }

    /// Finds the first members, so many of them.
    pub fn add_first(&mut self, count: u32) -> Result<(), AllocError>
        requires found { IsFound self.old }
        requires inside { count ≤ length self.old.flags.items }
        ensures { OnOk result (FindsAlso self.old self.new (λ i. i < count)) }
    {
        for j in 0..count {
            self.add(j)?;
        }
        Ok(())
    }

    /// Finds the members at which starts are.
    pub fn add_starts(&mut self, starts: &[(u32, i128)]) -> Result<(), AllocError>
        requires found { IsFound self.old }
        requires inside { AllByRecursion (λ start. start.0 < length self.old.flags.items) starts.now }
        ensures { OnOk result (FindsAlso self.old self.new (IsListed (starts_of starts.now))) }
    {
        for start in starts {
            self.add(start.0)?;
        }
        Ok(())
    }

    /// Finds the members that branches name.
    pub fn add_named(&mut self, branches: &[Branch]) -> Result<(), AllocError>
        requires found { IsFound self.old }
        requires inside { AllByRecursion (λ b. b.k < length self.old.flags.items) branches.now }
        ensures { OnOk result (FindsAlso self.old self.new (IsListed (members_of (map branch_of branches.now)))) }
    {
        for branch in branches {
            self.add(branch.k)?;
        }
        Ok(())
    }
}
