//! Draws of whole numbers, each a function of the seed and of how many were made before it.
#![tactic(auto)]

ghost use Rattle.hsvi_draw.specs.Draws.{after_draws, draw_at, seeded};
ghost use Rattle.rand_pcg.specs.Lcg.{Lcg};
ghost use Rattle.std.specs.Prelude.{ℕ, ◌+◌, ◌≡◌, ◌≤◌};

use rand_core::SeedableRng;
use rand_core::utils::NextWord;
use rand_pcg::Lcg128Xsl64;
use std::marker::Model;

/// A source of draws. Clauses see its generator, which says all that will be drawn from now on.
#[derive(Debug, Drop)]
pub struct Draw {
    generator: Lcg128Xsl64,
}

impl Model for Draw {
    ghost use Rattle.rand_pcg.specs.Lcg.{Lcg};

    ghost Value = { Lcg };

    ghost view = { λ d. d.generator };
}

impl Draw {
    /// The draws of a seed, from the first on.
    pub fn new(seed: u64) -> Draw
        ensures { result ≡ seeded seed }
    {
        Draw {
            generator: Lcg128Xsl64::seed_from_u64(seed),
        }
    }

    /// The next number modulo `total`. A number has the generator's next word as its high half, and the word after
    /// that as its low half.
    pub fn below(&mut self, total: u128) -> u128
        requires { 1 ≤ total }
        ensures drawn { result ≡ draw_at self.old 0 total }
        ensures moved { self.new ≡ after_draws 1 self.old }
    {
        let high = u128::from(self.generator.next_word());
        let low = u128::from(self.generator.next_word());
        ((high << 64) | low) % total
    }
}

/// A law: draws after other draws are later draws of the same generator.
pub fn law_draws()
    ensures none { (g : Lcg) → after_draws 0 g ≡ g }
    ensures more { (g : Lcg) (k n : ℕ) → after_draws n (after_draws k g) ≡ after_draws (k + n) g }
    ensures later { (g : Lcg) (k n total : ℕ) → draw_at (after_draws k g) n total ≡ draw_at g (k + n) total }
{}
