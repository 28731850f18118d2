//! Where a search goes on: down a trial at a belief, or back by the beliefs of its way down.

ghost use Rattle.hsvi_trial.specs.Courses.{BeginsTrial, HasPlace, IsPlace, course_after};
ghost use Rattle.hsvi_trial.specs.Run.{most_trials};
ghost use Rattle.std.specs.Bool.{IsTrue};
ghost use Rattle.std.specs.Prelude.{length, not, ◌&&◌, ◌<◌, ◌^◌, ◌↔◌, ◌≡◌, ◌≤◌};

use crate::visits::Visit;
use belief::Belief;
use game_model::Game;

/// Where the next visit is made.
#[derive(Drop)]
pub enum Next {
    /// On the way down, at this belief.
    Down(Belief),
    /// On the way back, of which so many visits are ahead.
    Back(usize),
}

/// How far a search has come with its trials.
#[derive(Drop)]
pub struct Course {
    /// The number of the trial under way, or of the next one where none is.
    pub trial: u32,
    /// How many visits the trials before it have.
    pub first: usize,
    pub next: Next,
}

/// The place of a visit.
#[derive(Drop)]
pub struct Place {
    pub depth: u32,
    pub belief: Belief,
    pub down: bool,
}

impl Place {
    /// Whether a visit may look for where to go on: on a way down, where it is not cut.
    pub fn goes_down(&self, cut: bool) -> bool
        ensures { result ≡ (self.now.down && not cut) }
    {
        self.down && !cut
    }
}

impl Course {
    /// The course of a search without a visit: the first trial begins at the first belief.
    pub fn new(game: &Game) -> Course
        ensures trial { result.trial ≡ 0 }
        ensures first { result.first ≡ 0 }
        ensures next { result.next ≡ Next.Down game.now.first }
    {
        Course {
            trial: 0,
            first: 0,
            next: Next::Down(Belief::first_of(game)),
        }
    }

    /// Whether the next visit begins a trial, after so many visits.
    pub fn begins(&self, count: usize) -> bool
        ensures { IsTrue result ↔ BeginsTrial count self.now.first self.now.next }
    {
        match &self.next {
            Next::Down(_) => self.first == count,
            Next::Back(_) => false,
        }
    }

    /// The place of the next visit.
    pub fn place(&self, journal: &[Visit]) -> Place
        requires few { length journal.now < 2 ^ 32 }
        requires place { HasPlace (length journal.now) self.now.first self.now.next }
        ensures { IsPlace journal.now self.now.first self.now.next result }
    {
        match &self.next {
            Next::Down(belief) => Place {
                depth: (journal.len() - self.first) as u32,
                belief: belief.copied(),
                down: true,
            },
            Next::Back(ahead) => {
                let visit = &journal[self.first + *ahead - 1];
                Place {
                    depth: visit.depth,
                    belief: visit.belief.copied(),
                    down: false,
                }
            }
        }
    }

    /// The course after a visit at a depth: on the way down it goes on to the next belief, and without one it turns.
    /// Behind a whole trial, with so many visits in all, the next one begins.
    pub fn after(&self, game: &Game, depth: u32, count: usize, next: Option<Belief>) -> Course
        requires trial { self.now.trial ≤ most_trials }
        requires place { HasPlace count self.now.first self.now.next }
        ensures { result ≡ course_after game.now self.now depth count next }
    {
        match (&self.next, next) {
            (Next::Down(_), Some(belief)) => self.with(Next::Down(belief)),
            (Next::Down(_), None) => self.with(Next::Back(depth as usize + 1)),
            (Next::Back(1), _) => Course {
                trial: self.trial + 1,
                first: count,
                next: Next::Down(Belief::first_of(game)),
            },
            (Next::Back(ahead), _) => self.with(Next::Back(*ahead - 1)),
        }
    }

    /// The same trial, with another next visit.
    fn with(&self, next: Next) -> Course
        ensures { result ≡ record { trial = self.now.trial; first = self.now.first; next = next } }
    {
        Course {
            trial: self.trial,
            first: self.first,
            next,
        }
    }
}
