//! A search by single visits.

ghost use Rattle.controller.specs.Certificates.{IsGap};
ghost use Rattle.controller.specs.Data.{ending_of, fraction_data};
ghost use Rattle.hsvi_trial.specs.Data.{EndsWith, IsFinished, IsSearch, solved_data, start_data};
ghost use Rattle.hsvi_trial.specs.Laws.{IsRunFront, most_visits};
ghost use Rattle.hsvi_trial.specs.Run.{IsSolveRun, most_trials};
ghost use Rattle.hsvi_trial.specs.Sets.{AreSeedSets, AreStanding};
ghost use Rattle.hsvi_trial.specs.Starts.{IsStart};
ghost use Rattle.hsvi_trial.specs.declared.visits.Visit.{Visit as VisitParts};
ghost use Rattle.std.specs.Prelude.{IfOk, OnErr, OnOk, [], false, length, ◌*◌, ◌++◌, ◌∷◌, ◌≡◌, ◌≤◌};

use crate::choices::look_on;
use crate::copies::{back_after, copy_visit};
use crate::courses::Course;
use crate::ends::{end_of, outcome};
use crate::memory::{Memory, remember_lower, remember_upper};
use crate::solving::Solved;
use crate::starts::{StartOf, are_closed, start_of};
use crate::visiting::{keep, make};
use crate::visits::Visit;
use alpha_set::{MOST_NODES, NodeSet};
use backup::{reserve_solver, seed};
use controller::Outcome;
use game_model::{Game, law_game};
use point_set::{MOST_POINTS, PointSet};
use scaled_num::Fraction;
use simplex::Solver;
use std::alloc::{AllocError, Global};
use std::marker::Model;

/// What a step did.
#[derive(Debug, Drop)]
pub enum Progress {
    /// It made the next visit.
    Visited,
    /// The run has no further visit.
    Ended(Outcome),
}

/// A search by single visits: sets, the journal of the visits that filled them, and where the next one is made.
#[derive(Drop)]
pub struct Search<'g> {
    alloc: Global,
    game: &'g Game,
    trials: u32,
    gap: Fraction,
    solver: Solver,
    nodes: NodeSet,
    points: PointSet,
    journal: Vec<Visit>,
    course: Course,
    /// Whether the last visit was cut.
    cut: bool,
    /// What the last visits made.
    memory: Memory,
    /// How many visits back the next one stands already; 0 where it is to be made.
    back: usize,
}

impl<'g> Model for Search<'g> {
    ghost use Rattle.controller.specs.Data.{fraction_data};
    ghost use Rattle.hsvi_trial.specs.Data.{SearchState, search_state};
    ghost use Rattle.hsvi_trial.specs.Held.{IsHeld};
    ghost use Rattle.hsvi_trial.specs.Remembered.{IsMemory};
    ghost use Rattle.hsvi_trial.specs.Repeats.{Repeats};

    ghost Value = { SearchState };

    ghost view = { λ s. search_state s.game.now s.trials (fraction_data s.gap) s.nodes s.points s.journal.items s.cut };

    ghost invariant = { λ s.
        IsHeld (search_state s.game.now s.trials (fraction_data s.gap) s.nodes s.points s.journal.items s.cut)
        s.course s.solver
        × IsMemory s.game.now s.nodes.members s.points.members s.memory
        × Repeats s.journal.items s.course s.back };
}

impl<'g> Search<'g> {
    /// A search that holds the seeds and no visit, of at most so many trials, until the bounds are within the gap.
    ///
    /// # Errors
    ///
    /// Where no memory is to be had.
    pub fn new(
        alloc: Global,
        game: &'g Game,
        trials: u32,
        gap: &Fraction,
    ) -> Result<Search<'g>, AllocError>
        requires trials { trials ≤ most_trials }
        requires gap { IsGap (fraction_data gap.now) }
        ensures task { IfOk result (λ search.
            search.task ≡ record { game = game.now; trials = trials; gap = fraction_data gap.now }) }
        ensures seeds { IfOk result (λ search. AreSeedSets game.now search.sets) }
        ensures none { IfOk result (λ search. search.journal ≡ []) }
        ensures uncut { IfOk result (λ search. search.cut ≡ false) }
    {
        law_game(game);
        let (nodes, points) = seed(alloc, game)?;
        prove!(nodes.len() as usize <= MOST_NODES);
        prove!(points.len() as usize <= MOST_POINTS);
        let mut solver = Solver::new(alloc);
        reserve_solver(&mut solver, game)?;
        let memory = Memory::new(alloc)?;
        Ok(Search {
            alloc,
            game,
            trials,
            gap: *gap,
            solver,
            nodes,
            points,
            journal: Vec::new(alloc),
            course: Course::new(game),
            cut: false,
            memory,
            back: 0,
        })
    }

    /// The number of visits.
    pub fn visits(&self) -> u32
        ensures count { result ≡ length self.now.journal }
        ensures few { result ≤ self.now.task.trials * most_visits }
        ensures kept { IsSearch self.now }
        ensures front { IsRunFront self.now.task self.now.sets self.now.journal }
    {
        law_game(self.game);
        self.journal.len() as u32
    }

    /// Makes the next visit, or tells how the run ended. What the search then holds is a front of what every run of
    /// solve for this game, budget and gap answers.
    ///
    /// # Errors
    ///
    /// Where no memory is to be had. Sets and journal are then as before, and a later step makes the same visit.
    pub fn step(&mut self) -> Result<Progress, AllocError>
        ensures task { self.new.task ≡ self.old.task }
        ensures visited { result ≡ Ok Progress.Visited →
            (visit : VisitParts) × (self.new.journal ≡ self.old.journal ++ visit ∷ []) }
        ensures ended { (outcome : Outcome) → result ≡ Ok (Progress.Ended outcome) →
            (self.new ≡ self.old) × EndsWith self.old (ending_of outcome) }
        ensures unchanged { OnErr result (self.new ≡ self.old) }
        ensures front { IsRunFront self.new.task self.new.sets self.new.journal }
    {
        let progress = self.advance();
        let _visits = self.visits();
        progress
    }

    /// Makes the next visit, or tells how the run ended.
    fn advance(&mut self) -> Result<Progress, AllocError>
        ensures task { self.new.task ≡ self.old.task }
        ensures visited { result ≡ Ok Progress.Visited →
            (visit : VisitParts) × (self.new.journal ≡ self.old.journal ++ visit ∷ []) }
        ensures ended { (outcome : Outcome) → result ≡ Ok (Progress.Ended outcome) →
            (self.new ≡ self.old) × EndsWith self.old (ending_of outcome) }
        ensures unchanged { OnErr result (self.new ≡ self.old) }
    {
        law_game(self.game);
        let begins = self.course.begins(self.journal.len());
        if let Some(outcome) = end_of(
            self.game,
            self.trials,
            &self.gap,
            &self.nodes,
            &self.points,
            self.cut,
            begins,
            self.course.trial,
        ) {
            return Ok(Progress::Ended(outcome));
        }
        if self.back > 0 {
            copy_visit(self.game, &mut self.journal, &mut self.course, self.back)?;
            return Ok(Progress::Visited);
        }
        let place = self.course.place(&self.journal);
        let made = make(
            self.alloc,
            &mut self.solver,
            self.game,
            &place.belief,
            &mut self.nodes,
            &mut self.points,
            &mut self.journal,
            &mut self.memory,
        )?;
        let kept = keep(
            self.game,
            &mut self.nodes,
            &mut self.points,
            &place.belief,
            made.node,
            made.point,
        );
        let look = look_on(
            self.game,
            &self.gap,
            &self.nodes,
            &self.points,
            &place.belief,
            place.depth,
            place.goes_down(kept.cut),
            &made.lower.informed,
            &made.upper.own,
        );
        remember_lower(
            &mut self.memory.lower,
            self.game,
            &place.belief,
            place.depth,
            &self.nodes,
            made.lower,
            kept.left_node,
        );
        remember_upper(
            &mut self.memory.upper,
            self.game,
            &place.belief,
            place.depth,
            &self.points,
            made.upper,
            kept.left_point,
        );
        let trial = self.course.trial;
        let count = self.journal.len() + 1;
        let after = self.course.after(self.game, place.depth, count, look.next);
        self.cut = kept.cut;
        self.journal.push_reserved(Visit {
            trial,
            depth: place.depth,
            belief: place.belief,
            down: place.down,
            node: kept.node,
            point: kept.point,
            chosen: look.chosen,
        });
        self.back = back_after(&self.course, &self.journal);
        self.course = after;
        Ok(Progress::Visited)
    }

    /// The start of the sets of a search that has ended.
    ///
    /// # Errors
    ///
    /// Where no memory is to be had.
    pub fn finish(&self) -> Result<StartOf, AllocError>
        requires ended { IsFinished self.now }
        ensures start { IfOk result (λ start. IsStart self.now.task.game self.now.sets (start_data start)) }
    {
        law_game(self.game);
        start_of(self.alloc, self.game, &self.nodes, &self.points)
    }

    /// What a search that has ended found, with the start of its sets. It takes no memory.
    pub fn take(self, start: StartOf) -> Solved
        requires ended { IsFinished self }
        requires start { IsStart self.task.game self.sets (start_data start) }
        ensures run { IsSolveRun self.entry.task (solved_data result) }
        ensures standing { AreStanding self.entry.task.game (solved_data result).sets }
    {
        law_game(self.game);
        let closed = are_closed(self.game, &self.nodes, &self.points, &self.gap);
        let outcome = outcome(closed, self.cut);
        Solved {
            nodes: self.nodes,
            points: self.points,
            start_node: start.start_node,
            start_points: start.start_points,
            multiple: start.multiple,
            outcome,
            journal: self.journal,
        }
    }
}
