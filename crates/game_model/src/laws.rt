//! Laws of plans, plays and pay, and of seed vectors, as functions that do nothing.

ghost use Rattle.game_model.specs.Laws.{AlwaysEarns, AlwaysEarnsFamily, AlwaysIsPlan, FirstStepsByParts, PayByFirstSteps, PlaysAreListed};
ghost use Rattle.game_model.specs.Laws.{PlaysAreLong, PlaysAreOnce, PlaysByFirstSteps, RowsAdd, RowsScale, RowsSum, WeightsOfPlays};
ghost use Rattle.game_model.specs.Mixed.{MixedAreRight, MixedPay, ScaledAreRight, ScaledPay};
ghost use Rattle.game_model.specs.Seeds.{SeedsAreOne, SeedsEarn, SeedsExist, SeedsStand};

/// A law: the list of plays holds just the plays, each once, and each of as many steps as there are stages.
pub fn law_plays()
    ensures listed { PlaysAreListed }
    ensures once { PlaysAreOnce }
    ensures long { PlaysAreLong }
{}

/// A law: a sum over all plays, or over all first steps, is a sum over their parts.
pub fn law_sums()
    ensures plays { PlaysByFirstSteps }
    ensures steps { FirstStepsByParts }
{}

/// A law: the weights of a row sum to the row total, and a sum over a row is linear.
pub fn law_rows()
    ensures sum { RowsSum }
    ensures add { RowsAdd }
    ensures scale { RowsScale }
{}

/// A law: the weights of all plays sum to a power of the row total times both plans' totals.
pub fn law_weights()
    ensures { WeightsOfPlays }
{}

/// A law: pay is a sum over the first steps.
pub fn law_pay()
    ensures { PayByFirstSteps }
{}

/// A law: always to play one action is a right plan of total 1, and it earns the vector that stands for it, less
/// the tail.
pub fn law_always()
    ensures plan { AlwaysIsPlan }
    ensures earns { AlwaysEarns }
{}

/// A law: the same for families, one plan of the informed player for each first state.
pub fn law_families()
    ensures { AlwaysEarnsFamily }
{}

/// A law: every action has a seed vector, and only one, which stands and lies within the span; and always to play the
/// action earns the vector's product with the first belief, less the tail.
pub fn law_seeds()
    ensures exist { SeedsExist }
    ensures one { SeedsAreOne }
    ensures stand { SeedsStand }
    ensures earn { SeedsEarn }
{}

/// A law: a plan with all weights times a number is a right plan, and pays that number to the power of the stages as
/// much; a draw among right plans of one total is a right plan, and pays the weighted sum of what they pay.
pub fn law_mixed()
    ensures scaled { ScaledAreRight }
    ensures scaled_pay { ScaledPay }
    ensures mixed { MixedAreRight }
    ensures mixed_pay { MixedPay }
{}
