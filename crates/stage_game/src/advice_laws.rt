//! Laws of advice, and of the runs that it is read from.

ghost use Rattle.stage_game.specs.AdviceLaws.{LowerIsBounded, OneLowerAdvice, OneUpperAdvice, UpperIsBounded};

/// A law: a stage program gives one advice.
pub fn law_one_advice()
    ensures lower { OneLowerAdvice }
    ensures upper { OneUpperAdvice }
{}

/// A law: no run of a stage program ends unbounded.
pub fn law_bounded()
    ensures lower { LowerIsBounded }
    ensures upper { UpperIsBounded }
{}
