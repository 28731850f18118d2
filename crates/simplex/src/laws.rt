//! Laws of the textbook runs of all programs, and of what is read from their dictionaries.

ghost use Rattle.simplex.specs.Laws.{IsOfItsProgram, OneDictionary, OneDual, OneEnd, OnePrice, OnePrimal, OneRun, PrimalNotNegative, RowsStayKept, SameEnd, SameProgram, SameRun, StaysFeasible, StaysNarrow, UnboundedHasDirection};

/// A law: along a textbook run the lists of variables determine the dictionary, so a program has one run, which ends
/// in one way.
pub fn law_one_run()
    ensures dictionary { OneDictionary }
    ensures run { OneRun }
    ensures end { OneEnd }
{}

/// A law: each dictionary of a textbook run is one of its program, narrow and feasible, so the values that are read
/// from it are not negative and keep the rows.
pub fn law_each_dictionary()
    ensures program { IsOfItsProgram }
    ensures narrow { StaysNarrow }
    ensures feasible { StaysFeasible }
    ensures rows_kept { RowsStayKept }
{}

/// A law: where a textbook run ends unbounded, the own variables have a direction in which the goal grows without end.
pub fn law_direction()
    ensures { UnboundedHasDirection }
{}

/// A law: programs with the same numbers have the same textbook runs and ends, whatever memory their vectors have.
pub fn law_same_numbers()
    ensures program { SameProgram }
    ensures run { SameRun }
    ensures end { SameEnd }
{}

/// A law: a dictionary of a program has one primal value of each variable, and one price and one multiplier of each
/// row; and where it is feasible no primal value is negative.
pub fn law_readings()
    ensures primal { OnePrimal }
    ensures price { OnePrice }
    ensures dual { OneDual }
    ensures not_negative { PrimalNotNegative }
{}
