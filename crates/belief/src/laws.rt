//! Laws of beliefs: numbers have one form in lowest terms, and a mass has one belief.

ghost use Rattle.belief.specs.Laws.{LowestAreOne, ReducedAreOne};

/// A law: numbers that are not all zero have one form in lowest terms, and a mass that is not zero has one belief.
pub fn law_reduced()
    ensures lowest { LowestAreOne }
    ensures reduced { ReducedAreOne }
{}
