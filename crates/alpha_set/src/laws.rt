//! Laws of what nodes are worth at a mass, and of nodes that are changed.

ghost use Rattle.alpha_set.specs.Changes.{RaisedStand, RenamedStand, ReplacedFit};
ghost use Rattle.alpha_set.specs.Laws.{WorthsAreOne};

/// A law: nodes are worth one number at a mass, and one node is the first that has it.
pub fn law_worth()
    ensures { WorthsAreOne }
{}

/// A law: where all nodes stand, and one is replaced by a node that is nowhere lower and is at most what one stage of
/// it gives among the nodes as they were, all nodes stand. Steps of a node to itself are steps to what it was. Where
/// one is replaced by a node that fits, all nodes fit.
pub fn law_raised()
    ensures stand { RaisedStand }
    ensures fit { ReplacedFit }
{}

/// A law: where all nodes stand, and one node is nowhere lower than another, the steps of a node to the other may go to
/// the one, equal steps added: all nodes stand after it. Done for node after node, it renames all steps to the other.
pub fn law_renamed()
    ensures { RenamedStand }
{}
