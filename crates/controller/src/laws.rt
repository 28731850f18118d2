//! Laws of certificates: what the members of one that fits have, that it stands by the rules of its places, and that
//! members which are cut out stand.

ghost use Rattle.controller.specs.Cuts.{CutNodesFit, CutNodesStand, CutPointsFit, CutPointsStand};
ghost use Rattle.controller.specs.Export.{ExportsAreOne};
ghost use Rattle.controller.specs.Members.{MembersKeep, StandsByRules};

/// A law: what the members of every certificate that fits have. The mix of a node sums to the total of a mix, after
/// each own action and observation its steps have that action's weight, and steps name own actions, observations and
/// nodes. The mixes of a point sum to that total in each state, and shares name own actions, observations and points.
/// Entries and values keep to the span.
pub fn law_members()
    ensures { MembersKeep }
{}

/// A law: a certificate that fits stands exactly where the rule of each of its places holds.
pub fn law_places()
    ensures { StandsByRules }
{}

/// A law: the export of parts is one.
pub fn law_export()
    ensures one { ExportsAreOne }
{}

/// A law: where all members stand, those of a set that is closed under steps or shares stand under their new numbers,
/// which are how many of the set stand before them. Where all members fit, these fit.
pub fn law_cut()
    ensures nodes_stand { CutNodesStand }
    ensures nodes_fit { CutNodesFit }
    ensures points_stand { CutPointsStand }
    ensures points_fit { CutPointsFit }
{}
