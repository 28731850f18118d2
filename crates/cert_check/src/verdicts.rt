//! What the checker answers: the verdict, and the reason of a no.

/// Why a certificate does not stand: the first place at which it fails.
#[derive(Clone, Copy, Debug, PartialEq, Eq)]
pub enum Reason {
    /// The node rule fails.
    Node {
        /// The number of the node.
        i: u32,
        /// The state.
        s: u32,
        /// The informed action.
        c: u32,
    },
    /// The belief of a point that is to be sure of the state of its number is another one.
    Corner {
        /// The number of the point.
        j: u32,
    },
    /// The shares of a point do not make up its mass.
    Split {
        /// The number of the point.
        j: u32,
        /// The own action.
        a: u32,
        /// The observation.
        o: u32,
        /// The next state.
        s: u32,
    },
    /// One stage is worth more than the value of a point.
    Value {
        /// The number of the point.
        j: u32,
        /// The own action.
        a: u32,
    },
    /// The start points do not make up the multiple of the game's first belief.
    Start,
    /// The lower bound, the upper bound or the tail is another fraction than the starts and the span say.
    Bound,
    /// The outcome does not say whether the gap is within the tolerance.
    Outcome,
}

/// What the checker says of a certificate.
#[derive(Clone, Copy, Debug, PartialEq, Eq)]
pub enum Verdict {
    /// It stands.
    Yes,
    /// It does not stand, and fails first at this place.
    No(Reason),
}
