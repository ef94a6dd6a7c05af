//! How a wait may stand.

/// What becomes of a wait for a place.
#[derive(Clone, Copy, Debug, PartialEq, Eq)]
pub enum Outcome {
    /// The place is reached.
    Ready,
    /// The place is not reached, and the deadline has not passed.
    NotYet,
    /// The place is not reached, and the deadline has passed.
    Late,
}
