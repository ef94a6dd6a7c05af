//! What becomes of an entry.

use crate::served::ProposedAt;

/// What becomes of an entry that is proposed at a member.
#[derive(Clone, Copy, Debug, PartialEq, Eq)]
pub(crate) enum Proposal {
    /// The member does not lead.
    Elsewhere,
    /// Its log has so many entries, as many as it may have.
    Full(u64),
    /// It stands there.
    Placed(ProposedAt),
}
