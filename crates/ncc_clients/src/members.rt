//! The members of a cluster, as far as its clients are concerned.

/// Members that clients can be served by. It has no call: a definition of a run names what it says of them.
pub trait Members {
    ghost use Rattle.std.specs.Prelude.{ℕ, Bool, List};
    ghost use Rattle.ncc_tx.specs.declared.entry.Entry.{Entry};
    ghost use Rattle.ncc_tx.specs.declared.entry.Item.{Item};
    ghost use Rattle.ncc_clients.specs.Members.{Proposed};

    /// What each member has applied, member 1 first.
    ghost lists: { Self → List (List Item) };

    /// Whether a member leads.
    ghost leads: { Self → ℕ → Bool };

    /// Which core a member knows as leader, 0 for nobody.
    ghost leader: { Self → ℕ → ℕ };

    /// What becomes of an entry that is proposed at a member.
    ghost propose: { Self → ℕ → Entry → Proposed Self };

    /// What else they do.
    ghost moves: { Self → Self → Type 0 };

    /// A member, by its number, starts again.
    ghost restarts: { Self → ℕ → Self → Type 0 };
}
