//! Why a request fails: the codes and the messages of FAILURE.

ghost use Rattle.std.specs.Prelude.{◌≡◌, ◌≢◌, ℕ, IfOk, IsTrue};
ghost use Rattle.ncc_pack.specs.Fits.{fits_text};
ghost use Rattle.ncc_session.specs.Refusals.{code_of, message_of};
ghost use Rattle.ncc_session.specs.declared.refusal.Halt.TheVariants.{Memory};

use ncc_pack::Text;
use ncc_store::RunFault;
use std::alloc::{AllocError, AllocFailed, Global};

/// Why a request fails.
#[derive(Clone, Copy, Debug, PartialEq, Eq)]
pub enum Refusal {
    /// Before HELLO comes another request.
    HelloExpected,
    /// The state has no such request.
    OutOfPlace,
    /// The login is wrong.
    Unauthorized,
    /// `mode` is neither "r" nor "w".
    BadMode,
    /// `bookmarks` is no list of texts.
    BadBookmarks,
    /// `db` is another database.
    NoDatabase,
    /// `imp_user` is given.
    Impersonation,
    /// There are more than 256 bookmarks.
    TooManyBookmarks,
    /// A text is no bookmark of this cluster.
    BadBookmark,
    /// The query is no statement.
    Syntax {
        /// The byte where it goes wrong.
        at: u64,
    },
    /// A statement writes in a reading transaction.
    AccessMode,
    /// `n` or `qid` is wrong.
    BadPull,
    /// The transaction has 1,000 steps.
    TooManySteps,
    /// The transaction's rows or its entry are too large.
    TooLarge,
    /// The member was not as far as the bookmarks in time.
    Late,
    /// The rows have changed.
    Stale,
    /// Another entry stands at the place.
    Replaced,
    /// The place was not applied in time.
    Unsure,
    /// The log is full.
    Full,
    /// The member does not lead.
    Elsewhere,
    /// The steps met a fault.
    Fault(RunFault),
}

/// Why a check gave nothing.
#[derive(Clone, Copy, Debug, PartialEq, Eq)]
pub enum Halt {
    /// The request fails.
    Refused(Refusal),
    /// Out of memory.
    Memory,
}

impl From<AllocError> for Halt {
    ghost from_gives = { λ _ h. h ≡ Memory };

    fn from(_e: AllocError) -> Halt {
        Halt::Memory
    }
}

impl<T: Drop> From<AllocFailed<T>> for Halt {
    ghost from_gives = { λ _ h. h ≡ Memory };

    fn from(_e: AllocFailed<T>) -> Halt {
        Halt::Memory
    }
}

fn fault_code(fault: RunFault) -> &'static str
    ensures { result.now ≡ code_of (Refusal.Fault fault) }
{
    match fault {
        RunFault::MissingParameter => "Neo.ClientError.Statement.ParameterMissing",
        RunFault::WrongKind => "Neo.ClientError.Statement.TypeError",
        RunFault::NullMerge => "Neo.ClientError.Statement.TypeError",
        RunFault::Overflow => "Neo.ClientError.Statement.ArithmeticError",
        RunFault::TooLong => "Neo.ClientError.Request.Invalid",
        RunFault::TooManyRows => "Neo.ClientError.Request.Invalid",
        RunFault::IdsSpent => "Neo.ClientError.Request.Invalid",
    }
}

fn fault_message(fault: RunFault) -> &'static str
    ensures { result.now ≡ message_of (Refusal.Fault fault) }
{
    match fault {
        RunFault::MissingParameter => "parameter missing",
        RunFault::WrongKind => "wrong kind",
        RunFault::NullMerge => "merge on null",
        RunFault::Overflow => "integer overflow",
        RunFault::TooLong => "text or row too long",
        RunFault::TooManyRows => "too many rows",
        RunFault::IdsSpent => "ids spent",
    }
}

/// The code of a FAILURE.
pub fn code(refusal: Refusal) -> &'static str
    ensures { result.now ≡ code_of refusal }
{
    match refusal {
        Refusal::HelloExpected => "Neo.ClientError.Request.Invalid",
        Refusal::OutOfPlace => "Neo.ClientError.Request.Invalid",
        Refusal::Unauthorized => "Neo.ClientError.Security.Unauthorized",
        Refusal::BadMode => "Neo.ClientError.Request.Invalid",
        Refusal::BadBookmarks => "Neo.ClientError.Request.Invalid",
        Refusal::NoDatabase => "Neo.ClientError.Database.DatabaseNotFound",
        Refusal::Impersonation => "Neo.ClientError.Request.Invalid",
        Refusal::TooManyBookmarks => "Neo.ClientError.Request.Invalid",
        Refusal::BadBookmark => "Neo.ClientError.Transaction.InvalidBookmark",
        Refusal::Syntax { .. } => "Neo.ClientError.Statement.SyntaxError",
        Refusal::AccessMode => "Neo.ClientError.Statement.AccessMode",
        Refusal::BadPull => "Neo.ClientError.Request.Invalid",
        Refusal::TooManySteps => "Neo.ClientError.Request.Invalid",
        Refusal::TooLarge => "Neo.ClientError.Request.Invalid",
        Refusal::Late => "Neo.TransientError.Transaction.BookmarkTimeout",
        Refusal::Stale => "Neo.TransientError.Transaction.Outdated",
        Refusal::Replaced => "Neo.TransientError.Cluster.ReplicationFailure",
        Refusal::Unsure => "Neo.TransientError.Cluster.ReplicationFailure",
        Refusal::Full => "Neo.TransientError.Cluster.ReplicationFailure",
        Refusal::Elsewhere => "Neo.ClientError.Cluster.NotALeader",
        Refusal::Fault(fault) => fault_code(fault),
    }
}

// The message of a FAILURE that names no place.
fn fixed_message(refusal: Refusal) -> &'static str
    requires names_none { (at : ℕ) → refusal ≢ Refusal.Syntax at }
    ensures { result.now ≡ message_of refusal }
{
    match refusal {
        Refusal::HelloExpected => "hello expected",
        Refusal::OutOfPlace => "request out of place",
        Refusal::Unauthorized => "login refused",
        Refusal::BadMode => "bad mode",
        Refusal::BadBookmarks => "bad bookmarks",
        Refusal::NoDatabase => "no such database",
        Refusal::Impersonation => "impersonation is not supported",
        Refusal::TooManyBookmarks => "too many bookmarks",
        Refusal::BadBookmark => "bad bookmark",
        Refusal::Syntax { .. } => unreachable!(),
        Refusal::AccessMode => "writing in a reading transaction",
        Refusal::BadPull => "bad pull",
        Refusal::TooManySteps => "too many steps",
        Refusal::TooLarge => "transaction too large",
        Refusal::Late => "bookmark not reached",
        Refusal::Stale => "rows have changed",
        Refusal::Replaced => "entry was replaced",
        Refusal::Unsure => "outcome unknown",
        Refusal::Full => "log is full",
        Refusal::Elsewhere => "not the leader",
        Refusal::Fault(fault) => fault_message(fault),
    }
}

fn syntax_message(alloc: Global, at: u64) -> Result<Text, AllocError>
    ensures exact { IfOk result (λ t. t ≡ message_of (Refusal.Syntax at)) }
    ensures fits { IfOk result (λ t. IsTrue (fits_text t)) }
{
    let text = format!(in alloc; "syntax error at {at}")?;
    Text::from_str(alloc, text.as_str())
}

/// The message of a FAILURE.
#[tactic(auto, using(crate::proofs::Spellable::fixed_fits))]
pub fn message(alloc: Global, refusal: Refusal) -> Result<Text, AllocError>
    ensures exact { IfOk result (λ t. t ≡ message_of refusal) }
    // It has a spelling.
    ensures fits { IfOk result (λ t. IsTrue (fits_text t)) }
{
    match refusal {
        Refusal::Syntax { at } => syntax_message(alloc, at),
        other => Text::from_str(alloc, fixed_message(other)),
    }
}
