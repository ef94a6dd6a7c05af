//! How a replay ends.

ghost use Rattle.std.specs.Prelude.{◌≡◌, ◌++◌, IfOk, codes, decimal};
ghost use Rattle.ncc_replay.specs.StatusText.{number_of_status, text_of_cause, text_of_limit, text_of_status, notice};

use itoa::Buffer;
use ncc_pack::Text;
use ncc_world::Which;
use std::alloc::{AllocError, Global};
use std::error::Error;
use std::fmt;

/// Why a line of a script is refused.
#[derive(Clone, Copy, Debug, PartialEq, Eq)]
pub enum Cause {
    /// The first line that is read is not the header.
    NoHeader,
    /// The line behind the header says no cluster.
    NoCluster,
    /// The first word is no verb.
    UnknownVerb,
    /// The words behind the verb have not its form.
    BadLine,
    /// A word that should be a bookmark of this cluster is none.
    BadBookmark,
    /// The verb belongs to the other kind of cluster.
    WrongWorld,
    /// No member has this number.
    NoMember,
    /// No connection has this number.
    NoConn,
    /// No message has this number.
    NoMessage,
    /// No session has this number.
    NoSession,
    /// The member is of the wrong kind.
    WrongRole,
    /// The moment is before the last one.
    BackInTime,
    /// The session is at work.
    Busy,
}

impl fmt::Display for Cause {
    fn fmt<W: fmt::Write>(&self, f: &mut fmt::Formatter<W>) -> fmt::Result {
        f.write_str(cause_text(*self))
    }
}

impl Error for Cause {}

/// How a replay ended.
#[derive(Clone, Copy, Debug, PartialEq, Eq)]
pub enum Status {
    /// The script was run, and its report written.
    Done,
    /// The words of the command line have no meaning.
    BadWords,
    /// The script's first line that is not accepted, numbered from 1, and why.
    BadScript { line: u64, cause: Cause },
    /// The source failed.
    ReadFault,
    /// The sink failed; a prefix of the report may have been written.
    WriteFault,
    /// The script passes a limit.
    Limit { which: Which },
    /// There was no memory.
    Memory,
}

/// The exit status of the program: 0 where the replay was done, and 2 to 7 otherwise. It takes no memory.
pub fn status_number(status: &Status) -> u8
    ensures number { result ≡ number_of_status status.now }
{
    match status {
        Status::Done => 0,
        Status::BadWords => 2,
        Status::BadScript { .. } => 3,
        Status::ReadFault => 4,
        Status::WriteFault => 5,
        Status::Limit { .. } => 6,
        Status::Memory => 7,
    }
}

// Why a line is refused, in words.
#[tactic(auto, unfolding(crate::specs::StatusText::text_of_cause))]
fn cause_text(cause: Cause) -> &'static str
    ensures { result.now ≡ text_of_cause cause }
{
    match cause {
        Cause::NoHeader => "header expected",
        Cause::NoCluster => "cluster expected",
        Cause::UnknownVerb => "unknown verb",
        Cause::BadLine => "bad line",
        Cause::BadBookmark => "bad bookmark",
        Cause::WrongWorld => "not in this world",
        Cause::NoMember => "no such member",
        Cause::NoConn => "no such connection",
        Cause::NoMessage => "no such message",
        Cause::NoSession => "no such session",
        Cause::WrongRole => "wrong kind of member",
        Cause::BackInTime => "time goes back",
        Cause::Busy => "work is running",
    }
}

// The name of a limit.
#[tactic(auto, unfolding(crate::specs::StatusText::text_of_limit))]
fn which_text(which: Which) -> &'static str
    ensures { result.now ≡ text_of_limit which }
{
    match which {
        Which::Events => "events",
        Which::Messages => "messages",
        Which::MessageBytes => "message bytes",
        Which::Line => "line",
        Which::Script => "script",
    }
}

// A line with two texts behind the name of the program.
#[tactic(auto, using(std::proofs::lemmas::List::append_assoc))]
fn notice_text(alloc: Global, front: &str, back: &str) -> Result<Text, AllocError>
    ensures { IfOk result (λ t. t ≡ notice (front.now ++ back.now)) }
{
    let mut text = Text::from_str(alloc, "ncc_replay: ")?;
    text.push_str(front)?;
    text.push_str(back)?;
    text.push_str("\n")?;
    Ok(text)
}

// Which line is refused.
#[tactic(auto, using(std::proofs::lemmas::List::append_assoc))]
fn line_text(alloc: Global, line: u64) -> Result<Text, AllocError>
    ensures { IfOk result (λ t. t ≡ codes "line " ++ (decimal line ++ codes ": ")) }
{
    let mut buffer = Buffer::new();
    let mut text = Text::from_str(alloc, "line ")?;
    text.push_str(buffer.format(line))?;
    text.push_str(": ")?;
    Ok(text)
}

/// One line that says how the replay ended, with its LF; the empty text where it was done.
#[tactic(auto, using(std::proofs::lemmas::List::append_assoc), unfolding(crate::specs::StatusText::text_of_status))]
pub fn status_text(alloc: Global, status: &Status) -> Result<Text, AllocError>
    ensures text { IfOk result (λ t. t ≡ text_of_status status.now) }
{
    match status {
        Status::Done => Ok(Text::new(alloc)),
        Status::BadWords => notice_text(alloc, "usage: run | generate SEED EVENTS", ""),
        Status::BadScript { line, cause } => {
            let place = line_text(alloc, *line)?;
            notice_text(alloc, place.as_str(), cause_text(*cause))
        }
        Status::ReadFault => notice_text(alloc, "read fault", ""),
        Status::WriteFault => notice_text(alloc, "write fault", ""),
        Status::Limit { which } => notice_text(alloc, "limit: ", which_text(*which)),
        Status::Memory => notice_text(alloc, "no memory", ""),
    }
}
