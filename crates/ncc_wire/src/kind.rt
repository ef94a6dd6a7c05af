//! The kinds of frames.

ghost use Rattle.std.specs.Prelude.{◌≡◌};
ghost use Rattle.ncc_wire.specs.Kinds.{code, kind_with};
ghost use Rattle.ncc_wire.specs.Frames.{kind_of};

use ncc_raft::Body;

/// What a frame carries.
#[derive(Clone, Copy)]
pub(crate) enum Kind {
    VoteAsk,
    VoteReply,
    Append,
    AppendReply,
    Pull,
    Batch,
}

impl Kind {
    /// The byte that says it.
    pub(crate) fn byte(self) -> u8
        ensures { result ≡ code self }
    {
        match self {
            Kind::VoteAsk => 1,
            Kind::VoteReply => 2,
            Kind::Append => 3,
            Kind::AppendReply => 4,
            Kind::Pull => 5,
            Kind::Batch => 6,
        }
    }

    /// The kind that a byte says.
    pub(crate) fn with(byte: u8) -> Option<Kind>
        ensures { result ≡ kind_with byte }
    {
        match byte {
            1 => Some(Kind::VoteAsk),
            2 => Some(Kind::VoteReply),
            3 => Some(Kind::Append),
            4 => Some(Kind::AppendReply),
            5 => Some(Kind::Pull),
            6 => Some(Kind::Batch),
            _ => None,
        }
    }

    /// The kind of the frame that carries this.
    pub(crate) fn of(body: &Body) -> Kind
        ensures { result ≡ kind_of body.now }
    {
        match body {
            Body::VoteAsk { .. } => Kind::VoteAsk,
            Body::VoteReply { .. } => Kind::VoteReply,
            Body::Append { .. } => Kind::Append,
            Body::AppendReply { .. } => Kind::AppendReply,
            Body::Pull { .. } => Kind::Pull,
            Body::Batch { .. } => Kind::Batch,
        }
    }
}
