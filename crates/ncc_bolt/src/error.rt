//! Why bytes are no message.

ghost use Rattle.std.specs.Prelude.{◌≡◌};
ghost use Rattle.ncc_bolt.specs.Reading.{of_pack};

use ncc_pack::PackError;

/// Why bytes are no message. A place counts the message's bytes from 0, and a field its fields from 0.
#[derive(Clone, Copy, Debug, PartialEq, Eq, thiserror::Error)]
pub enum MessageError {
    /// The marker of the message, or the spelling of a field, is wrong, or the message ends too early.
    #[error("{0}")]
    Pack(PackError),
    /// No message of the table has this tag.
    #[error("no message has the tag {tag}")]
    UnknownTag {
        /// The tag.
        tag: u8,
    },
    /// The message of this tag has another number of fields.
    #[error("the message with the tag {tag} has no {n} fields")]
    WrongFields {
        /// The tag.
        tag: u8,
        /// The number of fields that the marker says.
        n: u8,
    },
    /// A field is of another kind than the table says.
    #[error("field {field} of the message with the tag {tag} is of another kind, at byte {at}")]
    WrongKind {
        /// The tag.
        tag: u8,
        /// The number of the field.
        field: u8,
        /// The place of the first byte of the field's spelling.
        at: u64,
    },
    /// Bytes follow the last field.
    #[error("bytes behind the message at byte {at}")]
    Rest {
        /// The place of the first of them.
        at: u64,
    },
    /// There was no memory.
    #[error("out of memory")]
    Memory,
}

impl From<PackError> for MessageError {
    ghost from_gives = { λ e m. m ≡ of_pack e };

    fn from(error: PackError) -> MessageError {
        match error {
            PackError::Memory => MessageError::Memory,
            other => MessageError::Pack(other),
        }
    }
}
