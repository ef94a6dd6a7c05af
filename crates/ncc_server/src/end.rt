//! How a connection that was served ended.

use ncc_bolt::MessageError;

/// How a connection that was served ended.
#[derive(Clone, Copy, Debug, PartialEq, Eq)]
pub enum ConnEnd {
    /// The client said GOODBYE, or its bytes ended between messages, behind a whole handshake.
    Closed,
    /// The client did not log in.
    Refused,
    /// The first bytes are not those of a handshake.
    BadMagic,
    /// No proposal of the handshake covers Bolt 4.4.
    NoVersion,
    /// A message is none of Bolt 4.4.
    Malformed {
        /// The number of the message on its connection, from 0.
        message: u64,
        /// The place of the fault in it, in bytes from 0.
        at: u64,
        /// What is wrong. It is never want of memory.
        cause: MessageError,
    },
    /// A message is longer than 1,048,576 bytes.
    MessageTooLong {
        /// The number of the message on its connection, from 0.
        message: u64,
    },
    /// The client's bytes ended inside a handshake or a message, or before the first.
    Truncated,
    /// A read failed.
    ReadFault,
    /// A write or a flush failed.
    WriteFault,
    /// The backend failed.
    BackendFault,
    /// More than 2^40 bytes were taken.
    Worn,
    /// There was no memory.
    Memory,
}
