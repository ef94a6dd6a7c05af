//! Where a session stands, as others see it.

use ncc_bolt::MessageError;

/// Where a session stands. While a question waits it is where it was before the request.
#[derive(Clone, Copy, Debug, PartialEq, Eq)]
pub enum ConnState {
    /// The handshake is not whole.
    Shaking,
    /// HELLO has to come.
    Connected,
    /// A transaction may begin.
    Ready,
    /// Rows of a statement that is a transaction by itself are left.
    Streaming,
    /// In a transaction, no result is open.
    TxReady,
    /// In a transaction, a result is open.
    TxStreaming,
    /// A request failed: all is ignored until RESET.
    Failed,
    /// The connection has ended.
    Ended(ConnStop),
}

/// Why a connection ended.
#[derive(Clone, Copy, Debug, PartialEq, Eq)]
pub enum ConnStop {
    /// The client said GOODBYE.
    Goodbye,
    /// The client did not log in.
    Refused,
    /// The first bytes are not those of a handshake.
    BadMagic,
    /// No proposal covers Bolt 4.4.
    NoVersion,
    /// A message is none of Bolt 4.4.
    Malformed {
        /// The number of the message on its connection, from 0.
        message: u64,
        /// The place of the fault in it, in bytes from 0.
        at: u64,
        /// What is wrong.
        cause: MessageError,
    },
    /// A message is longer than 1,048,576 bytes.
    MessageTooLong {
        /// The number of the message on its connection, from 0.
        message: u64,
    },
}
