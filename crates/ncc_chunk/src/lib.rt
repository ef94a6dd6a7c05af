//! What stands between a socket and the messages of Bolt 4.4: the handshake, and the chunks that messages are cut into.
#![tactic(auto)]

mod chunking;
mod dechunker;
mod handshake;
mod laws;

pub use chunking::chunk;
pub use dechunker::{Dechunk, Dechunker};
pub use handshake::{Handshake, Shake};
pub use laws::{
    every_stream_reads, handshake_goes_on, messages_are_functions, messages_are_one,
    messages_go_on, sent_is_read, too_long_stays,
};
