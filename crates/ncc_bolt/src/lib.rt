//! The messages of Bolt 4.4 that a client and a server send each other, without their chunks (section "Messages").
#![tactic(auto)]

mod error;
mod field;
mod fit;
mod laws;
mod message;
mod read;
mod tag;
mod write;

pub use error::MessageError;
pub use laws::{one_request, one_response, request_refusals, response_refusals};
pub use message::{Request, Response};
pub use ncc_pack::Memory;
pub use read::{read_request, read_response};
pub use write::{
    write_request, write_request_within, write_response, write_response_within, write_row,
    write_row_within,
};
