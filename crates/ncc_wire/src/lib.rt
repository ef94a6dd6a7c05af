//! The frames that members send each other.
#![tactic(auto)]

mod body;
mod error;
mod field;
mod head;
mod kind;
mod law;
mod listing;
mod read;
mod write;

pub use error::FrameError;
pub use law::{
    carried_alone, frame_or_refusal, none_begins_another, one_frame, one_refusal, worked_frame,
};
pub use read::read_frame;
pub use write::{frame_len, write_frame};
