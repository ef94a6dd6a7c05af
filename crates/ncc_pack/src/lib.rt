//! PackStream version 1: its values, and the list types that the other crates speak in. Contracts see each as a list.
#![tactic(auto)]

mod alone;
mod bytes;
mod cursor;
mod element;
mod encoding;
mod error;
mod field;
mod fit;
mod law;
mod limits;
mod mark;
mod read;
mod roomy;
mod sequence;
mod size;
mod text;
mod value;
mod write;

pub use alone::{
    dict_fits, dict_fits_within, dict_len, fits_deeper, list_head_len, spelled_fits, text_fits,
    text_len, values_fit, values_fit_within, values_len,
};
pub use bytes::Bytes;
pub use element::{Compared, Copied};
pub use encoding::{
    encode, encode_dict, encode_dict_within, encode_list_head, encode_list_head_within,
    encode_text, encode_text_within, encode_values, encode_values_within, encode_within,
};
pub use error::PackError;
pub use law::{placed_refusals, short_refusals, shortest};
pub use limits::{MAX_DEPTH, MAX_SIZE};
pub use mark::NULL;
pub use read::{decode, decode_at, one_form};
pub use roomy::Roomy;
pub use sequence::Sequence;
pub use size::short_len;
pub use std::alloc::AllocError as Memory;
pub use text::{Text, Words};
pub use value::{Dict, NodeValue, Rows, Value, Values};
