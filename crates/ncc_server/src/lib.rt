//! A member on sockets. What stands today serves one connection from bytes to bytes.
#![tactic(auto)]

mod backend;
mod end;
mod serving;
mod shelf_backend;

pub use backend::{Backend, BackendError};
pub use end::ConnEnd;
pub use serving::serve_conn;
pub use shelf_backend::{ShelfBackend, Told};
