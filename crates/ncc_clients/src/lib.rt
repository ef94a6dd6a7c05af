//! The clients of a cluster: what they ask, how a member answers, and what holds of every run, whatever the members are.
#![tactic(auto)]

mod driver;
mod laws;
mod link;
mod members;
mod parcel;
mod task;
mod told;

pub use driver::{Driver, Effect};
pub use laws::{
    all_is_kept, one_transaction, one_way, rest_forgets_nobody, sessions_read_their_writes,
    worked_links,
};
pub use link::Link;
pub use members::Members;
pub use parcel::Parcel;
pub use task::Task;
pub use told::Told;
