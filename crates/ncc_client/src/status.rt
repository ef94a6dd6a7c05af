//! How a client ended.

ghost use Rattle.std.specs.Prelude.{◌≡◌};
ghost use Rattle.ncc_client.specs.StatusNumber.{number_of};

use ncc_driver::WorkError;

/// How a client ended.
#[derive(Debug, Drop)]
pub enum ClientStatus {
    /// The work was committed, and its line was written.
    Done,
    /// The words ask for no work.
    BadWords,
    /// The work was not committed, or is not known to be.
    Failed(WorkError),
    /// The work was committed. The sink failed, and a prefix of the line may have been written.
    WriteFault,
    /// There was no memory.
    Memory,
}

/// The exit status of the program: 0 where the work was committed, 2, 3, 5 or 7 otherwise. It takes no memory.
pub fn status_number(status: &ClientStatus) -> u8
    ensures number { result ≡ number_of status.now }
{
    match status {
        ClientStatus::Done => 0,
        ClientStatus::BadWords => 2,
        ClientStatus::Failed(_) => 3,
        ClientStatus::WriteFault => 5,
        ClientStatus::Memory => 7,
    }
}
