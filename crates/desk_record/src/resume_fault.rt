//! Why a record is not taken up again.

use store::StoreFault;

/// Why a record is not taken up again.
#[derive(Clone, Copy, Debug)]
pub enum ResumeFault {
    /// The record can't be read.
    NotRead,
    /// What stands after its last line can't be taken off.
    NotWritten,
    /// Memory was refused.
    NoMemory,
    /// The last line is no delivery, or is longer than 1 MiB, or what stands after it is no beginning of a line that is
    /// written; nothing has changed.
    NotDelivery,
    /// The last line was not delivered once more.
    Store(StoreFault),
}

/// A record that is not taken up again: why, and its disk as it stands then.
#[derive(Drop)]
pub struct NotResumed<D> {
    pub fault: ResumeFault,
    pub disk: D,
}
