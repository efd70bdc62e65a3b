use std::alloc::AllocError;

/// Memory was refused. Only the calls of this crate make it, each of the request that was refused.
#[derive(Clone, Copy, PartialEq, Eq, Debug)]
pub struct NoMemory {
    refused: (),
}

impl NoMemory {
    /// A request was refused.
    pub(crate) fn refused() -> NoMemory {
        NoMemory { refused: () }
    }
}

impl From<NoMemory> for AllocError {
    fn from(_lack: NoMemory) -> AllocError {
        AllocError
    }
}
