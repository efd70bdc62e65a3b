// What the calls of devices return when they fail.
use memory_requests::NoMemory;

/// A device failed. Its count of faults rose.
#[derive(Clone, Copy, PartialEq, Eq, Debug)]
pub struct Failed;

/// The sink failed before it had taken all bytes.
#[derive(Clone, Copy, PartialEq, Eq, Debug)]
pub struct WriteFault;

/// Why not all bytes of a source were read.
#[derive(Clone, Copy, PartialEq, Eq, Debug)]
pub enum ReadAllFault {
    /// The source failed.
    ReadFault,
    /// The source gave more bytes than the limit.
    TooLong,
    /// There was no memory for the bytes.
    NoMemory(NoMemory),
}

/// Why a file wasn't fetched.
#[derive(Clone, Copy, PartialEq, Eq, Debug)]
pub enum FetchFault {
    /// There is no file with this name.
    Absent,
    /// The file has more bytes than the limit.
    TooLong,
    /// The shelf failed.
    Failed,
    /// There was no memory for the bytes.
    NoMemory(NoMemory),
}
