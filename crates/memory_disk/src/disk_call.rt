// A call of a disk, as it is kept.

/// One call of a disk, and whether it failed.
#[derive(Drop)]
pub enum DiskCall {
    /// The length was asked for.
    Len {
        failed: bool,
    },
    /// So many bytes were read from a place on.
    Read {
        at: u64,
        many: usize,
        failed: bool,
    },
    /// These bytes were written from a place on.
    Write {
        at: u64,
        bytes: Vec<u8>,
        failed: bool,
    },
    /// What was written was made safe.
    Sync {
        failed: bool,
    },
}
