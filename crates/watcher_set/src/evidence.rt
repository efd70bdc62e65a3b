use memory_requests::NoMemory;

/// Memory was refused: a request was refused, or a watcher has no capacity for one more command.
#[derive(Clone, Copy, PartialEq, Eq, Debug)]
pub struct Lack {
    wanting: (),
}

impl Lack {
    /// A watcher has no capacity for one more command.
    pub(crate) fn of_auditor() -> Lack {
        Lack { wanting: () }
    }
}

impl From<NoMemory> for Lack {
    fn from(_refused: NoMemory) -> Lack {
        Lack { wanting: () }
    }
}
