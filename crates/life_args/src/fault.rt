use policy_types::NoMemory;

/// Why arguments aren't read.
#[derive(Clone, Copy, PartialEq, Eq, Debug)]
pub enum WordsFault {
    /// They are those of no command.
    Usage,
    /// Memory was refused.
    NoMemory(NoMemory),
}
