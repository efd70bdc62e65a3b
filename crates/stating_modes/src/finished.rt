// What a mode over two disks leaves behind.
use program_endings::Ending;

/// What a mode leaves: how it ended, the journal's disk, and the second one.
#[derive(Drop)]
pub struct FinishedKept<D, E> {
    pub ending: Ending,
    pub disk: D,
    pub second: E,
}
