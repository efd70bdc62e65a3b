// What a mode leaves behind.
use crate::ending::Ending;

/// What a mode leaves: how it ended, and the disk.
#[derive(Drop)]
pub struct Finished<D> {
    pub ending: Ending,
    pub disk: D,
}
