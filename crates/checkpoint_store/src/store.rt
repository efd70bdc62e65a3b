// The store.
ghost use Rattle.std.specs.Prelude.{◌<◌, length, IsTrue};

use outside_io::Disk;

/// A checkpoint's disk. It knows whether the gate is closed there: it doesn't after a fault in the write of the gate or in
/// the sync behind it, and an open gate isn't closed.
#[derive(Drop)]
pub struct Store<E: Disk> {
    pub(crate) disk: E,
    pub(crate) closed: bool,
    ghost there: { E.honest disk → IsTrue closed → 0 < length (E.reads disk) },
}
