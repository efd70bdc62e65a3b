// What no pin needs is forgotten.
ghost use Rattle.std.specs.Prelude.{◌≡◌, ◌^◌, ◌<◌, ◌++◌, [], ◌∷◌, List, map, min};
ghost use Rattle.office_state.specs.Names.{fold, Entry};
ghost use Rattle.office_state.specs.Standing.{StandsFor};
ghost use Rattle.office_state.specs.States.{disk_of, opened_of, outlet_of, turns_of};
ghost use Rattle.office_state.specs.Turning.{trim_turn};

use crate::held::Pins;
use crate::state::OfficeState;
use outside_io::Disk;
use watcher_set::Watching;

impl<D: Disk, W: Watching> OfficeState<D, W> {
    /// Raises the floor to the least position of a live pin, or to the count where none is live, and gives it. The versions
    /// that no position from the floor on needs are dropped.
    pub fn trim(&mut self, caller: u64) -> u32
        requires turns { turns_of self.old < 2 ^ 62 }
        requires stands { (history : List Entry) × StandsFor self.old history }
        ensures opened { opened_of self.new ≡ opened_of self.old }
        ensures disk { disk_of self.new ≡ disk_of self.old }
        ensures outlet { outlet_of self.new ≡ outlet_of self.old }
        ensures stands { (history : List Entry) → StandsFor self.old history
            → StandsFor self.new (history ++ trim_turn caller result ∷ []) }
    {
        let floor = least_position(&self.pins, self.books.count());
        self.books.trim(floor);
        self.turns += 1;
        floor
    }
}

// The least of the pins' positions and the count.
fn least_position(pins: &Pins, count: u32) -> u32
    ensures { result ≡ fold min count (map (λ held. held.position) pins.now.items) }
{
    let mut least = count;
    for held in pins.as_slice() {
        least = least.min(held.position);
    }
    least
}
