// Both ends of a ring.
ghost use Rattle.std.specs.Prelude.{◌≡◌, ◌++◌, IfOk};
ghost use Rattle.rtrb.specs.Ring.{ConsumerLooked, IsPair, known_items, received};
ghost use Rattle.policy_types.specs.Limits.{most_commands};
ghost use Rattle.moment_ring.specs.Ends.{ArePaired, HasRoomFor, IsNewRing, SameOutlet, told};

use crate::inlet::MomentInlet;
use crate::outlet::MomentOutlet;
use memory_requests::ring_ends;
use outside_io::Disk;
use policy_types::{MOST_COMMANDS, NoMemory};
use std::alloc::Global;

/// A ring with room for a moment of each command that may be accepted. So it is never full.
pub fn moment_ring<D: Disk>(alloc: Global) -> Result<(MomentOutlet<D>, MomentInlet<D>), NoMemory>
    ensures ends { IfOk result (λ ends. IsNewRing ends.0.ring ends.1.ring) }
    ensures room { IfOk result (λ ends. HasRoomFor most_commands ends.0.ring) }
{
    let (outlet, inlet) = ring_ends(alloc, MOST_COMMANDS as usize)?;
    Ok((
        MomentOutlet { ring: Some(outlet) },
        MomentInlet { ring: inlet },
    ))
}

/// Learns that what was heard is a front of what was told, and what comes next is the rest.
pub fn beside<D: Disk>(inlet: &mut MomentInlet<D>, outlet: &mut MomentOutlet<D>)
    requires pair { ArePaired outlet.old.ring inlet.old.ring }
    ensures looked { ConsumerLooked inlet.old.ring inlet.new.ring }
    ensures same { SameOutlet outlet.old.ring outlet.new.ring }
    ensures told { told outlet.new.ring ≡ told outlet.old.ring }
    ensures fifo { received inlet.new.ring ++ known_items inlet.new.ring ≡ told outlet.new.ring }
{
    match &mut outlet.ring {
        Some(ring) => {
            let _ = inlet.ring.slots_beside(ring);
        }
        None => unreachable!(),
    }
}
