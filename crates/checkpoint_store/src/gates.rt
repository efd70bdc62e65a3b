// Writes that leave the rest of the file, or its gate, as it is.
ghost use Rattle.std.specs.Prelude.{◌≡◌, ◌↔◌, ◌+◌, ◌≤◌, ◌∷◌, drop, length, IsTrue, IfOk, OnOk};
ghost use Rattle.outside_io.specs.Disks.{Holds};
ghost use Rattle.checkpoint_store.specs.Names.{TellsFailure, IsSafe, LooksOn};
ghost use Rattle.checkpoint_store.specs.Stores.{AreShut, IsShut};
ghost use Rattle.checkpoint_store.specs.inside.Steps.{GatesOn, LooksAtGate, StaysShut};

use crate::front::OPEN;
use outside_io::{Disk, Failed};

// Writes the gate, and makes it safe.
pub(crate) fn put_gate<E: Disk>(disk: &mut E, gate: u8) -> Result<(), Failed>
    ensures disk { TellsFailure E.Disk disk.old disk.new result }
    ensures gates { E.honest disk.new → GatesOn E.Disk disk.old disk.new }
    ensures done { E.honest disk.new → OnOk result (IsSafe E.Disk disk.new
        × (E.reads disk.new ≡ gate ∷ drop 1 (E.reads disk.old))) }
{
    disk.write_at(0, &[gate])?;
    disk.sync()
}

// Writes behind the gate.
pub(crate) fn write_behind<E: Disk>(disk: &mut E, at: u64, bytes: &[u8]) -> Result<(), Failed>
    requires behind { 1 ≤ at }
    requires within { E.honest disk.old → at ≤ length (E.reads disk.old) }
    ensures disk { TellsFailure E.Disk disk.old disk.new result }
    ensures written { E.honest disk.new → OnOk result (Holds (E.reads disk.old) at bytes.now (E.reads disk.new)) }
    ensures longer { E.honest disk.new → length (E.reads disk.old) ≤ length (E.reads disk.new) }
    ensures filled { E.honest disk.new → OnOk result (at + length bytes.now ≤ length (E.reads disk.new)) }
    ensures shut { E.honest disk.new → AreShut E.Disk disk.old → StaysShut E.Disk disk.old disk.new }
{
    disk.write_at(at, bytes)
}

// Makes the disk safe, and tells whether the gate is there and closed.
pub(crate) fn look<E: Disk>(disk: &mut E) -> Result<bool, Failed>
    ensures disk { TellsFailure E.Disk disk.old disk.new result }
    ensures unwritten { E.honest disk.new → LooksOn E.Disk disk.old disk.new }
    ensures gate { E.honest disk.new → IfOk result (λ closed. LooksAtGate E.Disk disk.new closed) }
{
    disk.sync()?;
    let size = disk.len()?;
    is_shut(disk, size)
}

// Whether the gate is there and closed.
fn is_shut<E: Disk>(disk: &mut E, size: u64) -> Result<bool, Failed>
    requires { E.honest disk.old → size ≡ length (E.reads disk.old) }
    ensures disk { TellsFailure E.Disk disk.old disk.new result }
    ensures unwritten { E.honest disk.new → LooksOn E.Disk disk.old disk.new }
    ensures shut { E.honest disk.new → IfOk result (λ shut. IsTrue shut ↔ IsShut (E.reads disk.old)) }
{
    if size == 0 {
        return Ok(false);
    }
    let mut gate = [0];
    disk.read(0, &mut gate)?;
    Ok(gate[0] != OPEN)
}
