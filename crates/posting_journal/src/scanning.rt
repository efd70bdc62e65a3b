// The records of a file that was made, gate by gate. The gates are read by pieces.
ghost use Rattle.std.specs.Prelude.{◌≡◌, ◌↔◌, ◌+◌, ◌<◌, ◌≤◌, length, IsTrue, IfOk, IfErr, OnOk, slice_index};
ghost use Rattle.policy_types.specs.Limits.{most_commands};
ghost use Rattle.posting_journal.specs.Faults.{TellsFailure};
ghost use Rattle.posting_journal.specs.Layout.{gate_place};
ghost use Rattle.posting_journal.specs.Pieces.{HasGate, IsPartOf};
ghost use Rattle.posting_journal.specs.Runs.{LooksOn};
ghost use Rattle.posting_journal.specs.inside.Unopened.{HasUnopenedCause, CantStand, IsBadFrom, EndsAt};

use crate::faults::Unopened;
use crate::layout::{OPEN, gate_place};
use crate::pieces::{RECORDS, Stretch};
use outside_io::{Disk, Failed};
use policy_types::MOST_COMMANDS;

// How many records stand before the first closed gate.
pub(crate) fn count_records<D: Disk>(disk: &mut D, size: u64) -> Result<u32, Unopened>
    requires long { 18 ≤ size }
    requires told { D.honest disk.old → size ≡ length (D.reads disk.old) }
    ensures cause { HasUnopenedCause D.Disk disk.old disk.new result }
    ensures few { IfOk result (λ n. n ≤ most_commands) }
    ensures ends { D.honest disk.new → IfOk result (λ n. EndsAt (D.reads disk.old) n) }
    ensures bad { D.honest disk.new → IfErr result (λ cause. IsBadFrom (D.reads disk.old) cause) }
    ensures unwritten { D.honest disk.new → LooksOn D.Disk disk.old disk.new }
{
    let mut piece = Stretch::new();
    let mut n = 0;
    while has_record(disk, size, n, &mut piece)? {
        n += 1;
    }
    Ok(n)
}

// Whether the gate of record n is open; then the record has to stand.
fn has_record<D: Disk>(
    disk: &mut D,
    size: u64,
    n: u32,
    piece: &mut Stretch,
) -> Result<bool, Unopened>
    requires few { n ≤ most_commands }
    requires within { gate_place n < size }
    requires told { D.honest disk.old → size ≡ length (D.reads disk.old) }
    requires part { D.honest disk.old → IsPartOf piece.old (D.reads disk.old) }
    ensures cause { HasUnopenedCause D.Disk disk.old disk.new result }
    ensures stands { IfOk result (λ stands. IsTrue stands → (n < most_commands) × (gate_place (n + 1) < size)) }
    ensures gate { D.honest disk.new
        → IfOk result (λ stands. IsTrue stands ↔ (slice_index (D.reads disk.old) (gate_place n) ≡ 1)) }
    ensures bad { D.honest disk.new → IfErr result (λ cause. CantStand (D.reads disk.old) n cause) }
    ensures unwritten { D.honest disk.new → LooksOn D.Disk disk.old disk.new }
    ensures part { D.honest disk.new → IsPartOf piece.new (D.reads disk.new) }
{
    turn_to(disk, size, n, piece)?;
    if piece.gate(n) != OPEN {
        return Ok(false);
    }
    if n >= MOST_COMMANDS || size <= gate_place(n) + 65 {
        return Err(Unopened::BadRecord(n));
    }
    Ok(true)
}

// Reads the piece from the gate of record n on, where it hasn't that gate.
fn turn_to<D: Disk>(disk: &mut D, size: u64, n: u32, piece: &mut Stretch) -> Result<(), Failed>
    requires within { gate_place n < size }
    requires told { D.honest disk.old → size ≡ length (D.reads disk.old) }
    requires part { D.honest disk.old → IsPartOf piece.old (D.reads disk.old) }
    ensures cause { TellsFailure D.Disk disk.old disk.new result }
    ensures unwritten { D.honest disk.new → LooksOn D.Disk disk.old disk.new }
    ensures has { OnOk result (HasGate piece.new n) }
    ensures part { D.honest disk.new → IsPartOf piece.new (D.reads disk.new) }
{
    if piece.has_gate(n) {
        return Ok(());
    }
    let room = 65 * u64::from(RECORDS);
    let many = (size - gate_place(n)).min(room) as usize;
    piece.fill(disk, n, many)
}
