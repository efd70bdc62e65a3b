// A part of the file that was read at once.
ghost use Rattle.std.specs.Prelude.{◌≡◌, ℕ, ◌+◌, ◌-◌, ◌*◌, ◌≤◌, ◌↔◌, List, length, take, drop, slice_index, IsTrue, OnOk, OnErr};
ghost use Rattle.posting_journal.specs.Faults.{TellsFailure};
ghost use Rattle.posting_journal.specs.Layout.{gate_place, body_place, most_in_piece};
ghost use Rattle.posting_journal.specs.Pieces.{HasBody, HasGate, IsEmptyPiece, IsFilled, IsPartOf};
ghost use Rattle.posting_journal.specs.Runs.{LooksOn};

use crate::layout::gate_place;
use outside_io::{Disk, Failed};

// Of so many records a piece holds the gates and the bodies.
pub(crate) const RECORDS: u32 = 1008;

const ROOM: usize = 65_520;

/// Some records in a row, each its gate and its body, as the disk read them: room for 1,008, which takes no memory but
/// its own.
#[derive(Drop)]
pub struct Stretch {
    bytes: [u8; 65_520],
    from: u32,
    filled: usize,
}

impl Stretch {
    /// A piece that holds nothing yet.
    pub fn new() -> Stretch
        ensures empty { IsEmptyPiece result }
        ensures part { (file : List ℕ) → IsPartOf result file }
    {
        Stretch {
            bytes: [0; 65_520],
            from: 0,
            filled: 0,
        }
    }

    // Reads so many bytes from the gate of a record on. Where that fails it holds nothing.
    pub(crate) fn fill<D: Disk>(
        &mut self,
        disk: &mut D,
        from: u32,
        many: usize,
    ) -> Result<(), Failed>
        requires room { many ≤ 65 * most_in_piece }
        requires within { D.honest disk.old → gate_place from + many ≤ length (D.reads disk.old) }
        ensures cause { TellsFailure D.Disk disk.old disk.new result }
        ensures unwritten { D.honest disk.new → LooksOn D.Disk disk.old disk.new }
        ensures filled { OnOk result (IsFilled self.new from many) }
        ensures empty { OnErr result (IsEmptyPiece self.new) }
        ensures part { D.honest disk.new → IsPartOf self.new (D.reads disk.new) }
    {
        self.filled = 0;
        disk.read(gate_place(from), &mut self.bytes[..many])?;
        self.from = from;
        self.filled = many;
        Ok(())
    }

    // Whether it holds the gate of record n.
    pub(crate) fn has_gate(&self, n: u32) -> bool
        ensures { IsTrue result ↔ HasGate self.now n }
    {
        n >= self.from && 65 * ((n - self.from) as usize) < self.filled.min(ROOM)
    }

    // The gate of record n.
    pub(crate) fn gate(&self, n: u32) -> u8
        requires { HasGate self.now n }
        ensures { (file : List ℕ) → IsPartOf self.now file → result ≡ slice_index file (gate_place n) }
    {
        self.bytes[65 * ((n - self.from) as usize)]
    }

    /// Whether it holds the body of record n.
    pub fn has_body(&self, n: u32) -> bool
        ensures { IsTrue result ↔ HasBody self.now n }
    {
        n >= self.from && 65 * ((n - self.from) as usize) + 65 <= self.filled.min(ROOM)
    }

    /// The body of record n, as the file has it of which this is a part.
    pub fn body(&self, n: u32) -> [u8; 64]
        requires { HasBody self.now n }
        ensures { (file : List ℕ) → IsPartOf self.now file → result ≡ take 64 (drop (body_place n) file) }
    {
        let at = 65 * ((n - self.from) as usize) + 1;
        let mut body = [0; 64];
        body.copy_from_slice(&self.bytes[at..at + 64]);
        body
    }
}
