// The bodies of an open journal are read, one by one or by pieces.
ghost use Rattle.std.specs.Prelude.{◌-◌, ◌*◌, ◌<◌, ◌≤◌, OnOk, OnErr, min};
ghost use Rattle.posting_journal.specs.Faults.{TellsFaults};
ghost use Rattle.posting_journal.specs.Layout.{most_in_piece};
ghost use Rattle.posting_journal.specs.Pieces.{IsEmptyPiece, IsFilled, IsPartOf};
ghost use Rattle.posting_journal.specs.States.{ReadsBody, StaysAs, count_of, disk_of};

use crate::layout::body_place;
use crate::pieces::RECORDS;
use crate::{DiskFault, Journal, Stretch};
use outside_io::Disk;

impl<D: Disk> Journal<D> {
    /// The body of record `n`, as the disk reads it.
    pub fn body(&mut self, n: u32) -> Result<[u8; 64], DiskFault>
        requires { n < count_of self.old }
        ensures stays { StaysAs self.old self.new }
        ensures disk { TellsFaults D.Disk (disk_of self.old) (disk_of self.new) result }
        ensures reads { ReadsBody self.old self.new n result }
    {
        let mut body = [0; 64];
        let filled = self.disk.read(body_place(n), &mut body);
        self.told(filled)?;
        Ok(body)
    }

    /// Reads the records from `first` on into a piece, by one read: as many as it has room for, or all that are left. At
    /// a fault it holds nothing. It is what the disk reads in that place, so its bodies are the journal's.
    pub fn bodies(&mut self, first: u32, piece: &mut Stretch) -> Result<(), DiskFault>
        requires { first ≤ count_of self.old }
        ensures stays { StaysAs self.old self.new }
        ensures disk { TellsFaults D.Disk (disk_of self.old) (disk_of self.new) result }
        ensures filled { OnOk result (IsFilled piece.new first (65 * min (count_of self.old - first) most_in_piece)) }
        ensures empty { OnErr result (IsEmptyPiece piece.new) }
        ensures part { D.honest (disk_of self.new) → IsPartOf piece.new (D.reads (disk_of self.new)) }
    {
        let many = (self.count - first).min(RECORDS);
        let filled = piece.fill(&mut self.disk, first, 65 * many as usize);
        self.told(filled)
    }

    /// The body of record `n`, from a piece of this journal: where the piece hasn't it, it is filled from there on. So
    /// whoever asks for one record after the other reads a thousand at once.
    pub fn body_from(&mut self, n: u32, piece: &mut Stretch) -> Result<[u8; 64], DiskFault>
        requires within { n < count_of self.old }
        requires part { D.honest (disk_of self.old) → IsPartOf piece.old (D.reads (disk_of self.old)) }
        ensures stays { StaysAs self.old self.new }
        ensures disk { TellsFaults D.Disk (disk_of self.old) (disk_of self.new) result }
        ensures reads { ReadsBody self.old self.new n result }
        ensures part { D.honest (disk_of self.new) → IsPartOf piece.new (D.reads (disk_of self.new)) }
    {
        if piece.has_body(n) {
            return Ok(piece.body(n));
        }
        self.bodies(n, piece)?;
        Ok(piece.body(n))
    }
}
