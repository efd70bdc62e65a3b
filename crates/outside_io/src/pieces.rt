// The pieces that passed through a stream. Only contracts read this.
ghost use Rattle.std.specs.Prelude.{◌≡◌, List, [], ◌∷◌, map};
ghost use Rattle.outside_io.specs.Streams.{StreamPiece};
ghost use Rattle.outside_io.specs.inside.Notes.{stream_piece_of};

use crate::record::Record;
use std::marker::Model;

// The newest piece comes first. The value takes no bytes.
#[derive(Drop)]
pub(crate) struct Pieces {
    record: Record,
}

impl Model for Pieces {
    ghost Value = { List StreamPiece };

    ghost view = { λ pieces. map stream_piece_of pieces.record.notes };
}

impl Pieces {
    pub(crate) fn new() -> Pieces
        ensures { result ≡ [] }
    {
        Pieces {
            record: Record::new(),
        }
    }

    // One more piece, and the length of the buffer that it was read into or written from.
    #[inline(always)]
    pub(crate) fn note(&mut self, room: usize, bytes: &[u8])
        ensures { self.new ≡ record { room = room; bytes = bytes.now } ∷ self.old }
    {
        self.record.note(&[room as u64], &[], bytes);
    }
}
