// What a file was asked and what it answered. Only contracts read this.
ghost use Rattle.std.specs.Prelude.{◌≡◌, Some, None, List, [], ◌∷◌, map, length, if◌then◌else◌};
ghost use Rattle.std.specs.Result.{result_ok};
ghost use Rattle.outside_io.specs.FileCalls.{FileCall, Measured, ReadFrom, WrittenTo, Synced};
ghost use Rattle.outside_io.specs.inside.Notes.{file_call_of};

use crate::Failed;
use crate::record::Record;
use std::marker::Model;

const LENGTH: u64 = 0;

const READ: u64 = 1;

const WRITE: u64 = 2;

const SYNC: u64 = 3;

// The newest call comes first. The value takes no bytes.
#[derive(Drop)]
pub(crate) struct FileCalls {
    record: Record,
}

impl Model for FileCalls {
    ghost Value = { List FileCall };

    ghost view = { λ calls. map file_call_of calls.record.notes };
}

impl FileCalls {
    pub(crate) fn new() -> FileCalls
        ensures { result ≡ [] }
    {
        FileCalls {
            record: Record::new(),
        }
    }

    // The length was asked for, and this was the answer.
    #[inline(always)]
    pub(crate) fn note_length(&mut self, told: &Result<u64, Failed>)
        ensures { self.new ≡ Measured (result_ok told.now) ∷ self.old }
    {
        match told {
            Ok(many) => self.record.note(&[LENGTH, 1, *many], &[], &[]),
            Err(_) => self.record.note(&[LENGTH, 0], &[], &[]),
        }
    }

    // As many bytes as the buffer has were asked for; if that was done, these were given.
    #[inline(always)]
    pub(crate) fn note_read(&mut self, at: u64, buf: &[u8], done: bool)
        ensures { self.new ≡ ReadFrom at (length buf.now) (if done then Some buf.now else None) ∷ self.old }
    {
        if done {
            self.record.note(&[READ, 1, at, buf.len() as u64], &[], buf);
        } else {
            self.record.note(&[READ, 0, at, buf.len() as u64], &[], &[]);
        }
    }

    // These bytes were written, or the write failed.
    #[inline(always)]
    pub(crate) fn note_write(&mut self, at: u64, bytes: &[u8], done: bool)
        ensures { self.new ≡ WrittenTo at bytes.now done ∷ self.old }
    {
        if done {
            self.record.note(&[WRITE, 1, at], &[], bytes);
        } else {
            self.record.note(&[WRITE, 0, at], &[], bytes);
        }
    }

    // What was written was made safe, or the sync failed.
    #[inline(always)]
    pub(crate) fn note_sync(&mut self, done: bool)
        ensures { self.new ≡ Synced done ∷ self.old }
    {
        if done {
            self.record.note(&[SYNC, 1], &[], &[]);
        } else {
            self.record.note(&[SYNC, 0], &[], &[]);
        }
    }
}
