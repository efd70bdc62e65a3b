// The two files of the program, each known by its name.
ghost use Rattle.std.specs.Prelude.{Some, codes};

use outside_io::FoundFile;

/// What the journal's file was when it was found, under its name.
#[derive(Drop)]
pub struct JournalOf<F: FoundFile> {
    pub found: F,
}

impl<F: FoundFile> FoundFile for JournalOf<F> {
    ghost name = { Some (codes "journal.life") };

    ghost bytes = { F.bytes };

    ghost unsynced = { F.unsynced };

    ghost torn = { F.torn };
}

/// What the checkpoint's file was when it was found, under its name.
#[derive(Drop)]
pub struct CheckpointOf<C: FoundFile> {
    pub found: C,
}

impl<C: FoundFile> FoundFile for CheckpointOf<C> {
    ghost name = { Some (codes "checkpoint.life") };

    ghost bytes = { C.bytes };

    ghost unsynced = { C.unsynced };

    ghost torn = { C.torn };
}
