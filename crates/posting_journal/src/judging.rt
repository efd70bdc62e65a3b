// What a file is, by its length and its first bytes.
ghost use Rattle.std.specs.Prelude.{◌≡◌, ℕ, List, min, length, take};
ghost use Rattle.posting_journal.specs.inside.Kinds.{IsOfKind, IsLongIfMade};

use crate::layout::{HEADER, OPEN};

// What a file can be. `begun` tells whether byte 0 says that the creation goes on.
#[derive(Clone, Copy)]
pub(crate) enum FileKind {
    Unfinished { begun: bool },
    Foreign,
    Made,
}

// By the first 18 bytes, or all where there are fewer, and the length.
pub(crate) fn judge(front: &[u8], size: u64) -> FileKind
    requires { length front.now ≡ min size 18 }
    ensures long { IsLongIfMade size result }
    ensures kind { (bytes : List ℕ) → length bytes ≡ size → take 18 bytes ≡ front.now → IsOfKind bytes result }
{
    if size == 0 {
        return FileKind::Unfinished { begun: false };
    }
    let first = front[0];
    if first == 0 && size <= 18 {
        return FileKind::Unfinished { begun: true };
    }
    if size == 1 {
        return FileKind::Unfinished { begun: false };
    }
    if size < 18 || &front[1..17] != HEADER.as_slice() {
        return FileKind::Foreign;
    }
    if first == OPEN {
        return FileKind::Made;
    }
    if first != 0 && size == 18 && front[17] != OPEN {
        return FileKind::Unfinished { begun: false };
    }
    FileKind::Foreign
}
