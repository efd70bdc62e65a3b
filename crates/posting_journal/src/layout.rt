// Where the parts of a journal's file stand. A gate is open exactly where it is 1.
//
// | at          | bytes | part                                                              |
// |-------------|-------|-------------------------------------------------------------------|
// | 0           |     1 | gate of the creation: open once the header is there               |
// | 1           |    16 | LIFEJRNL, the version 1 and the size 64 of a body, four zeros     |
// | 17 + 65 * n |     1 | gate of record n: open once the record counts, closed at the end  |
// | 18 + 65 * n |    64 | body of record n                                                  |
ghost use Rattle.std.specs.Prelude.{◌≡◌};
ghost use Rattle.posting_journal.specs.Layout.{gate_place, body_place};

pub const OPEN: u8 = 1;

pub const CLOSED: u8 = 0;

pub const HEADER: [u8; 16] = *b"LIFEJRNL\x00\x01\x00\x40\x00\x00\x00\x00";

// The header and the closed gate of record 0.
pub const HEADER_AND_GATE: [u8; 17] = *b"LIFEJRNL\x00\x01\x00\x40\x00\x00\x00\x00\x00";

// The place of the gate of a record.
pub(crate) fn gate_place(n: u32) -> u64
    ensures { result ≡ gate_place n }
{
    17 + 65 * u64::from(n)
}

// The place of the body of a record.
pub(crate) fn body_place(n: u32) -> u64
    ensures { result ≡ body_place n }
{
    18 + 65 * u64::from(n)
}
