// Files as they are opened, and the calls of the disk. The bytes are written by hand from the layout.
use memory_disk::{DiskCall, MemoryDisk};
use outside_io::Disk;
use posting_journal::*;
use std::alloc::{AllocError, Global};
use std::test::Fail;
use test_rows::assert_rows;

// LIFEJRNL, 1, 64 and four zeros.
const HEAD: [u8; 16] = [
    0x4c, 0x49, 0x46, 0x45, 0x4a, 0x52, 0x4e, 0x4c, 0x00, 0x01, 0x00, 0x40, 0x00, 0x00, 0x00, 0x00,
];

const NO_RECORD: &[&[u8]] = &[&[1], &HEAD, &[0]];

// A file in parts, the result that opening it must have, and what the file must be afterwards.
struct Case {
    file: &'static [&'static [u8]],
    answer: Result<u32, JournalCause>,
    after: &'static [&'static [u8]],
}

fn file_of(alloc: Global, parts: &[&[u8]]) -> Result<Vec<u8>, AllocError> {
    let mut bytes = Vec::new(alloc);
    for part in parts {
        bytes.extend_from_slice(part)?;
    }
    Ok(bytes)
}

// The result of opening a file, and the disk.
fn opened(disk: MemoryDisk) -> (Result<u32, JournalCause>, MemoryDisk) {
    match Journal::start(disk) {
        Ok(journal) => (Ok(journal.count()), journal.release()),
        Err(fault) => {
            let JournalFault { cause, disk } = fault;
            (Err(cause), disk)
        }
    }
}

fn holds(alloc: Global, case: &Case) -> Result<bool, AllocError> {
    let bytes = file_of(alloc, case.file)?;
    let (answer, disk) = opened(MemoryDisk::new(alloc, bytes, Vec::new(alloc)));
    let after = file_of(alloc, case.after)?;
    Ok(answer == case.answer && disk.bytes() == after.as_slice())
}

const CASES: &[Case] = &[
    Case {
        file: &[],
        answer: Ok(0),
        after: NO_RECORD,
    },
    Case {
        file: &[&[7]],
        answer: Ok(0),
        after: NO_RECORD,
    },
    Case {
        file: &[&[0, 9, 9]],
        answer: Ok(0),
        after: NO_RECORD,
    },
    Case {
        file: &[&[0; 18]],
        answer: Ok(0),
        after: NO_RECORD,
    },
    Case {
        file: &[&[2], &HEAD, &[3]],
        answer: Ok(0),
        after: NO_RECORD,
    },
    Case {
        file: NO_RECORD,
        answer: Ok(0),
        after: NO_RECORD,
    },
    Case {
        file: &[&[1], &HEAD, &[1], &[5; 64], &[0, 8]],
        answer: Ok(1),
        after: &[&[1], &HEAD, &[1], &[5; 64], &[0, 8]],
    },
    Case {
        file: &[&[65; 18]],
        answer: Err(JournalCause::NotAJournal),
        after: &[&[65; 18]],
    },
    Case {
        file: &[&[1], &HEAD],
        answer: Err(JournalCause::NotAJournal),
        after: &[&[1], &HEAD],
    },
    Case {
        file: &[&[0; 19]],
        answer: Err(JournalCause::NotAJournal),
        after: &[&[0; 19]],
    },
    Case {
        file: &[&[2], &HEAD, &[1]],
        answer: Err(JournalCause::NotAJournal),
        after: &[&[2], &HEAD, &[1]],
    },
    Case {
        file: &[&[1], &HEAD, &[1]],
        answer: Err(JournalCause::BadRecord(0)),
        after: &[&[1], &HEAD, &[1]],
    },
    Case {
        file: &[&[1], &HEAD, &[1], &[5; 64]],
        answer: Err(JournalCause::BadRecord(0)),
        after: &[&[1], &HEAD, &[1], &[5; 64]],
    },
    Case {
        file: &[&[1], &HEAD, &[1], &[5; 64], &[1]],
        answer: Err(JournalCause::BadRecord(1)),
        after: &[&[1], &HEAD, &[1], &[5; 64], &[1]],
    },
];

#[test]
fn files_are_opened_or_refused(rt: HostRuntime) -> Result<(), AllocError> {
    assert_rows!(rt; (k, case) in CASES.iter().enumerate() => holds(rt.alloc(), case)?; "case {k}");
    Ok(())
}

// Whether a record is added, or the call returns a fault.
fn append_to(journal: &mut Journal<MemoryDisk>, body: &[u8; 64]) -> Option<Result<(), DiskFault>> {
    if journal.is_clean() && journal.count() < 4_000_000 {
        Some(journal.append(body))
    } else {
        None
    }
}

fn has_body(journal: &mut Journal<MemoryDisk>, n: u32, body: &[u8; 64]) -> bool {
    if n >= journal.count() {
        return false;
    }
    match journal.body(n) {
        Ok(read) => read == *body,
        Err(_fault) => false,
    }
}

// Whether two records are added, and are there after reopening; and the disk.
fn two_added(disk: MemoryDisk) -> (bool, MemoryDisk) {
    match Journal::start(disk) {
        Ok(mut journal) => {
            let first = append_to(&mut journal, &[7; 64]);
            let second = append_to(&mut journal, &[9; 64]);
            (
                first == Some(Ok(())) && second == Some(Ok(())),
                journal.release(),
            )
        }
        Err(fault) => {
            let JournalFault { cause: _, disk } = fault;
            (false, disk)
        }
    }
}

fn both_stand(disk: MemoryDisk) -> bool {
    match Journal::start(disk) {
        Ok(mut journal) => {
            journal.count() == 2
                && has_body(&mut journal, 0, &[7; 64])
                && has_body(&mut journal, 1, &[9; 64])
        }
        Err(_fault) => false,
    }
}

// The kind, the place and the number of the bytes of a call.
fn told(call: &DiskCall) -> (u8, u64, usize) {
    match call {
        DiskCall::Len { failed: _ } => (b'l', 0, 0),
        DiskCall::Read {
            at,
            many,
            failed: _,
        } => (b'r', *at, *many),
        DiskCall::Write {
            at,
            bytes,
            failed: _,
        } => (b'w', *at, bytes.len()),
        DiskCall::Sync { failed: _ } => (b's', 0, 0),
    }
}

// The calls of a creation, and of two records.
const CALLS: &[(u8, u64, usize)] = &[
    (b's', 0, 0),
    (b'l', 0, 0),
    (b'r', 0, 0),
    (b'w', 0, 1),
    (b's', 0, 0),
    (b'w', 1, 17),
    (b's', 0, 0),
    (b'w', 0, 1),
    (b's', 0, 0),
    (b'w', 18, 65),
    (b's', 0, 0),
    (b'w', 17, 1),
    (b's', 0, 0),
    (b'w', 83, 65),
    (b's', 0, 0),
    (b'w', 82, 1),
    (b's', 0, 0),
];

fn are_calls(made: &[DiskCall], wanted: &[(u8, u64, usize)]) -> bool {
    if made.len() != wanted.len() {
        return false;
    }
    for (call, wanted) in made.iter().zip(wanted) {
        if told(call) != *wanted {
            return false;
        }
    }
    true
}

#[test]
fn records_outlive_reopening(rt: HostRuntime) -> Result<(), Fail> {
    let alloc = rt.alloc();
    let (added, disk) = two_added(MemoryDisk::new(alloc, Vec::new(alloc), Vec::new(alloc)));
    assert!(rt; added);
    let want = file_of(alloc, &[&[1], &HEAD, &[1], &[7; 64], &[1], &[9; 64], &[0]])?;
    assert!(rt; disk.bytes() == want.as_slice());
    assert!(rt; are_calls(disk.made(), CALLS));
    assert!(rt; both_stand(disk));
    Ok(())
}

// Whether the call of the disk with this number makes an append fail, which leaves the journal clean or not, and
// whether a record can be added then. Opening makes four calls, and appending makes the next four.
fn goes_on(disk: MemoryDisk, clean: bool) -> (bool, MemoryDisk) {
    match Journal::start(disk) {
        Ok(mut journal) => {
            let failed = append_to(&mut journal, &[7; 64]) == Some(Err(DiskFault { count: 1 }));
            let left = journal.is_clean() == clean && journal.count() == 0;
            let repaired = journal.is_clean() || journal.repair() == Ok(());
            let added = append_to(&mut journal, &[9; 64]) == Some(Ok(()));
            (failed && left && repaired && added, journal.release())
        }
        Err(fault) => {
            let JournalFault { cause: _, disk } = fault;
            (false, disk)
        }
    }
}

#[test]
fn faults_leave_the_journal_clean_or_to_repair(rt: HostRuntime) -> Result<(), Fail> {
    let alloc = rt.alloc();
    let want = file_of(alloc, &[&[1], &HEAD, &[1], &[9; 64], &[0]])?;
    assert_rows!(rt; (failing, clean) in [(5, true), (6, true), (7, false), (8, false)] => {
        let bytes = file_of(alloc, NO_RECORD)?;
        let disk = MemoryDisk::new(alloc, bytes, vec![in alloc; failing]?);
        let (gone_on, disk) = goes_on(disk, clean);
        gone_on && disk.bytes() == want.as_slice()
    }; "call {failing}");
    Ok(())
}

// A journal of `count` records, each with its number in its body.
fn long_file(alloc: Global, records: u32) -> Result<Vec<u8>, AllocError> {
    let mut bytes = file_of(alloc, &[&[1], &HEAD])?;
    for n in 0..records {
        bytes.push(1)?;
        bytes.extend_from_slice(&n.to_be_bytes())?;
        bytes.extend_from_slice(&[0; 60])?;
    }
    bytes.push(0)?;
    Ok(bytes)
}

// The number in the body of a record, as a fresh piece has it from there on, and as it is read alone.
fn numbers_at(journal: &mut Journal<MemoryDisk>, n: u32) -> Option<(u32, u32)> {
    if n >= journal.count() {
        return None;
    }
    let mut piece = Stretch::new();
    let Ok(body) = journal.body_from(n, &mut piece) else {
        return None;
    };
    let Ok(alone) = journal.body(n) else {
        return None;
    };
    Some((number_in(&body), number_in(&alone)))
}

fn number_in(body: &[u8; 64]) -> u32 {
    u32::from_be_bytes([body[0], body[1], body[2], body[3]])
}

// The number in the last body of a piece that is read from a record on, if the piece holds exactly so many.
fn last_in_piece(journal: &mut Journal<MemoryDisk>, first: u32, many: u32) -> Option<u32> {
    let mut piece = Stretch::new();
    if first > journal.count() || journal.bodies(first, &mut piece).is_err() {
        return None;
    }
    let last = first.saturating_add(many).saturating_sub(1);
    if last == u32::MAX || piece.has_body(last + 1) || !piece.has_body(last) {
        return None;
    }
    Some(number_in(&piece.body(last)))
}

#[test]
fn records_are_read_by_pieces(rt: HostRuntime) -> Result<(), Fail> {
    let alloc = rt.alloc();
    let bytes = long_file(alloc, 2100)?;
    let Ok(mut journal) = Journal::start(MemoryDisk::new(alloc, bytes, Vec::new(alloc))) else {
        return Err(Fail::new("not opened"));
    };
    assert!(rt; journal.count() == 2100);
    assert_rows!(rt; n in [0, 1, 1007, 1008, 2015, 2016, 2099] =>
        numbers_at(&mut journal, n), Some((n, n)); "record {n}");
    assert_rows!(rt; (first, many, last) in [(0, 1008, 1007), (1008, 1008, 2015), (2016, 84, 2099)] =>
        last_in_piece(&mut journal, first, many), Some(last); "from {first}");
    let disk = journal.release();
    // Sync, length, header, three pieces of gates; two reads for each record, one for each piece.
    assert!(rt; disk.calls() == 6 + 2 * 7 + 3);
    Ok(())
}

// How many bytes are cut off, the place of a gate and its byte, and the result.
type Long = (usize, usize, u8, Result<u32, JournalCause>);

// The last gate, the last body or a gate in the middle is wrong, far after the first piece.
const LONG: &[Long] = &[
    (0, 2100, 0, Ok(2100)),
    (0, 2100, 1, Err(JournalCause::BadRecord(2100))),
    (1, 2099, 1, Err(JournalCause::BadRecord(2099))),
    (0, 1008, 2, Ok(1008)),
    (30, 1500, 0, Ok(1500)),
];

fn is_answered(alloc: Global, long: &Long) -> Result<bool, AllocError> {
    let (cut, at, gate, answer) = *long;
    let mut bytes = long_file(alloc, 2100)?;
    if let Some(byte) = bytes.as_mut_slice().get_mut(17 + 65 * at.min(2100)) {
        *byte = gate;
    }
    let left = bytes.len().saturating_sub(cut);
    bytes.truncate(left);
    let (opened, _) = opened(MemoryDisk::new(alloc, bytes, Vec::new(alloc)));
    Ok(opened == answer)
}

#[test]
fn long_files_are_opened_or_refused(rt: HostRuntime) -> Result<(), AllocError> {
    assert_rows!(rt; (row, long) in LONG.iter().enumerate() => is_answered(rt.alloc(), long)?; "row {row}");
    Ok(())
}
