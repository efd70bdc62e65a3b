// Whole runs over devices in memory, some of which fail. Texts, statuses and files are written by hand from the
// formats; the values and the payments that are expected are worked out by hand from the rates.
use crate::cases::{Case, Failing, File, holds};
use crate::devices::{BASIS, FLAT};
use std::alloc::AllocError;
use test_rows::assert_rows;

const POLICY: &str = "1,issue,7001,2020-01-01,endowment,0,3,1000.00,400.00\n";

const TWICE: &str = "1,issue,7001,2020-01-01,endowment,0,3,1000.00,400.00\n\
    1,issue,7001,2020-01-01,endowment,0,3,1000.00,400.00\n";

const OLD_AND_NEW: &str = "1,issue,9,1900-01-01,whole,129,0,0.01,0.01\n\
    1,issue,7001,2020-01-01,endowment,0,3,1000.00,400.00\n";

const ASKS: &str =
    "1,issue,7001,2020-01-01,endowment,0,3,1000.00,400.00\n1,value,2021-01-01,now,1\n";

const ASKS_FOR_NONE: &str = "1,issue,7001,2020-01-01,endowment,0,3,1000.00,400.00\n1,trim\n";

const VALUED: &str =
    "0,value,2021-01-01,1,1\nrow,7001,inforce,1,127.22,127.23\ntotal,127.22,127.23,0\n";

const THREE_YEARS: &str = "project,2020-12-31,1,1,3\nyear,0,400.00,400.00,100.00,100.00,0.00,0.00\n\
    year,1,360.00,360.00,180.00,180.00,0.00,0.00\nyear,2,288.00,288.00,180.00,180.00,540.00,540.00\n\
    unvalued,0\n";

const ENTRIES: &str = "entry,1,issue,2020-01-01,endowment,0,3,1000.00,400.00\n\
    policy,7001,inforce,endowment,0,3,1000.00,400.00,2020-01-01,0,0.00\n";

const ALL_WELL: &[Failing] = &[Failing::Nothing];

const BOTH_FETCHES: &[Failing] = &[Failing::Fetch(1), Failing::Fetch(2)];

const FIVE_DISK_CALLS: &[Failing] = &[
    Failing::Disk(1),
    Failing::Disk(2),
    Failing::Disk(3),
    Failing::Disk(4),
    Failing::Disk(5),
];

const TEN_DISK_CALLS: &[Failing] = &[
    Failing::Disk(1),
    Failing::Disk(2),
    Failing::Disk(3),
    Failing::Disk(4),
    Failing::Disk(5),
    Failing::Disk(6),
    Failing::Disk(7),
    Failing::Disk(8),
    Failing::Disk(9),
    Failing::Disk(10),
];

// LIFEJRNL, 1, 64 and four zeros stand after byte 0.
const HEAD: [u8; 16] = [
    0x4c, 0x49, 0x46, 0x45, 0x4a, 0x52, 0x4e, 0x4c, 0x00, 0x01, 0x00, 0x40, 0x00, 0x00, 0x00, 0x00,
];

const FLIPPED_HEAD: [u8; 16] = [
    0x4c, 0x49, 0x46, 0x45, 0x4a, 0x52, 0x4e, 0x4d, 0x00, 0x01, 0x00, 0x40, 0x00, 0x00, 0x00, 0x00,
];

const ZEROS: [u8; 36] = [0; 36];
// Kind, plan, age and years; the id 7001; the day 18262; 100,000 cents; 40,000 cents.
const FIELDS: [u8; 28] = [
    1, 3, 0, 3, 0, 0, 0x1b, 0x59, 0, 0, 0x47, 0x56, 0, 0, 0, 0, 0, 1, 0x86, 0xa0, 0, 0, 0, 0, 0, 0,
    0x9c, 0x40,
];
// The same with the kind 9, which has no fields.
const NO_KIND: [u8; 28] = [
    9, 3, 0, 3, 0, 0, 0x1b, 0x59, 0, 0, 0x47, 0x56, 0, 0, 0, 0, 0, 1, 0x86, 0xa0, 0, 0, 0, 0, 0, 0,
    0x9c, 0x40,
];
// The same with the id 0, which no policy has.
const NAMELESS: [u8; 28] = [
    1, 3, 0, 3, 0, 0, 0, 0, 0, 0, 0x47, 0x56, 0, 0, 0, 0, 0, 1, 0x86, 0xa0, 0, 0, 0, 0, 0, 0, 0x9c,
    0x40,
];
// The same with the day 200000, which no date has.
const LATE: [u8; 28] = [
    1, 3, 0, 3, 0, 0, 0x1b, 0x59, 0, 3, 0x0d, 0x40, 0, 0, 0, 0, 0, 1, 0x86, 0xa0, 0, 0, 0, 0, 0, 0,
    0x9c, 0x40,
];
// The day -25567, a cent and a cent.
const OLD_FIELDS: [u8; 28] = [
    1, 2, 129, 0, 0, 0, 0, 9, 0xff, 0xff, 0x9c, 0x21, 0, 0, 0, 0, 0, 0, 0, 1, 0, 0, 0, 0, 0, 0, 0,
    1,
];

// The kind 9 alone.
const UPGRADE: [u8; 28] = [
    9, 0, 0, 0, 0, 0, 0, 0, 0, 0, 0, 0, 0, 0, 0, 0, 0, 0, 0, 0, 0, 0, 0, 0, 0, 0, 0, 0,
];
// The kind 10; the id 7001; the day 18597; 30,000 cents.
const MADE_PAID_UP: [u8; 28] = [
    10, 0, 0, 0, 0, 0, 0x1b, 0x59, 0, 0, 0x48, 0xa5, 0, 0, 0, 0, 0, 0, 0x75, 0x30, 0, 0, 0, 0, 0,
    0, 0, 0,
];

const NOTHING: File = &[];

const NO_RECORD: File = &[&[1], &HEAD, &[0]];

const ONE_RECORD: File = &[&[1], &HEAD, &[1], &FIELDS, &ZEROS, &[0]];

const UPGRADED: File = &[&[1], &HEAD, &[1], &UPGRADE, &ZEROS, &[0]];

const TWO_RECORDS: File = &[
    &[1],
    &HEAD,
    &[1],
    &OLD_FIELDS,
    &ZEROS,
    &[1],
    &FIELDS,
    &ZEROS,
    &[0],
];

const RUNS: &[Case] = &[
    Case {
        words: &["run"],
        script: "",
        shelf: &[],
        journal: NOTHING,
        failing: ALL_WELL,
        status: 0,
        written: "",
        left: NO_RECORD,
    },
    Case {
        words: &["run"],
        script: "\n\n",
        shelf: &[],
        journal: NOTHING,
        failing: ALL_WELL,
        status: 0,
        written: "",
        left: NO_RECORD,
    },
    Case {
        words: &["run"],
        script: POLICY,
        shelf: &[],
        journal: NOTHING,
        failing: ALL_WELL,
        status: 0,
        written: "1,issue,7001,accepted,1\n",
        left: ONE_RECORD,
    },
    Case {
        words: &["run"],
        script: TWICE,
        shelf: &[],
        journal: NOTHING,
        failing: ALL_WELL,
        status: 0,
        written: "1,issue,7001,accepted,1\n1,issue,7001,refused,taken\n",
        left: ONE_RECORD,
    },
    Case {
        words: &["run"],
        script: OLD_AND_NEW,
        shelf: &[],
        journal: NOTHING,
        failing: ALL_WELL,
        status: 0,
        written: "1,issue,9,accepted,1\n1,issue,7001,accepted,2\n",
        left: TWO_RECORDS,
    },
    Case {
        words: &["run"],
        script: POLICY,
        shelf: &[],
        journal: ONE_RECORD,
        failing: ALL_WELL,
        status: 0,
        written: "1,issue,7001,refused,taken\n",
        left: ONE_RECORD,
    },
    Case {
        words: &["run"],
        script: "1,issue,0,2020-01-01,term,30,10,1.00,1.00\n",
        shelf: &[],
        journal: NOTHING,
        failing: ALL_WELL,
        status: 3,
        written: "badscript,1,3\n",
        left: NOTHING,
    },
    Case {
        words: &["run"],
        script: "1,issue,7001,2020-01-01,endowment,0,3,1000.00,400.00\n\n9,lapse,1,2020-01-01\n",
        shelf: &[],
        journal: NOTHING,
        failing: ALL_WELL,
        status: 3,
        written: "badscript,2,1\n",
        left: NOTHING,
    },
    Case {
        words: &["run"],
        script: "1,issue,7001,2020-01-01,endowment,0,3,1000.00,400.00\n0,lapse,1,2020-01-01\n",
        shelf: &[],
        journal: NOTHING,
        failing: ALL_WELL,
        status: 3,
        written: "badscript,2,1\n",
        left: NOTHING,
    },
    Case {
        words: &["run"],
        script: "1,issue,5,2020-01-01,term,30,10,1.00,1.00,\n",
        shelf: &[],
        journal: NOTHING,
        failing: ALL_WELL,
        status: 3,
        written: "badscript,1,10\n",
        left: NOTHING,
    },
    Case {
        words: &["run", "--at"],
        script: POLICY,
        shelf: &[],
        journal: NOTHING,
        failing: ALL_WELL,
        status: 2,
        written: "usage\n",
        left: NOTHING,
    },
    Case {
        words: &[],
        script: POLICY,
        shelf: &[],
        journal: NOTHING,
        failing: ALL_WELL,
        status: 2,
        written: "usage\n",
        left: NOTHING,
    },
    Case {
        words: &["run"],
        script: POLICY,
        shelf: &[],
        journal: NOTHING,
        failing: &[Failing::Read(1), Failing::Read(2)],
        status: 6,
        written: "readfault\n",
        left: NOTHING,
    },
    Case {
        words: &["run"],
        script: POLICY,
        shelf: &[],
        journal: NOTHING,
        failing: &[Failing::Write(1)],
        status: 7,
        written: "",
        left: ONE_RECORD,
    },
    // A journal of one record is opened in five calls: sync, length, header, the piece of its gates, the piece of its
    // body.
    Case {
        words: &["run"],
        script: POLICY,
        shelf: &[],
        journal: ONE_RECORD,
        failing: FIVE_DISK_CALLS,
        status: 8,
        written: "diskfault\n",
        left: ONE_RECORD,
    },
];

// Files that are opened or refused.
const FILES: &[Case] = &[
    Case {
        words: &["run"],
        script: "",
        shelf: &[],
        journal: &[&[0; 10]],
        failing: ALL_WELL,
        status: 0,
        written: "",
        left: NO_RECORD,
    },
    // Bytes after the first closed gate have no meaning.
    Case {
        words: &["run"],
        script: POLICY,
        shelf: &[],
        journal: &[&[1], &HEAD, &[2], &FIELDS, &ZEROS, &[0]],
        failing: ALL_WELL,
        status: 0,
        written: "1,issue,7001,accepted,1\n",
        left: ONE_RECORD,
    },
    Case {
        words: &["run"],
        script: POLICY,
        shelf: &[],
        journal: &[&[65; 18]],
        failing: ALL_WELL,
        status: 5,
        written: "badjournal,notajournal\n",
        left: &[&[65; 18]],
    },
    Case {
        words: &["run"],
        script: "",
        shelf: &[],
        journal: &[&[65; 18]],
        failing: ALL_WELL,
        status: 5,
        written: "badjournal,notajournal\n",
        left: &[&[65; 18]],
    },
    // A flipped bit in the header, and in byte 0 of a file that is too long for a creation.
    Case {
        words: &["run"],
        script: POLICY,
        shelf: &[],
        journal: &[&[1], &FLIPPED_HEAD, &[0]],
        failing: ALL_WELL,
        status: 5,
        written: "badjournal,notajournal\n",
        left: &[&[1], &FLIPPED_HEAD, &[0]],
    },
    Case {
        words: &["run"],
        script: POLICY,
        shelf: &[],
        journal: &[&[3], &HEAD, &[1], &FIELDS, &ZEROS, &[0]],
        failing: ALL_WELL,
        status: 5,
        written: "badjournal,notajournal\n",
        left: &[&[3], &HEAD, &[1], &FIELDS, &ZEROS, &[0]],
    },
    // A creation of which everything but byte 0 was written.
    Case {
        words: &["run"],
        script: "",
        shelf: &[],
        journal: &[&[2], &HEAD, &[7]],
        failing: ALL_WELL,
        status: 0,
        written: "",
        left: NO_RECORD,
    },
    // A second upgrade, and a policy made paid up before the first.
    Case {
        words: &["run"],
        script: "",
        shelf: &[],
        journal: UPGRADED,
        failing: ALL_WELL,
        status: 0,
        written: "",
        left: UPGRADED,
    },
    Case {
        words: &["run"],
        script: POLICY,
        shelf: &[],
        journal: &[
            &[1],
            &HEAD,
            &[1],
            &UPGRADE,
            &ZEROS,
            &[1],
            &UPGRADE,
            &ZEROS,
            &[0],
        ],
        failing: ALL_WELL,
        status: 5,
        written: "badjournal,badrecord,1\n",
        left: &[
            &[1],
            &HEAD,
            &[1],
            &UPGRADE,
            &ZEROS,
            &[1],
            &UPGRADE,
            &ZEROS,
            &[0],
        ],
    },
    Case {
        words: &["run"],
        script: POLICY,
        shelf: &[],
        journal: &[
            &[1],
            &HEAD,
            &[1],
            &FIELDS,
            &ZEROS,
            &[1],
            &MADE_PAID_UP,
            &ZEROS,
            &[0],
        ],
        failing: ALL_WELL,
        status: 5,
        written: "badjournal,badrecord,1\n",
        left: &[
            &[1],
            &HEAD,
            &[1],
            &FIELDS,
            &ZEROS,
            &[1],
            &MADE_PAID_UP,
            &ZEROS,
            &[0],
        ],
    },
    // The kind 9 with fields, the id 0, the day 200000, a byte after the fields, the same policy twice.
    Case {
        words: &["run"],
        script: POLICY,
        shelf: &[],
        journal: &[&[1], &HEAD, &[1], &NO_KIND, &ZEROS, &[0]],
        failing: ALL_WELL,
        status: 5,
        written: "badjournal,badrecord,0\n",
        left: &[&[1], &HEAD, &[1], &NO_KIND, &ZEROS, &[0]],
    },
    Case {
        words: &["run"],
        script: "",
        shelf: &[],
        journal: &[&[1], &HEAD, &[1], &NO_KIND, &ZEROS, &[0]],
        failing: ALL_WELL,
        status: 5,
        written: "badjournal,badrecord,0\n",
        left: &[&[1], &HEAD, &[1], &NO_KIND, &ZEROS, &[0]],
    },
    Case {
        words: &["run"],
        script: POLICY,
        shelf: &[],
        journal: &[&[1], &HEAD, &[1], &NAMELESS, &ZEROS, &[0]],
        failing: ALL_WELL,
        status: 5,
        written: "badjournal,badrecord,0\n",
        left: &[&[1], &HEAD, &[1], &NAMELESS, &ZEROS, &[0]],
    },
    Case {
        words: &["run"],
        script: POLICY,
        shelf: &[],
        journal: &[&[1], &HEAD, &[1], &LATE, &ZEROS, &[0]],
        failing: ALL_WELL,
        status: 5,
        written: "badjournal,badrecord,0\n",
        left: &[&[1], &HEAD, &[1], &LATE, &ZEROS, &[0]],
    },
    Case {
        words: &["run"],
        script: POLICY,
        shelf: &[],
        journal: &[&[1], &HEAD, &[1], &FIELDS, &[1; 36], &[0]],
        failing: ALL_WELL,
        status: 5,
        written: "badjournal,badrecord,0\n",
        left: &[&[1], &HEAD, &[1], &FIELDS, &[1; 36], &[0]],
    },
    Case {
        words: &["run"],
        script: POLICY,
        shelf: &[],
        journal: &[
            &[1],
            &HEAD,
            &[1],
            &FIELDS,
            &ZEROS,
            &[1],
            &FIELDS,
            &ZEROS,
            &[0],
        ],
        failing: ALL_WELL,
        status: 5,
        written: "badjournal,badrecord,1\n",
        left: &[
            &[1],
            &HEAD,
            &[1],
            &FIELDS,
            &ZEROS,
            &[1],
            &FIELDS,
            &ZEROS,
            &[0],
        ],
    },
    // Cut short by one byte. A fault of the journal's own layout comes before a fault in an earlier record.
    Case {
        words: &["run"],
        script: POLICY,
        shelf: &[],
        journal: &[&[1], &HEAD, &[1], &FIELDS, &ZEROS],
        failing: ALL_WELL,
        status: 5,
        written: "badjournal,badrecord,0\n",
        left: &[&[1], &HEAD, &[1], &FIELDS, &ZEROS],
    },
    Case {
        words: &["run"],
        script: POLICY,
        shelf: &[],
        journal: &[&[1], &HEAD, &[1], &NAMELESS, &ZEROS, &[1], &FIELDS],
        failing: ALL_WELL,
        status: 5,
        written: "badjournal,badrecord,1\n",
        left: &[&[1], &HEAD, &[1], &NAMELESS, &ZEROS, &[1], &FIELDS],
    },
];

const DEVICES: &[Case] = &[
    // A valuation and a projection call the shelf twice, for the basis and for the table, the disk five times and the
    // output once.
    Case {
        words: &["value", "2021-01-01"],
        script: "",
        shelf: BASIS,
        journal: ONE_RECORD,
        failing: &[
            Failing::Nothing,
            Failing::Fetch(3),
            Failing::Disk(6),
            Failing::Write(2),
        ],
        status: 0,
        written: VALUED,
        left: ONE_RECORD,
    },
    Case {
        words: &["value", "2021-01-01"],
        script: "",
        shelf: BASIS,
        journal: ONE_RECORD,
        failing: BOTH_FETCHES,
        status: 6,
        written: "readfault\n",
        left: ONE_RECORD,
    },
    Case {
        words: &["value", "2021-01-01"],
        script: "",
        shelf: BASIS,
        journal: ONE_RECORD,
        failing: FIVE_DISK_CALLS,
        status: 8,
        written: "diskfault\n",
        left: ONE_RECORD,
    },
    Case {
        words: &["value", "2021-01-01"],
        script: "",
        shelf: BASIS,
        journal: ONE_RECORD,
        failing: &[Failing::Write(1)],
        status: 7,
        written: "",
        left: ONE_RECORD,
    },
    // If a table is missing, the status is 4, even if the line that names it can't be written.
    Case {
        words: &["value", "2021-01-01"],
        script: "",
        shelf: &[("basis.csv", FLAT)],
        journal: ONE_RECORD,
        failing: &[Failing::Write(1)],
        status: 4,
        written: "",
        left: ONE_RECORD,
    },
    Case {
        words: &["project", "2020-12-31", "3"],
        script: "",
        shelf: BASIS,
        journal: ONE_RECORD,
        failing: &[
            Failing::Nothing,
            Failing::Fetch(3),
            Failing::Disk(6),
            Failing::Write(2),
        ],
        status: 0,
        written: THREE_YEARS,
        left: ONE_RECORD,
    },
    Case {
        words: &["project", "2020-12-31", "3"],
        script: "",
        shelf: BASIS,
        journal: ONE_RECORD,
        failing: BOTH_FETCHES,
        status: 6,
        written: "readfault\n",
        left: ONE_RECORD,
    },
    Case {
        words: &["project", "2020-12-31", "3"],
        script: "",
        shelf: BASIS,
        journal: ONE_RECORD,
        failing: FIVE_DISK_CALLS,
        status: 8,
        written: "diskfault\n",
        left: ONE_RECORD,
    },
    Case {
        words: &["project", "2020-12-31", "3"],
        script: "",
        shelf: BASIS,
        journal: ONE_RECORD,
        failing: &[Failing::Write(1)],
        status: 7,
        written: "",
        left: ONE_RECORD,
    },
    Case {
        words: &["project", "2020-12-31", "3"],
        script: "",
        shelf: BASIS,
        journal: &[&[65; 18]],
        failing: ALL_WELL,
        status: 5,
        written: "badjournal,notajournal\n",
        left: &[&[65; 18]],
    },
    // A journal of one record is opened in five calls, and read again for a policy's entries in five more.
    Case {
        words: &["state", "7001"],
        script: "",
        shelf: &[],
        journal: ONE_RECORD,
        failing: TEN_DISK_CALLS,
        status: 8,
        written: "diskfault\n",
        left: ONE_RECORD,
    },
    Case {
        words: &["state", "7001"],
        script: "",
        shelf: &[],
        journal: ONE_RECORD,
        failing: &[Failing::Disk(11)],
        status: 0,
        written: ENTRIES,
        left: ONE_RECORD,
    },
    // A script that asks for values needs its basis before anything is posted; another script ignores the shelf.
    Case {
        words: &["run"],
        script: ASKS,
        shelf: BASIS,
        journal: NOTHING,
        failing: BOTH_FETCHES,
        status: 6,
        written: "readfault\n",
        left: NOTHING,
    },
    Case {
        words: &["run"],
        script: ASKS_FOR_NONE,
        shelf: &[],
        journal: NOTHING,
        failing: &[Failing::Fetch(1)],
        status: 0,
        written: "1,issue,7001,accepted,1\n1,trim,1\n",
        left: ONE_RECORD,
    },
];

#[test]
fn calls_end_as_they_must(rt: HostRuntime) -> Result<(), AllocError> {
    assert_rows!(rt; cases in [RUNS, FILES, DEVICES], (row, case) in cases.iter().enumerate(), failing in case.failing =>
        holds(&rt, rt.alloc(), case, *failing)?; "row {row} of {}", cases.len());
    Ok(())
}
