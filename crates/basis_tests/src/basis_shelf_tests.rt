use basis_book::{Basis, Name};
use basis_shelf::{NoBasis, bad_basis_line, fetch_basis};
use outside_io::{FetchFault, FolderShelf, MapShelf, Shelf};
use select_rates::AnyTable;
use std::alloc::Global;
use std::collections::BTreeMap;
use std::fs::{File as RealFile, create_dir, remove_dir, remove_file};
use std::io::Write;
use std::test::Fail;
use test_rows::assert_rows;

const BASIS: &str = "basis.csv";

const Q: &[u8] =
    b"<XTbML><Table><Values><Axis><Y t=\"0\">0.1</Y><Y t=\"1\">1</Y></Axis></Values></Table></XTbML>";

const SHORT: &[u8] =
    b"<XTbML><Table><Values><Axis><Y t=\"7\">1</Y></Axis></Values></Table></XTbML>";

const CUT: &[u8] = b"<XTbML><Table><Values><Axis><Y t=\"0\">0.1</Y><Y t=\"1\">0.";

const SELECT: &[u8] =
    b"<XTbML><Table><Values><Axis><Axis t=\"0\"/></Axis></Values></Table></XTbML>";

const SCALED: &[u8] =
    b"<XTbML><Table><MetaData><ScalingFactor>2</ScalingFactor></MetaData><Values><Axis><Y t=\"0\">1</Y></Axis></Values></Table></XTbML>";

const NO_AGE: &[u8] = b"<XTbML><Table><Values><Axis><Y>0.1</Y></Axis></Values></Table></XTbML>";

const GAP: &[u8] =
    b"<XTbML><Table><Values><Axis><Y t=\"0\">0.1</Y><Y t=\"2\">1</Y></Axis></Values></Table></XTbML>";

const ABOVE_ONE: &[u8] =
    b"<XTbML><Table><Values><Axis><Y t=\"0\">1.1</Y></Axis></Values></Table></XTbML>";

const ONE_ROW: &[u8] = b"1900-01-01,q.xml,0";

/// The second table is named by two rows, and the first again by the last.
const FIVE_ROWS: &[u8] =
    b"1970-01-01,q.xml,100\n1970-01-11,s.xml,200\n1970-01-21,s.xml,300\n1970-01-31,t.xml,400\n1970-02-10,q.xml,500\n";

/// A shelf with these files.
fn shelf(alloc: Global, files: &[(&str, &[u8])], failing: u64) -> Result<MapShelf, Fail> {
    let mut map = BTreeMap::new(alloc);
    for (name, bytes) in files {
        map.insert(String::from_str(alloc, name)?, bytes.to_vec(alloc)?)?;
    }
    Ok(MapShelf::new(map, vec![in alloc; failing]?))
}

/// The line of the first bad file, or a word.
fn told<H: Shelf>(alloc: Global, shelf: &mut H) -> Result<Vec<u8>, Fail> {
    let Ok(Some(name)) = Name::of(alloc, BASIS.as_bytes()) else {
        return Err("a name".into());
    };
    match fetch_basis(alloc, &name, shelf) {
        Ok(_) => Ok(b"basis".to_vec(alloc)?),
        Err(NoBasis::ReadFault) => Ok(b"readfault".to_vec(alloc)?),
        Err(NoBasis::NoMemory(_)) => Ok(b"nomemory".to_vec(alloc)?),
        Err(NoBasis::Bad(bad)) => match bad_basis_line(alloc, &bad) {
            Ok(text) => Ok(text.into_vec()),
            Err(_) => Err("a line".into()),
        },
    }
}

/// The name of a file, and the file.
type File = (&'static str, &'static [u8]);

/// What stands on a shelf, and the line of the first bad file, or a word.
const SHELVES: &[(&[File], &str)] = &[
    (
        &[(BASIS, ONE_ROW), ("q.xml", CUT)],
        "badbasis,q.xml,55,notdocument\n",
    ),
    (
        &[(BASIS, ONE_ROW), ("q.xml", b"")],
        "badbasis,q.xml,0,notdocument\n",
    ),
    (
        &[(BASIS, ONE_ROW), ("q.xml", b"<XTbML/>")],
        "badbasis,q.xml,0,notable\n",
    ),
    (
        &[(BASIS, ONE_ROW), ("q.xml", SELECT)],
        "badbasis,q.xml,28,badduration\n",
    ),
    (
        &[(BASIS, ONE_ROW), ("q.xml", SCALED)],
        "badbasis,q.xml,24,scaled\n",
    ),
    (
        &[(BASIS, ONE_ROW), ("q.xml", NO_AGE)],
        "badbasis,q.xml,28,badage\n",
    ),
    (
        &[(BASIS, ONE_ROW), ("q.xml", GAP)],
        "badbasis,q.xml,44,agegap\n",
    ),
    (
        &[(BASIS, ONE_ROW), ("q.xml", ABOVE_ONE)],
        "badbasis,q.xml,28,badrate\n",
    ),
    (&[(BASIS, ONE_ROW), ("q.xml", SHORT)], "basis"),
    (&[(BASIS, ONE_ROW), ("q.xml", Q)], "basis"),
    (&[("q.xml", CUT)], "badbasis,basis.csv,0,absent\n"),
    (&[(BASIS, b"")], "basis"),
    (
        &[(BASIS, b"x\n1900-01-01,q.xml,0")],
        "badbasis,basis.csv,1,badrow\n",
    ),
    (
        &[(BASIS, b"1900-01-01,q.xml,0\n1900-01-01,q.xml,0\n")],
        "badbasis,basis.csv,2,notrising\n",
    ),
    (&[(BASIS, FIVE_ROWS)], "badbasis,q.xml,1,absent\n"),
    (
        &[(BASIS, FIVE_ROWS), ("q.xml", Q)],
        "badbasis,s.xml,2,absent\n",
    ),
    (
        &[(BASIS, FIVE_ROWS), ("q.xml", Q), ("t.xml", CUT)],
        "badbasis,s.xml,2,absent\n",
    ),
    (
        &[(BASIS, FIVE_ROWS), ("q.xml", Q), ("s.xml", SHORT)],
        "badbasis,t.xml,4,absent\n",
    ),
    (
        &[
            (BASIS, FIVE_ROWS),
            ("q.xml", Q),
            ("s.xml", CUT),
            ("t.xml", SELECT),
        ],
        "badbasis,s.xml,55,notdocument\n",
    ),
    (
        &[
            (BASIS, FIVE_ROWS),
            ("q.xml", Q),
            ("s.xml", SHORT),
            ("t.xml", Q),
        ],
        "basis",
    ),
];

fn is_told<H: Shelf>(alloc: Global, shelf: &mut H, expected: &str) -> Result<bool, Fail> {
    Ok(told(alloc, shelf)?.as_slice() == expected.as_bytes())
}

#[test]
fn first_bad_files(rt: HostRuntime) -> Result<(), Fail> {
    assert_rows!(rt; (files, expected) in SHELVES => {
        let mut shelf = shelf(rt.alloc(), files, 0)?;
        is_told(rt.alloc(), &mut shelf, expected)?
    }; "{expected}");
    Ok(())
}

/// A front, so many bytes behind it, as the basis or as the table, and the line.
type Long = (&'static [u8], usize, u8, bool, &'static str);

const LONG_FILES: &[Long] = &[
    (b"", 4_194_304, b'\n', true, "basis"),
    (
        b"",
        4_194_305,
        b'\n',
        true,
        "badbasis,basis.csv,0,toolong\n",
    ),
    (Q, 4_194_304, b' ', false, "basis"),
    (b"", 4_194_305, b'\n', false, "badbasis,q.xml,1,toolong\n"),
];

// A file that begins so, with this byte up to that length.
fn long_file(alloc: Global, front: &[u8], length: usize, byte: u8) -> Result<Vec<u8>, Fail> {
    let mut file = front.to_vec(alloc)?;
    file.resize(length, byte)?;
    Ok(file)
}

fn is_told_of(alloc: Global, basis: &[u8], table: &[u8], expected: &str) -> Result<bool, Fail> {
    let mut shelf = shelf(alloc, &[(BASIS, basis), ("q.xml", table)], 0)?;
    is_told(alloc, &mut shelf, expected)
}

fn holds(alloc: Global, long: &Long) -> Result<bool, Fail> {
    let (front, length, byte, is_basis, expected) = *long;
    let file = long_file(alloc, front, length, byte)?;
    if is_basis {
        is_told_of(alloc, &file, b"", expected)
    } else {
        is_told_of(alloc, ONE_ROW, &file, expected)
    }
}

// A thousand lines that are no rows, and an end.
fn thousand_lines(alloc: Global, end: &[u8]) -> Result<Vec<u8>, Fail> {
    let mut file = Vec::new(alloc);
    for _ in 0..1_000 {
        file.extend_from_slice(b"x\n")?;
    }
    file.extend_from_slice(end)?;
    Ok(file)
}

#[test]
fn files_at_their_limits(rt: HostRuntime) -> Result<(), Fail> {
    let alloc = rt.alloc();
    assert_rows!(rt; (row, long) in LONG_FILES.iter().enumerate() => holds(alloc, long)?; "row {row}");
    let rows = thousand_lines(alloc, b"")?;
    assert!(rt; is_told_of(alloc, &rows, b"", "badbasis,basis.csv,1,badrow\n")?);
    let rows = thousand_lines(alloc, b"x")?;
    assert!(rt; is_told_of(alloc, &rows, b"", "badbasis,basis.csv,1001,toomanyrows\n")?);
    Ok(())
}

const WHOLE: &[File] = &[
    (BASIS, FIVE_ROWS),
    ("q.xml", Q),
    ("s.xml", SHORT),
    ("t.xml", Q),
];

/// Each of the four fetches fails in turn; there is no fifth, though five rows name tables.
const FETCHES: &[(u64, &str, u64)] = &[
    (1, "readfault", 1),
    (2, "readfault", 1),
    (3, "readfault", 1),
    (4, "readfault", 1),
    (5, "basis", 0),
];

#[test]
fn failing_fetches(rt: HostRuntime) -> Result<(), Fail> {
    assert_rows!(rt; (failing, expected, faults) in FETCHES => {
        let mut shelf = shelf(rt.alloc(), WHOLE, *failing)?;
        is_told(rt.alloc(), &mut shelf, expected)? && shelf.faults() == *faults
    }; "fetch {failing}");
    Ok(())
}

/// The number of a row, the first and the last age of its table's rates for age 0 at issue, and the points.
type Picked = (u16, Option<(u8, u8)>, u16);

const PICKED: &[(i32, Option<Picked>)] = &[
    (-1, None),
    (0, Some((0, Some((0, 1)), 100))),
    (10, Some((1, Some((7, 7)), 200))),
    (29, Some((2, Some((7, 7)), 300))),
    (30, Some((3, Some((0, 1)), 400))),
    (40, Some((4, Some((0, 1)), 500))),
];

fn ages_of(table: &AnyTable) -> Option<(u8, u8)> {
    match table.along(0) {
        Some(rates) => Some((rates.first_age(), rates.last_age())),
        None => None,
    }
}

fn picked(basis: &Basis, issued: i32) -> Option<Picked> {
    let (index, table, bp) = basis.pick(issued)?;
    Some((index, ages_of(table), bp))
}

fn basis(alloc: Global) -> Result<Basis, Fail> {
    let mut shelf = shelf(alloc, WHOLE, 0)?;
    let Ok(Some(name)) = Name::of(alloc, BASIS.as_bytes()) else {
        return Err("a name".into());
    };
    match fetch_basis(alloc, &name, &mut shelf) {
        Ok(basis) => Ok(basis),
        Err(_) => Err("a basis".into()),
    }
}

#[test]
fn picks(rt: HostRuntime) -> Result<(), Fail> {
    let basis = basis(rt.alloc())?;
    assert_rows!(rt; (issued, expected) in PICKED => picked(&basis, *issued), *expected; "{issued}");
    Ok(())
}

/// The bytes of the file with this name, or why the shelf gave none.
fn fetched<H: Shelf>(
    alloc: Global,
    shelf: &mut H,
    name: &str,
) -> Result<Result<Vec<u8>, FetchFault>, Fail> {
    match Name::of(alloc, name.as_bytes()) {
        Ok(Some(name)) => Ok(shelf.fetch(alloc, name.text())),
        _ => Err("a name".into()),
    }
}

#[test]
fn shelves_of_a_folder(rt: HostRuntime) -> Result<(), Fail> {
    let alloc = rt.alloc();
    let name = "basis_shelf.test";
    let folder = "basis_shelf.folder";
    RealFile::create(&rt, name)?.write_all(b"two\nlines")?;
    create_dir(&rt, folder)?;
    let mut shelf = FolderShelf::new(rt.clone()?);
    let Ok(bytes) = fetched(alloc, &mut shelf, name)? else {
        return Err("not found".into());
    };
    assert!(rt; bytes.as_slice() == b"two\nlines".as_slice());
    RealFile::create(&rt, name)?.set_len(4_194_305)?;
    let long = fetched(alloc, &mut shelf, name)?.err();
    remove_file(&rt, name)?;
    let absent = fetched(alloc, &mut shelf, name)?.err();
    let failed = fetched(alloc, &mut shelf, folder)?.err();
    remove_dir(&rt, folder)?;
    assert!(rt; (long, absent) == (Some(FetchFault::TooLong), Some(FetchFault::Absent)));
    assert!(rt; (failed, shelf.faults()) == (Some(FetchFault::Failed), 1));
    Ok(())
}

#[test]
fn shelves_in_memory(rt: HostRuntime) -> Result<(), Fail> {
    let alloc = rt.alloc();
    let mut shelf = shelf(alloc, &[("q.xml", b"<Y/>")], 3)?;
    let found = fetched(alloc, &mut shelf, "q.xml")?.is_ok();
    let absent = fetched(alloc, &mut shelf, "g.xml")?.err();
    let failed = fetched(alloc, &mut shelf, "q.xml")?.err();
    assert!(rt;
        (found, absent, failed) == (true, Some(FetchFault::Absent), Some(FetchFault::Failed))
    );
    Ok(())
}
