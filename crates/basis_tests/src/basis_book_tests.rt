ghost use Rattle.std.specs.Prelude.{◌≤◌, IfOk, length};
ghost use Rattle.basis_book.specs.Dated.{AreBounded};

use BasisFault::{BadBasisRow, NotRising, TooManyRows};
use basis_book::{Basis, BasisFault, BasisRows, LONGEST_FILE, Name, NoSuchTable, read_basis};
use indexmap::IndexMap;
use rate_table::RateTable;
use select_rates::AnyTable;
use std::alloc::Global;
use std::test::Fail;
use test_rows::assert_rows;

fn table(alloc: Global, first_age: u8) -> Result<AnyTable, Fail> {
    let rates = [500_000_000, 1_000_000_000].to_vec(alloc)?;
    let Ok(table) = RateTable::new(first_age, rates) else {
        return Err("a table".into());
    };
    Ok(AnyTable::Aggregate(table))
}

/// The first age of a table, for an age at issue that it holds.
fn first_age(table: &AnyTable) -> Option<u8> {
    match table.along(20) {
        Some(rates) => Some(rates.first_age()),
        None => None,
    }
}

/// The result of reading a file: the number of its rows, or its fault.
fn rows_of(alloc: Global, bytes: &[u8]) -> Result<usize, BasisFault>
    requires { length bytes.now ≤ LONGEST_FILE }
{
    match read_basis(alloc, bytes) {
        Ok(rows) => Ok(rows.as_slice().len()),
        Err(fault) => Err(fault),
    }
}

/// A file, and the number of its rows or its fault.
type File = (&'static [u8], Result<usize, BasisFault>);

const FILES: &[File] = &[
    (b"", Ok(0)),
    (b"1900-01-01,q.xml,0", Ok(1)),
    (
        b"1900-01-01,q.xml,0\n\n\n2199-12-31,Q_2-b.xml,2000\n",
        Ok(2),
    ),
    (b"\xef\xbb\xbf1900-01-01,q.xml,0\r\n", Ok(1)),
    (b"\"1900-01-01\",\"q.xml\",\"0\"\r2000-02-29,7,400", Ok(2)),
    (
        b"1900-01-01,q.xml,0\n1900-01-01,q.xml,0\n",
        Err(NotRising(2)),
    ),
    (
        b"1900-01-02,q.xml,0\n1900-01-01,q.xml,0\nx",
        Err(NotRising(2)),
    ),
    (
        b"1900-01-02,q.xml,0\n1900-01-01,q.xml,2001\n",
        Err(BadBasisRow(2)),
    ),
    (b"1900-01-01,q.xml", Err(BadBasisRow(1))),
    (b"1900-01-01,q.xml,0,0", Err(BadBasisRow(1))),
    (b"\"\"", Err(BadBasisRow(1))),
    (b"1899-12-31,q.xml,0", Err(BadBasisRow(1))),
    (b"2200-01-01,q.xml,0", Err(BadBasisRow(1))),
    (b"2001-02-29,q.xml,0", Err(BadBasisRow(1))),
    (b"1900-01-01,,0", Err(BadBasisRow(1))),
    (b"1900-01-01,.xml,0", Err(BadBasisRow(1))),
    (b"1900-01-01,a/b,0", Err(BadBasisRow(1))),
    (b"1900-01-01,\xe9,0", Err(BadBasisRow(1))),
    (b"1900-01-01,q.xml,", Err(BadBasisRow(1))),
    (b"1900-01-01,q.xml,00", Err(BadBasisRow(1))),
    (b"1900-01-01,q.xml,007", Err(BadBasisRow(1))),
    (b"1900-01-01,q.xml,+7", Err(BadBasisRow(1))),
    (b"1900-01-01,q.xml,2001", Err(BadBasisRow(1))),
    (b"1900-01-01,q.xml,70000", Err(BadBasisRow(1))),
    (b"1900-01-01,q.xml,0 ", Err(BadBasisRow(1))),
    (b"1900-01-01, q.xml,0", Err(BadBasisRow(1))),
];

fn is_read(alloc: Global, bytes: &[u8], expected: Result<usize, BasisFault>) -> bool {
    bytes.len() <= LONGEST_FILE && rows_of(alloc, bytes) == expected
}

#[test]
fn files(rt: HostRuntime) {
    assert_rows!(rt; (bytes, expected) in FILES => is_read(rt.alloc(), bytes, *expected); "{bytes:?}");
}

// Whether so many letters are a name.
fn are_name(alloc: Global, count: usize) -> Result<bool, Fail> {
    let name = vec![in alloc; b'a'; count]?;
    match Name::of(alloc, &name) {
        Ok(name) => Ok(name.is_some()),
        Err(_) => Err("memory".into()),
    }
}

// A thousand lines that are no rows, and an end.
fn thousand_lines(alloc: Global, end: &[u8]) -> Result<Vec<u8>, Fail> {
    let mut file = Vec::new(alloc);
    for _ in 0..1_000 {
        file.extend_from_slice(b"x\n")?;
    }
    file.extend_from_slice(end)?;
    Ok(file)
}

#[test]
fn names_and_many_rows(rt: HostRuntime) -> Result<(), Fail> {
    let alloc = rt.alloc();
    assert!(rt; are_name(alloc, 64)? && !are_name(alloc, 65)?);
    let file = thousand_lines(alloc, b"")?;
    assert!(rt; is_read(alloc, &file, Err(BadBasisRow(1))));
    let file = thousand_lines(alloc, b"1900-01-01,q.xml,0")?;
    assert!(rt; is_read(alloc, &file, Err(TooManyRows)));
    Ok(())
}

/// A thousand valid rows, one for each month from January 1900 on, whose tables have names of 64 letters.
fn thousand_rows(alloc: Global) -> Result<Vec<u8>, Fail> {
    let name = [b'Q'; 64];
    let mut file = Vec::new(alloc);
    for month in 0..1_000u32 {
        let (year, of_year) = (1900 + month / 12, 1 + month % 12);
        file.extend_from_slice(format!(in alloc; "{year}-{of_year:02}-01,")?.as_bytes())?;
        file.extend_from_slice(&name)?;
        file.extend_from_slice(b",2000\n")?;
    }
    Ok(file)
}

// The same with empty lines, which are no rows, up to the length of the longest file.
fn longest_file(alloc: Global) -> Result<Vec<u8>, Fail> {
    let mut file = thousand_rows(alloc)?;
    file.resize(LONGEST_FILE, b'\n')?;
    Ok(file)
}

#[test]
fn files_at_their_limits(rt: HostRuntime) -> Result<(), Fail> {
    let alloc = rt.alloc();
    let mut file = thousand_rows(alloc)?;
    assert!(rt; is_read(alloc, &file, Ok(1_000)));
    file.extend_from_slice(b"1983-05-01,q.xml,0\n")?;
    assert!(rt; is_read(alloc, &file, Err(TooManyRows)));
    let file = longest_file(alloc)?;
    assert!(rt; file.len() == LONGEST_FILE);
    assert!(rt; is_read(alloc, &file, Ok(1_000)));
    Ok(())
}

const THREE_ROWS: &[u8] = b"1970-01-01,a.xml,100\n1970-01-11,b.xml,200\n1970-01-21,a.xml,300\n";

fn three_rows(alloc: Global) -> Result<BasisRows, Fail>
    ensures { IfOk result AreBounded }
{
    if THREE_ROWS.len() > LONGEST_FILE {
        return Err("a short file".into());
    }
    match read_basis(alloc, THREE_ROWS) {
        Ok(rows) => Ok(rows),
        Err(_) => Err("rows".into()),
    }
}

/// The table of a name alone, or after that of another name.
fn tables(alloc: Global, behind: bool) -> Result<IndexMap<String, AnyTable>, Fail> {
    let mut tables = IndexMap::new(alloc);
    if behind {
        tables.insert(String::from_str(alloc, "b.xml")?, table(alloc, 20)?)?;
    }
    tables.insert(String::from_str(alloc, "a.xml")?, table(alloc, 10)?)?;
    Ok(tables)
}

fn basis(alloc: Global) -> Result<Basis, Fail> {
    match Basis::of(three_rows(alloc)?, tables(alloc, true)?) {
        Ok(basis) => Ok(basis),
        Err(_) => Err("a basis".into()),
    }
}

/// A day of issue, and what is picked for it: the number of the table, its first age, and the points.
type Picked = (i32, Option<(u16, Option<u8>, u16)>);

const PICKED: &[Picked] = &[
    (-1, None),
    (0, Some((0, Some(10), 100))),
    (9, Some((0, Some(10), 100))),
    (10, Some((1, Some(20), 200))),
    (19, Some((1, Some(20), 200))),
    (20, Some((2, Some(10), 300))),
    (84_005, Some((2, Some(10), 300))),
];

fn picked(basis: &Basis, issued: i32) -> Option<(u16, Option<u8>, u16)> {
    let (index, table, bp) = basis.pick(issued)?;
    Some((index, first_age(table), bp))
}

#[test]
fn picks(rt: HostRuntime) -> Result<(), Fail> {
    let basis = basis(rt.alloc())?;
    assert_rows!(rt; (issued, expected) in PICKED => picked(&basis, *issued), *expected; "{issued}");
    Ok(())
}

#[test]
fn a_table_that_is_named_and_missing(rt: HostRuntime) -> Result<(), Fail> {
    let missing = Basis::of(three_rows(rt.alloc())?, tables(rt.alloc(), false)?);
    assert!(rt; matches!(missing, Err(NoSuchTable(2))));
    Ok(())
}
