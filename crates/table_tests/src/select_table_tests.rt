// Files of select and ultimate tables: which rates hold at which issue age.

use select_rates::AnyTable;
use std::alloc::Global;
use std::test::Fail;
use test_rows::assert_rows;
use xtbml_subset::*;

/// The longest file that is read, in bytes.
const LONGEST: usize = 4_194_304;

/// The ultimate rates 0.1, 0.2, 0.25, 0.5 and 1 of the ages 0 to 4.
pub const ULTIMATE: &[u8] =
    b"<Table><Values><Axis><Y t=\"0\">0.1</Y><Y t=\"1\">0.2</Y><Y t=\"2\">0.25</Y><Y t=\"3\">0.5</Y><Y t=\"4\">1</Y></Axis></Values></Table>";

/// Two issue ages with a select period of two years: 0.05 and 0.1 at age 0, 0.1 and 0.2 at age 1.
pub const TWO_AGES: &[u8] =
    b"<Table><Values><Axis t=\"0\"><Axis><Y t=\"1\">0.05</Y><Y t=\"2\">0.1</Y></Axis></Axis><Axis t=\"1\"><Axis><Y t=\"1\">0.1</Y><Y t=\"2\">0.2</Y></Axis></Axis></Values></Table>";

/// The same table in each layout.
const LAYOUTS: &[&[u8]] = &[
    TWO_AGES,
    b"<Table><Values><Axis t=\"0\"><Axis><Y t=\"1\">0.05</Y><Y t=\"2\">0.1</Y><Y t=\"3\"/></Axis></Axis><Axis t=\"1\"><Axis><Y t=\"1\">0.1</Y><Y t=\"2\">0.2</Y><Y t=\"3\"/></Axis></Axis></Values></Table>",
    b"<Table><Values><Axis t=\"0\"><Axis><Y t=\"0\">0.05</Y><Y t=\"1\">0.1</Y><Y/> <Y t=\"x\">\n</Y></Axis></Axis><Axis t=\"1\"><Y t=\"1\">0.1</Y><Y t=\"2\">0.2</Y></Axis></Values></Table>",
    b"<Table><Values><Axis><Axis t=\"0\"><Y t=\"1\">0.05</Y><Y t=\"2\">0.1</Y></Axis><Axis t=\"1\"><Y t=\"1\">0.1</Y><Y t=\"2\">0.2</Y></Axis></Axis></Values></Table>",
    b"<Table><Values><Axis><Axis t=\"00\"><Axis><Y t=\"1\">0.05</Y><Y t=\"2\">0.1</Y></Axis></Axis><Axis t=\"1\"><Axis t=\"7\"><Y t=\"1\">0.1</Y><Y t=\"2\">0.2</Y></Axis></Axis></Axis><Axis><Axis t=\"2\"/></Axis></Values></Table>",
    b"<Table><Values><Axis t=\"0\"><Y t=\"1\">0.05</Y><Y t=\"2\">0.1</Y><Axis><Y t=\"1\">0.9</Y></Axis></Axis><Axis t=\"1\"><Z><Y t=\"5\">1</Y></Z><Axis/><Y t=\"1\">0.1</Y><Y t=\"2\">0.2</Y></Axis></Values></Table>",
];

/// By issue age, the first age of its table and the rates from there on, in units of 10^-9.
const RATES: &[(u8, u8, &[u32])] = &[
    (
        0,
        0,
        &[
            50_000_000,
            100_000_000,
            250_000_000,
            500_000_000,
            1_000_000_000,
        ],
    ),
    (
        1,
        1,
        &[100_000_000, 200_000_000, 500_000_000, 1_000_000_000],
    ),
    (
        2,
        0,
        &[
            100_000_000,
            200_000_000,
            250_000_000,
            500_000_000,
            1_000_000_000,
        ],
    ),
];

/// A root with these in it.
pub fn file_of(alloc: Global, first: &[u8], second: &[u8]) -> Result<Vec<u8>, Fail> {
    let mut file = b"<XTbML>".to_vec(alloc)?;
    file.extend_from_slice(first)?;
    file.extend_from_slice(second)?;
    file.extend_from_slice(b"</XTbML>")?;
    Ok(file)
}

/// What is read of a file. No file here is longer than the longest that is read.
fn any_of(alloc: Global, bytes: &[u8]) -> Result<AnyTable, TableFault> {
    read_any(alloc, &bytes[..bytes.len().min(LONGEST)])
}

/// Whether the bytes are read as a select table.
fn is_select(alloc: Global, bytes: &[u8]) -> bool {
    match any_of(alloc, bytes) {
        Ok(AnyTable::Select(_)) => true,
        _ => false,
    }
}

/// The fault of a file, and its place.
pub fn fault_of(alloc: Global, bytes: &[u8]) -> Option<(u32, TableKind)> {
    match any_of(alloc, bytes) {
        Err(TableFault::Bad { at, kind }) => Some((at, kind)),
        _ => None,
    }
}

/// The first age of the table of an issue age, and its rates.
fn along(table: &AnyTable, age: u8) -> Option<(u8, &[u32])> {
    let table = table.along(age)?;
    Some((table.first_age(), table.rates_from(table.first_age())))
}

fn is_along(alloc: Global, file: &[u8], age: u8, wanted: (u8, &[u32])) -> bool {
    match any_of(alloc, file) {
        Ok(table) => along(&table, age) == Some(wanted),
        Err(_) => false,
    }
}

#[test]
fn each_layout_is_read(rt: HostRuntime) -> Result<(), Fail> {
    assert_rows!(rt; (row, layout) in LAYOUTS.iter().enumerate(), (age, first_age, rates) in RATES => {
        let file = file_of(rt.alloc(), *layout, ULTIMATE)?;
        is_along(rt.alloc(), &file, *age, (*first_age, *rates)) && is_select(rt.alloc(), &file)
    }; "layout {row}, issue age {age}");
    Ok(())
}

/// Files of tables by age alone: the first axis has a label and rates, whatever comes after it.
const AGGREGATE: &[&[u8]] = &[
    b"<Table><Values><Axis><Y t=\"3\">0.5</Y><Y t=\"4\">1</Y></Axis></Values></Table>",
    b"<Table><Values><Axis t=\"0\"><Y t=\"3\">0.5</Y><Y t=\"4\">1</Y></Axis><Axis t=\"1\"><Axis><Y t=\"1\">0.1</Y></Axis></Axis></Values></Table>",
];

/// Their rates from age 3 on, in units of 10^-9.
const BY_AGE: &[u32] = &[500_000_000, 1_000_000_000];

#[test]
fn tables_by_age_alone_are_read_as_before(rt: HostRuntime) -> Result<(), Fail> {
    assert_rows!(rt; (row, first) in AGGREGATE.iter().enumerate(), age in [0, 3, 5] => {
        let file = file_of(rt.alloc(), *first, b"<Table><Values/></Table>")?;
        is_along(rt.alloc(), &file, age, (3, BY_AGE)) && !is_select(rt.alloc(), &file)
    }; "table {row}, issue age {age}");
    Ok(())
}

/// Rates of all issue ages, each up to age 130; the last rate of each issue age is the one given.
fn every_age(alloc: Global, last: &[u8]) -> Result<Vec<u8>, Fail> {
    let mut part = b"<Table><Values>".to_vec(alloc)?;
    for age in 0..131u8 {
        part.extend_from_slice(format!(in alloc; "<Axis t='{age}'><Axis>")?.as_bytes())?;
        for duration in 1..132 - age {
            part.extend_from_slice(format!(in alloc; "<Y t='{duration}'>0.{age}</Y>")?.as_bytes())?;
        }
        part.extend_from_slice(last)?;
        part.extend_from_slice(b"</Axis></Axis>")?;
    }
    part.extend_from_slice(b"</Values></Table>")?;
    Ok(part)
}

#[test]
fn all_issue_ages_with_all_durations(rt: HostRuntime) -> Result<(), Fail> {
    let part = every_age(rt.alloc(), b"<Y/><Y t='132'>\t</Y>")?;
    let file = file_of(rt.alloc(), &part, ULTIMATE)?;
    let table = any_of(rt.alloc(), &file)?;
    for age in 0..131u8 {
        let Some((first_age, rates)) = along(&table, age) else {
            return Err("a table".into());
        };
        assert_eq!(rt; (first_age, rates.len()), (age, 131 - usize::from(age)));
    }
    let part = every_age(rt.alloc(), b"<Y t='132'>0</Y>")?;
    let file = file_of(rt.alloc(), &part, ULTIMATE)?;
    let kind = fault_of(rt.alloc(), &file);
    assert!(rt; matches!(&kind, Some((_, TableKind::BadDuration))));
    Ok(())
}

/// What a long file has after an issue age's rates, with as many bytes in between as fit.
const FILLINGS: &[(&[u8], &[u8])] = &[
    (b"", b""),
    (b"<!--", b"-->"),
    (b"<Z>", b"</Z>"),
    (b"<", b"/>"),
    (b"<Z a='", b"'/>"),
];

#[test]
fn the_longest_select_file_is_read(rt: HostRuntime) -> Result<(), Fail> {
    let mut file =
        b"<XTbML><Table><Values><Axis t='0'><Axis><Y t='0'>0.05</Y><Y t='1'>0.1</Y>".to_vec(
            rt.alloc(),
        )?;
    for (open, close) in FILLINGS {
        file.extend_from_slice(*open)?;
        let filled = vec![in rt.alloc(); b'x'; 830_000]?;
        file.extend_from_slice(&filled)?;
        file.extend_from_slice(*close)?;
    }
    file.extend_from_slice(
        b"</Axis></Axis><Axis t='1'><Y t='0'>0.1</Y><Y t='1'>0.2</Y></Axis></Values></Table>",
    )?;
    let end =
        b"<Table><Values><Axis><Y t='0'>0.1</Y><Y t='1'>0.2</Y><Y t='2'>0.25</Y><Y t='3'>0.5</Y><Y t='4'>1</Y></Axis></Values></Table></XTbML>";
    assert!(rt; file.len() <= LONGEST - end.len());
    file.resize(LONGEST - end.len(), b' ')?;
    file.extend_from_slice(end)?;
    assert_eq!(rt; file.len(), LONGEST);
    let table = any_of(rt.alloc(), &file)?;
    assert_rows!(rt; (age, first_age, rates) in RATES =>
        along(&table, *age) == Some((*first_age, *rates)); "issue age {age}");
    Ok(())
}
