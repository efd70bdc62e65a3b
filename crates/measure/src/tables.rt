// Table files and basis files, read again and again.
ghost use Rattle.std.specs.Prelude.{◌≡◌, ◌≤◌, ◌<◌, ◌+◌, ℕ, List, length, IfOk, IfErr, MatchOption, Err};
ghost use Rattle.basis_book.specs.declared.row.BasisRow.{BasisRow};
ghost use Rattle.basis_book.specs.File.{IsBasisFile, IsFileFault};
ghost use Rattle.rate_table.specs.Rates.{Rates, last_age_of};
ghost use Rattle.xtbml_subset.specs.Answers.{IsTableAnswer, SpellsTable, Unless};

use crate::words::{Outcome, number_in};
use basis_book::{BasisFault, LONGEST_FILE, read_basis};
use std::alloc::Global;
use std::env::Args;
use std::fs::File;
use std::rt::Files;
use std::{fs, io};
use xtbml_subset::{TableFault, read_table};

/// What can be read again and again.
pub trait Reading {
    /// How often it was read.
    ghost readings: { Self → ℕ };

    /// It was read, and what it was read as last is what it holds.
    ghost is_read: { Self → Type 0 };

    /// Reads once more.
    fn read(&mut self)
        requires { readings self.old + 1 ≤ 4294967295 }
        ensures count { readings self.new ≡ readings self.old + 1 }
        ensures read { is_read self.new };
}

/// Reads so many times.
pub fn repeat<R: Reading>(reading: &mut R, times: u32)
    requires { R.readings reading.old + times ≤ 4294967295 }
    ensures count { R.readings reading.new ≡ R.readings reading.old + times }
    ensures read { 0 < times → R.is_read reading.new }
{
    let mut left = times;
    while left > 0 {
        reading.read();
        left -= 1;
    }
}

/// A basis file, and what it was read as last.
#[derive(Drop)]
pub struct BasisFile<'a> {
    pub alloc: Global,
    pub bytes: &'a [u8],
    pub count: u32,
    pub last: Option<Result<usize, BasisFault>>,
    ghost short: { length bytes.now ≤ 4194304 },
}

impl Reading for BasisFile<'_> {
    ghost readings = { λ file. file.count };

    ghost is_read = { λ file. MatchOption file.last ⊥ (λ read.
        IfOk read (λ count. (found : List BasisRow) × IsBasisFile file.bytes.now found × (count ≡ length found))
        × IfErr read (IsFileFault file.bytes.now)) };

    fn read(&mut self) {
        self.count += 1;
        self.last = Some(rows(self.alloc, self.bytes));
    }
}

fn rows(alloc: Global, bytes: &[u8]) -> Result<usize, BasisFault>
    requires { length bytes.now ≤ LONGEST_FILE }
    ensures rows { IfOk result (λ count. (found : List BasisRow) × IsBasisFile bytes.now found × (count ≡ length found)) }
    ensures faults { IfErr result (IsFileFault bytes.now) }
{
    match read_basis(alloc, bytes) {
        Ok(rows) => Ok(rows.as_slice().len()),
        Err(fault) => Err(fault),
    }
}

/// A table file, and the first and the last age of the table that was read last.
#[derive(Drop)]
pub struct TableFile<'a> {
    pub alloc: Global,
    pub bytes: &'a [u8],
    pub count: u32,
    pub last: Option<Result<(u8, u8), TableFault>>,
    ghost short: { length bytes.now ≤ 4194304 },
}

impl Reading for TableFile<'_> {
    ghost readings = { λ file. file.count };

    ghost is_read = { λ file. MatchOption file.last ⊥ (λ read.
        IfOk read (λ ages. (table : Rates) × SpellsTable file.bytes.now table × (ages.0 ≡ table.first_age) × (ages.1 ≡ last_age_of table))
        × IfErr read (λ fault. Unless fault (IsTableAnswer file.bytes.now (Err fault)))) };

    fn read(&mut self) {
        self.count += 1;
        self.last = Some(ages(self.alloc, self.bytes));
    }
}

fn ages(alloc: Global, bytes: &[u8]) -> Result<(u8, u8), TableFault>
    requires { length bytes.now ≤ LONGEST_FILE }
    ensures ages { IfOk result (λ ages. (table : Rates) × SpellsTable bytes.now table × (ages.0 ≡ table.first_age) × (ages.1 ≡ last_age_of table)) }
    ensures faults { IfErr result (λ fault. Unless fault (IsTableAnswer bytes.now (Err fault))) }
{
    match read_table(alloc, bytes) {
        Ok(table) => Ok((table.first_age(), table.last_age())),
        Err(fault) => Err(fault),
    }
}

/// Reads each file so many times, and prints what it holds.
pub fn measure_tables<R: Files<File = File> + Print + AllocGlobal>(
    rt: &R,
    words: &mut Args,
) -> io::Result<Outcome> {
    let Some(times) = number_in(words) else {
        return Ok(Outcome::OtherWords);
    };
    for name in words {
        let bytes = fs::read(rt, name.as_str())?;
        if bytes.len() > LONGEST_FILE {
            println!(rt; "toolong,{}", name.as_str())?;
        } else if name.as_str().ends_with(".xml") {
            print_table(rt, name.as_str(), bytes.as_slice(), times)?;
        } else {
            print_basis(rt, name.as_str(), bytes.as_slice(), times)?;
        }
    }
    Ok(Outcome::Measured)
}

fn print_table<R: Print + AllocGlobal>(
    rt: &R,
    name: &str,
    bytes: &[u8],
    times: u32,
) -> io::Result<()>
    requires { length bytes.now ≤ LONGEST_FILE }
{
    let mut file = TableFile {
        alloc: rt.alloc(),
        bytes,
        count: 0,
        last: None,
    };
    repeat(&mut file, times);
    match file.last {
        Some(Ok((first, last))) => println!(rt; "table,{name},{first},{last}"),
        Some(Err(fault)) => println!(rt; "table,{name},{fault:?}"),
        None => println!(rt; "table,{name},unread"),
    }
}

fn print_basis<R: Print + AllocGlobal>(
    rt: &R,
    name: &str,
    bytes: &[u8],
    times: u32,
) -> io::Result<()>
    requires { length bytes.now ≤ LONGEST_FILE }
{
    let mut file = BasisFile {
        alloc: rt.alloc(),
        bytes,
        count: 0,
        last: None,
    };
    repeat(&mut file, times);
    match file.last {
        Some(Ok(rows)) => println!(rt; "basis,{name},{rows}"),
        Some(Err(fault)) => println!(rt; "basis,{name},{fault:?}"),
        None => println!(rt; "basis,{name},unread"),
    }
}
