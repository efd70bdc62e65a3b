//! Does one thing again and again, so that it can be timed. The first argument says what, and the others how often.
//!
//! - `tables TIMES FILE..` reads each file TIMES times. A file whose name ends in `.xml` is a table file, any other a basis
//!   file. For each file it prints `table,FILE,FIRST_AGE,LAST_AGE` or `basis,FILE,ROWS`; in place of the numbers, what is
//!   wrong with the file, or `unread` if TIMES is 0; or `toolong,FILE` if the file has more than 4 MiB.
//! - `reserves SEED COUNT` values COUNT policies drawn from a seed below 2^31, and prints the sums of the bounds in cents:
//!   `reserves,POLICIES,UNVALUED,LOWER,UPPER`.
//! - `projections SEED COUNT YEARS` projects COUNT policies, at most 4,000,000, drawn from a seed over YEARS years, at most
//!   131, and prints the sums of all bounds in cents: `projections,POLICIES,UNVALUED,LOWER,UPPER`.
//! - `turns CALLERS TURNS` has CALLERS callers, 1 to 32, take TURNS turns each on a counter, and prints the count at the
//!   end: `turns,CALLERS,COUNT`.
//! - `postings CALLERS COUNT` has CALLERS callers issue COUNT policies together, each the same number (a remainder is left
//!   out), at the office of `journal.life` in the folder in which it runs, and prints `postings,CALLERS,ACCEPTED`.
//! - `sleeping CALLERS COUNT` does the same on a disk in memory whose sync sleeps 50 microseconds.
//! - `versions POLICIES VERSIONS READS TRIMS` sets POLICIES policies VERSIONS times each in a book of versions, in turn;
//!   reads 256 of them READS times, each time at another position; drops all but the newest versions, TRIMS times; and
//!   prints `versions,POLICIES,KEPT,PAID`: how many versions are then kept, and the sum of the premiums paid that were read.
//!
//! The status is 2 if the arguments are others, 8 if the journal doesn't open, and 9 if memory is refused.
#![tactic(auto)]

mod counter;
mod issues;
mod lane;
mod projections;
mod reserves;
mod sleeping_disk;
mod tables;
mod turns;
mod versions;
mod words;

use outside_io::{AnyFile, FileDisk};
use projections::measure_projections;
use reserves::measure_reserves;
use sleeping_disk::SleepingDisk;
use std::process::ExitCode;
use std::{env, io};
use tables::measure_tables;
use turns::{measure_postings, measure_turns};
use versions::measure_versions;
use words::Outcome;

fn main(rt: HostRuntime) -> io::Result<ExitCode> {
    let mut words = env::args(&rt)?;
    let _program = words.next();
    let Some(word) = words.next() else {
        return Ok(ExitCode::from(Outcome::OtherWords.status()));
    };
    let alloc = rt.alloc();
    let outcome = match word.as_str() {
        "tables" => measure_tables(&rt, &mut words)?,
        "reserves" => measure_reserves(&rt, &mut words)?,
        "projections" => measure_projections(&rt, &mut words)?,
        "turns" => measure_turns(&rt, &mut words)?,
        "versions" => measure_versions(&rt, &mut words)?,
        "postings" => {
            let disk = FileDisk::at(rt, "journal.life", AnyFile);
            measure_postings(&rt, &mut words, "postings", disk)?
        }
        "sleeping" => {
            let disk = SleepingDisk::new(&rt, alloc);
            measure_postings(&rt, &mut words, "sleeping", disk)?
        }
        _ => Outcome::OtherWords,
    };
    Ok(ExitCode::from(outcome.status()))
}
