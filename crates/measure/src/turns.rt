// Turns of several callers, on a counter and at an office.
use crate::counter::{Ticks, count_turns};
use crate::issues::{MOST_ISSUES, post_issues};
use crate::words::{Outcome, callers_in, number_in};
use outside_io::Disk;
use std::env::Args;
use std::io;
use std::sync::{Barrier, Wait};
use std::thread::Threads;
use watcher_set::NoWatchers;

/// Callers take turns on a counter.
pub fn measure_turns<R: Threads + Wait + Sync + Print + AllocGlobal>(
    rt: &R,
    words: &mut Args,
) -> io::Result<Outcome> {
    let (Some(callers), Some(turns)) = (callers_in(words), number_in(words)) else {
        return Ok(Outcome::OtherWords);
    };
    let start = Barrier::new(callers as usize);
    let ticks = Ticks {
        turns,
        start: &start,
    };
    let Ok(count) = count_turns(rt, rt.alloc(), &ticks, callers) else {
        return Ok(Outcome::NoMemory);
    };
    println!(rt; "turns,{callers},{count}")?;
    Ok(Outcome::Measured)
}

/// Callers issue policies at the office of a disk.
pub fn measure_postings<R: Threads + Wait + Sync + Print + AllocGlobal, D: Disk + Send + Drop>(
    rt: &R,
    words: &mut Args,
    name: &str,
    disk: D,
) -> io::Result<Outcome> {
    let (Some(callers), Some(count)) = (callers_in(words), number_in(words)) else {
        return Ok(Outcome::OtherWords);
    };
    let each = count / callers;
    if each > MOST_ISSUES {
        return Ok(Outcome::OtherWords);
    }
    let Ok((disk, accepted)) = post_issues(rt, rt.alloc(), disk, NoWatchers, callers, each) else {
        return Ok(Outcome::NoJournal);
    };
    drop(disk);
    println!(rt; "{name},{callers},{accepted}")?;
    Ok(Outcome::Measured)
}
