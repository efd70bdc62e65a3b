// Runs with watchers: what they report after the transcript, and when they are called and dropped. Texts are written
// by hand from the formats.
ghost use Rattle.std.specs.Prelude.{◌≤◌, vec_len};

use crate::devices::{Finished, disk_of, run_watched};
use policy_types::{Attention, Command, NotReady, Report, Watcher};
use std::alloc::{AllocError, Global};
use std::snapshot::Snapshot;
use std::sync::atomic::{AtomicU32, Ordering};
use std::sync::{Arc, Wait};
use std::thread::Threads;
use test_rows::assert_rows;
use watcher_set::{CountWatcher, TightWatcher};

const TWO: &str = "1,issue,1,2020-01-01,endowment,0,3,1000.00,400.00\n\
    1,issue,2,2020-01-01,endowment,0,3,1000.00,400.00\n";

const THREE: &str = "1,issue,1,2020-01-01,endowment,0,3,1000.00,400.00\n\
    1,issue,2,2020-01-01,endowment,0,3,1000.00,400.00\n\
    1,issue,3,2020-01-01,endowment,0,3,1000.00,400.00\n";

const FIVE: &str = "1,issue,1,2020-01-01,endowment,0,3,1000.00,400.00\n\
    1,issue,2,2020-01-01,endowment,0,3,1000.00,400.00\n\
    1,issue,3,2020-01-01,endowment,0,3,1000.00,400.00\n\
    1,issue,4,2020-01-01,endowment,0,3,1000.00,400.00\n\
    1,issue,5,2020-01-01,endowment,0,3,1000.00,400.00\n";

// A script, the limit of a watcher that counts, if there is one, the command at which another watcher is refused
// memory, if there is one, and what is written.
struct Audited {
    script: &'static str,
    limit: u32,
    refused: u32,
    status: u8,
    written: &'static str,
}

const AUDITED: &[Audited] = &[
    // A watcher that is refused memory once: its command isn't posted, and the run goes on.
    Audited {
        script: THREE,
        limit: 0,
        refused: 2,
        status: 9,
        written: "1,issue,1,accepted,1\n1,issue,2,nomemory\n1,issue,3,accepted,2\nwatcher,1,2,2\n",
    },
    Audited {
        script: TWO,
        limit: 1,
        refused: 9,
        status: 0,
        written: "1,issue,1,accepted,1\n1,issue,2,accepted,2\nwatcher,1,1,1\nwatcher,2,2,2\n",
    },
    // One that is done at the third.
    Audited {
        script: FIVE,
        limit: 3,
        refused: 0,
        status: 0,
        written: "1,issue,1,accepted,1\n1,issue,2,accepted,2\n1,issue,3,accepted,3\n1,issue,4,accepted,4\n\
            1,issue,5,accepted,5\nwatcher,1,3,3\n",
    },
];

// A run with the watchers of a case, the first of which is the one that counts.
fn run_audited<R: Threads + Wait + Sync>(
    rt: &R,
    alloc: Global,
    case: &Audited,
) -> Result<Finished, AllocError> {
    let disk = disk_of(alloc, &[], &[])?;
    let mut boxes: Vec<Box<dyn Watcher + Send>> = Vec::new(alloc);
    match (case.limit, case.refused) {
        (0, refused) => {
            boxes.push(Box::new(alloc, TightWatcher::new(alloc, refused))?)?;
            run_watched(rt, alloc, &["run"], case.script, boxes, disk)
        }
        (limit, 0) => {
            boxes.push(Box::new(alloc, CountWatcher::new(limit))?)?;
            run_watched(rt, alloc, &["run"], case.script, boxes, disk)
        }
        (limit, refused) => {
            boxes.push(Box::new(alloc, CountWatcher::new(limit))?)?;
            boxes.push(Box::new(alloc, TightWatcher::new(alloc, refused))?)?;
            run_watched(rt, alloc, &["run"], case.script, boxes, disk)
        }
    }
}

#[test]
fn auditors_report_what_was_accepted(rt: HostRuntime) -> Result<(), AllocError> {
    assert_rows!(rt; (row, case) in AUDITED.iter().enumerate() =>
        run_audited(&rt, rt.alloc(), case)?.wrote(case.status, case.written); "row {row}");
    Ok(())
}

// A watcher that counts up to a limit, and reports how often it was dropped. At each command it notes how often the
// other was.
struct Guest {
    count: CountWatcher,
    drops: Arc<AtomicU32>,
    other: Arc<AtomicU32>,
    heard: Arc<AtomicU32>,
}

impl Drop for Guest {
    fn drop(self) {
        let Self {
            count: _count,
            drops,
            other: _other,
            heard: _heard,
        } = self;
        drops.fetch_add(1, Ordering::SeqCst);
    }
}

impl Watcher for Guest {
    ghost use Rattle.std.specs.Prelude.{◌==◌, length};

    ghost noted = { λ guest. guest.count.heard };

    ghost last = { λ guest. guest.count.last.value };

    ghost spare = { λ _. 1 };

    ghost stops = { λ guest list. length list == guest.count.limit };

    ghost number = { λ _ list. length list };

    fn ready(&mut self) -> Result<(), NotReady> {
        self.count.ready()
    }

    fn note(&mut self, position: u32, command: &Command) -> Attention {
        let drops = self.other.load(Ordering::SeqCst);
        self.heard.store(drops, Ordering::SeqCst);
        self.count.note(position, command)
    }

    fn report(&self) -> Report {
        self.count.report()
    }
}

// How often each of two watchers was dropped, and how often the first had been dropped when the second was last
// notified of a command: 7 if it was notified of none.
#[derive(Drop)]
struct Visit {
    first: Arc<AtomicU32>,
    second: Arc<AtomicU32>,
    heard: Arc<AtomicU32>,
}

impl Visit {
    fn new(alloc: Global) -> Result<Visit, AllocError> {
        Ok(Visit {
            first: Arc::new(alloc, AtomicU32::new(0))?,
            second: Arc::new(alloc, AtomicU32::new(0))?,
            heard: Arc::new(alloc, AtomicU32::new(7))?,
        })
    }

    fn told(&self) -> (u32, u32, u32) {
        (
            self.first.load(Ordering::SeqCst),
            self.second.load(Ordering::SeqCst),
            self.heard.load(Ordering::SeqCst),
        )
    }
}

// The arguments and the script of a run over a file, the limit of the first of two watchers, the status, and how
// often the first had been dropped by what the second noted.
struct Dropping {
    words: &'static [&'static str],
    script: &'static str,
    file: &'static [u8],
    limit: u32,
    status: u8,
    heard: u32,
}

const DROPPINGS: &[Dropping] = &[
    Dropping {
        words: &["run"],
        script: TWO,
        file: &[],
        limit: 1,
        status: 0,
        heard: 1,
    },
    Dropping {
        words: &["run"],
        script: TWO,
        file: &[],
        limit: 9,
        status: 0,
        heard: 0,
    },
    Dropping {
        words: &["run"],
        script: TWO,
        file: &[65; 18],
        limit: 9,
        status: 5,
        heard: 7,
    },
    Dropping {
        words: &["run"],
        script: "1",
        file: &[],
        limit: 9,
        status: 3,
        heard: 7,
    },
    Dropping {
        words: &["run", "now"],
        script: TWO,
        file: &[],
        limit: 9,
        status: 2,
        heard: 7,
    },
    Dropping {
        words: &["state"],
        script: TWO,
        file: &[],
        limit: 9,
        status: 0,
        heard: 7,
    },
];

// A run with two watchers, the first of which counts up to the limit.
fn run_visited<R: Threads + Wait + Sync>(
    rt: &R,
    alloc: Global,
    case: &Dropping,
    visit: &Visit,
) -> Result<Finished, AllocError> {
    let first = Guest {
        count: CountWatcher::new(case.limit),
        drops: visit.first.clone()?,
        other: visit.second.clone()?,
        heard: Arc::new(alloc, AtomicU32::new(0))?,
    };
    let second = Guest {
        count: CountWatcher::new(9),
        drops: visit.second.clone()?,
        other: visit.first.clone()?,
        heard: visit.heard.clone()?,
    };
    let mut watchers: Vec<Box<dyn Watcher + Send>> = Vec::new(alloc);
    watchers.push(Box::new(alloc, first)?)?;
    watchers.push(Box::new(alloc, second)?)?;
    let disk = disk_of(alloc, case.file, &[])?;
    run_watched(rt, alloc, case.words, case.script, watchers, disk)
}

// Each is dropped once: when it is done, at the end of a run, if the journal is refused, and if nothing is run.
#[test]
fn each_auditor_is_dropped_once(rt: HostRuntime) -> Result<(), AllocError> {
    assert_rows!(rt; (row, case) in DROPPINGS.iter().enumerate() => {
        let visit = Visit::new(rt.alloc())?;
        let ran = run_visited(&rt, rt.alloc(), case, &visit)?;
        ran.status == case.status && visit.told() == (1, 1, case.heard)
    }; "row {row}");
    Ok(())
}

// A watcher that counts the calls to it.
#[derive(Drop)]
struct Called {
    calls: Arc<AtomicU32>,
    heard: Vec<Command>,
    last: Snapshot<u32>,
    ghost few: { vec_len heard ≤ 4000000 },
}

impl Watcher for Called {
    ghost use Rattle.std.specs.Prelude.{false, ◌-◌, vec_capacity, vec_len};

    ghost noted = { λ w. w.heard.items };

    ghost last = { λ w. w.last.value };

    ghost spare = { λ w. vec_capacity w.heard - vec_len w.heard };

    ghost stops = { λ w h. false };

    ghost number = { λ w h. 0 };

    fn ready(&mut self) -> Result<(), NotReady> {
        self.calls.fetch_add(1, Ordering::SeqCst);
        match self.heard.reserve(1) {
            Ok(()) => Ok(()),
            Err(_) => Err(NotReady),
        }
    }

    fn note(&mut self, position: u32, command: &Command) -> Attention {
        self.calls.fetch_add(1, Ordering::SeqCst);
        self.heard.push_reserved(*command);
        self.last = Snapshot::of(&position);
        Attention::More
    }

    fn report(&self) -> Report {
        self.calls.fetch_add(1, Ordering::SeqCst);
        Report {
            seen: self.heard.len() as u32,
            tally: 0,
        }
    }
}

// How often a watcher is called with these arguments.
struct Calling {
    words: &'static [&'static str],
    script: &'static str,
    calls: u32,
}

const CALLINGS: &[Calling] = &[
    Calling {
        words: &["run"],
        script: "1,issue,7001,2020-01-01,endowment,0,3,1000.00,400.00\n1,issue,7001,2020-01-01,endowment,0,3,1000.00,400.00\n",
        calls: 4,
    },
    Calling {
        words: &["state"],
        script: "",
        calls: 0,
    },
    Calling {
        words: &["run", "now"],
        script: "1,issue,7001,2020-01-01,endowment,0,3,1000.00,400.00\n",
        calls: 0,
    },
];

// A run with a watcher whose calls are counted.
fn run_counted<R: Threads + Wait + Sync>(
    rt: &R,
    alloc: Global,
    case: &Calling,
    calls: Arc<AtomicU32>,
) -> Result<Finished, AllocError> {
    let mut watchers: Vec<Box<dyn Watcher + Send>> = Vec::new(alloc);
    let one = Called {
        calls,
        heard: Vec::new(alloc),
        last: Snapshot::of(&0),
    };
    watchers.push(Box::new(alloc, one)?)?;
    let disk = disk_of(alloc, &[], &[])?;
    run_watched(rt, alloc, case.words, case.script, watchers, disk)
}

// A run calls a watcher three times for the one posting that is accepted; for a refused one it only makes it ready.
#[test]
fn auditors_are_called_by_a_run_alone(rt: HostRuntime) -> Result<(), AllocError> {
    let alloc = rt.alloc();
    assert_rows!(rt; (row, case) in CALLINGS.iter().enumerate() => {
        let calls = Arc::new(alloc, AtomicU32::new(0))?;
        let _ = run_counted(&rt, alloc, case, calls.clone()?)?;
        calls.load(Ordering::SeqCst) == case.calls && Arc::strong_count(&calls) == 1
    }; "row {row}");
    Ok(())
}
