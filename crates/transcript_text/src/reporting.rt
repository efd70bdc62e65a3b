// The lines of the watchers' reports.
ghost use Rattle.std.specs.Prelude.{◌≡◌, ◌≤◌, ◌<◌, IfOk, OnErr, length};
ghost use Rattle.transcript_text.specs.Lines.{watcher_text};
ghost use Rattle.transcript_text.specs.Lines.{reports_text};

use itoa::Buffer;
use policy_types::{NoMemory, Report};
use std::alloc::Global;
use text_lines::{LineWriter, Text, add};

/// The lines of the reports, numbered from 1. Memory is asked for only if there are some.
pub fn report_lines(alloc: Global, reports: &[Report]) -> Result<Vec<u8>, NoMemory>
    requires few { length reports.now ≤ 16 }
    ensures text { IfOk result (λ text. text.items ≡ reports_text reports.now) }
    ensures some { OnErr result (0 < length (reports_text reports.now)) }
{
    let mut text = Vec::new(alloc);
    let mut number = 0;
    for report in reports {
        number += 1;
        let line = watcher_line(alloc, number, report)?;
        add(&mut text, line.as_slice())?;
    }
    Ok(text)
}

// The line of a report.
fn watcher_line(alloc: Global, number: u32, report: &Report) -> Result<Text, NoMemory>
    ensures { IfOk result (λ text. text ≡ watcher_text number report.now) }
{
    let mut buffer = Buffer::new();
    let mut line = LineWriter::new(alloc);
    line.first("watcher")?;
    line.number(number)?;
    line.number(report.seen)?;
    line.word(buffer.format(report.tally))?;
    line.end()?;
    Ok(line.into_text())
}
