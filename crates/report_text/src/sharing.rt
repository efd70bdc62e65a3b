// The whole text of a valuation, of which several workers write the rows at the same time.
ghost use Rattle.std.specs.Prelude.{◌≡◌, ◌≤◌, ◌++◌, length, IfOk, OnOk, IsOk, Err};
ghost use Rattle.report_text.specs.Names.{AllByRecursion, flat_map, IsDay, most_commands};
ghost use Rattle.report_text.specs.Block.{row_text, block_text, AreSummable};
ghost use Rattle.report_text.specs.Parts.{rows_of_parts, had_text};

use crate::block::{print_block, print_heading};
use crate::parts::TextParts;
use crate::printer::{RowPart, RowPrinter};
use crate::totals::print_total;
use memory_requests::{filled, with_room};
use parallel_value::map_into;
use policy_types::NoMemory;
use policy_value::{Measure, Row, Rows};
use std::alloc::Global;
use std::thread::Threads;
use text_lines::Text;

/// The number of rows for which a worker's thread is worth starting.
const ROWS_TO_A_WORKER: usize = 8_192;

/// The most workers: with more, the parts get smaller.
const MOST_PRINTERS: u8 = 16;

/// The whole text of a valuation, as `print_block` prints it, in parts. The rows are written by as many workers as
/// are asked for, but at most sixteen, and fewer if each would have too few rows. A single worker makes one part.
pub fn print_parts<R: Threads + Sync>(
    rt: &R,
    alloc: Global,
    lane: u8,
    on: i32,
    position: u32,
    measure: Measure,
    rows: &Rows,
    workers: u8,
) -> Result<TextParts, NoMemory>
    requires on { IsDay on }
    requires few { length rows.now ≤ most_commands }
    requires bounded { AreSummable rows.now }
    requires workers { (1 ≤ workers) × (workers ≤ 64) }
    ensures { IfOk result (λ text. text ≡ block_text lane on position measure rows.now) }
{
    let most = usize::from(workers.min(MOST_PRINTERS));
    let policies = rows.as_slice().len();
    let many = (policies / ROWS_TO_A_WORKER).clamp(1, most);
    let mut parts = TextParts::new(alloc);
    if many < 2 {
        parts.push(print_block(alloc, lane, on, position, measure, rows)?)?;
        return Ok(parts);
    }
    parts.push(print_heading(alloc, lane, on, position, policies as u32, measure)?)?;
    add_rows(rt, alloc, rows.as_slice(), many, &mut parts)?;
    parts.push(print_total(alloc, rows, measure)?)?;
    Ok(parts)
}

// Adds the rows, each worker's after those of the worker before it.
fn add_rows<R: Threads + Sync>(
    rt: &R,
    alloc: Global,
    rows: &[Row],
    many: usize,
    parts: &mut TextParts,
) -> Result<(), NoMemory>
    requires { (1 ≤ many) × (many ≤ 64) }
    ensures { OnOk result (parts.new ≡ parts.old ++ flat_map row_text rows.now) }
{
    let mut printers = filled(alloc, RowPrinter { alloc }, many)?;
    let shares = shares_of(alloc, rows, many)?;
    let mut texts = unwritten(alloc, many)?;
    map_into(
        rt,
        printers.as_mut_slice(),
        shares.as_slice(),
        texts.as_mut_slice(),
    );
    add_texts(texts, parts)
}

// `many` parts of equal length, except that the last may be longer, which together are the rows in their order.
fn shares_of<'a>(alloc: Global, rows: &'a [Row], many: usize) -> Result<Vec<RowPart<'a>>, NoMemory>
    requires { (1 ≤ many) × (many ≤ 64) }
    ensures many { IfOk result (λ shares. length shares.items ≡ many) }
    ensures whole { IfOk result (λ shares. rows_of_parts shares.items ≡ rows.now) }
{
    let size = rows.len() / many;
    let mut shares = with_room(alloc, many)?;
    let mut rest = rows;
    for _ in 0..many - 1 {
        let (front, back) = rest.split_at(size.min(rest.len()));
        shares.push_reserved(RowPart { rows: front });
        rest = back;
    }
    shares.push_reserved(RowPart { rows: rest });
    Ok(shares)
}

// Places for `many` texts, which are still to be written.
fn unwritten(alloc: Global, many: usize) -> Result<Vec<Result<Text, NoMemory>>, NoMemory>
    requires { many ≤ 64 }
    ensures { IfOk result (λ texts. length texts.items ≡ many) }
{
    let mut texts = with_room(alloc, many)?;
    for _ in 0..many {
        texts.push_reserved(Ok(Text::new(Vec::new(alloc))));
    }
    Ok(texts)
}

// Adds the texts, if memory was refused for none of them.
fn add_texts(texts: Vec<Result<Text, NoMemory>>, parts: &mut TextParts) -> Result<(), NoMemory>
    ensures had { OnOk result (AllByRecursion IsOk texts.items) }
    ensures added { OnOk result (parts.new ≡ parts.old ++ flat_map had_text texts.items) }
{
    for text in texts {
        parts.push(text?)?;
    }
    Ok(())
}
