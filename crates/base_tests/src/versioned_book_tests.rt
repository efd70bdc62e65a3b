ghost use Rattle.std.specs.Prelude.{◌≡◌, ◌+◌, ◌<◌, ◌≤◌, OnOk, length, List, min, ℕ};
ghost use Rattle.versioned_book.specs.Books.{IsBookOf, IsSomeBook};
ghost use Rattle.versioned_book.specs.Settings.{Setting, keys_of, until};

use outside_io::Steps;
use std::alloc::{AllocError, Global};
use std::io::Eprint;
use std::marker::Brand;
use std::process::Abort;
use std::sync::ledger::{Blank, Ledger};
use std::test::Fail;
use test_rows::assert_rows;
use versioned_book::VersionedBook;

// One setting, for which memory is reserved first.
pub(crate) fn put(
    book: &mut VersionedBook<u64>,
    key: u32,
    position: u32,
    value: u64,
) -> Result<(), AllocError>
    requires rising { book.old.last < position }
    requires stands { IsSomeBook book.old }
    ensures stands { IsSomeBook book.new }
    ensures floor { book.new.floor ≡ book.old.floor }
    ensures last { OnOk result (book.new.last ≡ position) }
{
    book.reserve(key)?;
    book.set(key, position, value);
    Ok(())
}

// The value of the index-th key at a position, if it was set by then.
pub(crate) fn value<L: Ledger>(
    book: &VersionedBook<u64>,
    index: u32,
    p: u32,
    steps: &mut Steps<L>,
) -> Option<u64>
    requires floor { book.now.floor ≤ p }
    requires stands { IsSomeBook book.now }
{
    if index < book.count_at(p) {
        Some(book.at(index, p, steps))
    } else {
        None
    }
}

// Keys 7 and 9 in turn, worked by hand.
#[test]
fn a_book_against_a_list(rt: HostRuntime) -> Result<(), Fail> {
    let alloc = rt.alloc();
    read_script::<_, Brand>(&rt, alloc, Blank::new(1))
}

fn read_script<R: Abort + Eprint, L: Ledger>(
    rt: &R,
    alloc: Global,
    blank: Blank,
) -> Result<(), Fail>
    requires name { blank.name ≡ L.name }
    requires parts { blank.parts ≡ L.parts }
    requires some { 0 < L.parts }
{
    let mut steps: Steps<L> = Steps::open(blank);
    let mut book = VersionedBook::new(alloc);
    put(&mut book, 7, 1, 70)?;
    put(&mut book, 9, 3, 90)?;
    put(&mut book, 7, 4, 71)?;
    put(&mut book, 7, 6, 72)?;
    let all = [
        None,
        Some(70),
        Some(70),
        Some(70),
        Some(71),
        Some(71),
        Some(72),
    ];
    assert_rows!(rt; (p, expected) in (0..7u32).zip(all) =>
        value(&book, 0, p, &mut steps), expected; "of 7 at {p}");
    assert_rows!(rt; (p, keys) in (0..7u32).zip([0, 1, 1, 2, 2, 2, 2]) =>
        book.count_at(p), keys; "keys at {p}");
    assert_eq!(rt; book.kept(), 4);
    book.trim(5);
    assert_eq!(rt; book.kept(), 3);
    assert_eq!(rt; value(&book, 0, 5, &mut steps), Some(71));
    assert_eq!(rt; value(&book, 0, 6, &mut steps), Some(72));
    assert_eq!(rt; value(&book, 1, 5, &mut steps), Some(90));
    assert_eq!(rt; book.count_at(2), 1);
    put(&mut book, 8, 8, 80)?;
    assert_eq!(rt; book.get(8), Some(80));
    assert_eq!(rt; book.get(7), Some(72));
    assert_eq!(rt; book.get(1), None);
    assert_eq!(rt; value(&book, 2, 8, &mut steps), Some(80));
    Ok(())
}
