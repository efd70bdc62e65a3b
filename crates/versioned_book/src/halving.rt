// A key's value at a position before its newest version, found by looking at some of its older versions.
ghost use Rattle.std.specs.Prelude.{◌≡◌, length};
ghost use Rattle.versioned_book.specs.Versions.{AreFewSteps, IsRising, value_at};

use crate::past::Past;
use outside_io::Steps;
use std::sync::ledger::Ledger;

/// The value last set at or before a position. It takes few steps: 2 to the power of their number is at most twice
/// the number of versions, plus one, since each look halves what is left.
pub fn search<V: Copy, L: Ledger>(past: &Past<V>, p: u32, steps: &mut Steps<L>) -> Option<V>
    requires { IsRising 0 past.now.older.items }
    ensures value { result ≡ value_at p past.now.older.items }
    ensures looks { AreFewSteps steps.old steps.new (length past.now.older.items) }
{
    let mut found = None;
    let mut low = 0;
    let mut high = past.len();
    while low < high {
        let middle = low + (high - low) / 2;
        let (position, value) = past.look(middle, steps);
        if position <= p {
            found = Some(value);
            low = middle + 1;
        } else {
            high = middle;
        }
    }
    found
}
