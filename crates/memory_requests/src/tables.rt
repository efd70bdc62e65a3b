// A table of words and slots.
ghost use Rattle.std.specs.Prelude.{◌≡◌, [], length, IfOk, IfErr};
ghost use Rattle.atomic_table.specs.Table.{opening};

use crate::evidence::NoMemory;
use atomic_table::{Refused, Seat, Table, TableRule};
use std::alloc::Global;

/// Slots that found no room in a table.
pub struct NoTable<S> {
    pub slots: Vec<S>,
    pub lack: NoMemory,
}

/// A table of these words and slots, and its first seat. Where memory is refused the slots come back.
pub fn table_of<S, V, K, P: TableRule<S, V, K>>(
    alloc: Global,
    words: &[u64],
    slots: Vec<S>,
    about: &K,
) -> Result<(Table<S, V, K, P, Global>, Seat<S, V>), NoTable<S>>
    requires { P.holds about.now (opening words.now slots.items (P.first about.now)) }
    ensures ok { IfOk result (λ t. (t.0.shared.table_id.words ≡ length words.now) × (t.0.shared.table_id.slots ≡ length slots.items)
        × (t.1.table_id ≡ t.0.shared.table_id) × (t.1.id ≡ 0) × (t.1.me ≡ (P.first about.now, [])) × (t.0.shared.key ≡ about.now)) }
    ensures err { IfErr result (λ r. r.slots.items ≡ slots.items) }
{
    match Table::new(alloc, words, slots, about) {
        Ok(made) => Ok(made),
        Err(Refused { slots }) => Err(NoTable {
            slots,
            lack: NoMemory::refused(),
        }),
    }
}
