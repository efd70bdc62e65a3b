// Room in maps.
ghost use Rattle.std.specs.Prelude.{◌≡◌, ◌≤◌, ◌<◌, ◌+◌, ◌*◌, Some, None, if◌then◌else◌, is_some, IsOk, IfOk, OnOk, OnErr};
ghost use Rattle.std.specs.Mem.{type_size};
ghost use Rattle.indexmap.specs.IndexMap.{get, insert_entry, Updates, index_map_len, spare, hasher_of, IsEmpty, IsUnique, IsUnchanged, KeepsRoom};
ghost use Rattle.memory_requests.specs.Limits.{most_bytes};

use crate::evidence::NoMemory;
use indexmap::IndexMap;
use std::alloc::Global;
use std::hash::{BuildHasher, Hash};

/// An empty map with room for so many keys.
pub fn map_with_room<K: Eq + Hash, V, S: BuildHasher + Drop>(
    alloc: Global,
    room: usize,
    hashing: S,
) -> Result<IndexMap<K, V, S>, NoMemory>
    requires bytes { room * (type_size K.row + type_size V.row) ≤ most_bytes }
    requires keys { room ≤ most_bytes }
    ensures empty { IfOk result IsEmpty }
    ensures len { IfOk result (λ m. index_map_len m ≡ 0) }
    ensures spare { IfOk result (λ m. room ≤ spare m) }
    ensures hasher { IfOk result (λ m. hasher_of m ≡ hashing) }
    ensures unique { IfOk result (IsUnique K.eq) }
{
    match IndexMap::with_capacity_and_hasher(alloc, room, hashing) {
        Ok(made) => Ok(made),
        Err(_) => Err(NoMemory::refused()),
    }
}

/// Makes room for so many keys more. What the map holds stays. They are few, or no more than are there.
pub fn reserve_keys<K: Eq + Hash, V, S: BuildHasher>(
    map: &mut IndexMap<K, V, S>,
    more: usize,
) -> Result<(), NoMemory>
    requires bytes { more ≤ index_map_len map.old + 1 }
    ensures entries { IsUnchanged map.old map.new }
    ensures ok { OnOk result (more ≤ spare map.new) }
    ensures succeeds { more ≤ spare map.old → IsOk result }
    ensures room { KeepsRoom map.old map.new }
    ensures unique { IsUnique K.eq map.new }
{
    match map.reserve(more) {
        Ok(()) => Ok(()),
        Err(_) => Err(NoMemory::refused()),
    }
}

/// Sets the value of a key, and gives the one before. Where memory is refused all stays, and the pair is dropped.
pub fn insert<K: Eq + Hash + Drop, V: Drop, S: BuildHasher>(
    map: &mut IndexMap<K, V, S>,
    key: K,
    value: V,
) -> Result<Option<V>, NoMemory>
    ensures old { IfOk result (λ old. old ≡ get K.eq map.old key) }
    ensures updates { OnOk result (Updates K.eq map.old map.new key (Some value)) }
    ensures entries { OnOk result (map.new.entries ≡ insert_entry K.eq map.old.entries key value) }
    ensures len { IfOk result (λ old. index_map_len map.new ≡ index_map_len map.old + (if is_some old then 0 else 1)) }
    ensures err { OnErr result (IsUnchanged map.old map.new) }
    ensures absent { OnErr result (get K.eq map.old key ≡ None) }
    ensures succeeds { 0 < spare map.old → IsOk result }
    ensures spare { spare map.old ≤ spare map.new + 1 }
    ensures hasher { hasher_of map.new ≡ hasher_of map.old }
    ensures unique { IsUnique K.eq map.new }
{
    match map.insert(key, value) {
        Ok(before) => Ok(before),
        Err(_) => Err(NoMemory::refused()),
    }
}
