// Room in lists. What `push`, `extend`, `append` and `copied` ask for is at most some times what the caller holds. Items
// take room: of those that take none a list can hold so many that one more is refused, and no memory was asked for.
ghost use Rattle.std.specs.Prelude.{◌≡◌, ◌≤◌, ◌<◌, ◌+◌, ◌*◌, ◌++◌, ◌∷◌, [], length, replicate, is_ok, if◌then◌else◌, vec_len, vec_capacity, IsOk, IfOk, IfErr, OnOk, OnErr};
ghost use Rattle.std.specs.Mem.{type_size};
ghost use Rattle.memory_requests.specs.Limits.{most_bytes};

use crate::evidence::NoMemory;
use std::alloc::Global;

/// An empty list with room for so many items.
pub fn with_room<T>(alloc: Global, room: usize) -> Result<Vec<T>, NoMemory>
    requires bytes { room * type_size T.row ≤ most_bytes }
    requires items { room ≤ most_bytes }
    ensures items { IfOk result (λ v. v.items ≡ []) }
    ensures len { IfOk result (λ v. vec_len v ≡ 0) }
    ensures capacity { IfOk result (λ v. room ≤ vec_capacity v) }
    ensures exact { IfOk result (λ v. vec_capacity v ≡ room) }
    ensures succeeds { room ≡ 0 → IsOk result }
{
    match Vec::with_capacity(alloc, room) {
        Ok(made) => Ok(made),
        Err(_) => Err(NoMemory::refused()),
    }
}

/// A list of so many times this item.
pub fn filled<T: Copy>(alloc: Global, item: T, count: usize) -> Result<Vec<T>, NoMemory>
    requires bytes { count * type_size T.row ≤ most_bytes }
    requires items { count ≤ most_bytes }
    ensures items { IfOk result (λ v. v.items ≡ replicate count item) }
    ensures len { IfOk result (λ v. vec_len v ≡ count) }
{
    let mut made = Vec::new(alloc);
    match made.resize(count, item) {
        Ok(()) => Ok(made),
        Err(_) => Err(NoMemory::refused()),
    }
}

/// A list of these items.
pub fn copied<T: Copy>(alloc: Global, items: &[T]) -> Result<Vec<T>, NoMemory>
    requires sized { 1 ≤ type_size T.row }
    ensures items { IfOk result (λ v. v.items ≡ items.now) }
    ensures len { IfOk result (λ v. vec_len v ≡ length items.now) }
{
    match Vec::from_slice(alloc, items) {
        Ok(made) => Ok(made),
        Err(_) => Err(NoMemory::refused()),
    }
}

/// Adds an item at the end. Where memory is refused the items stay, and this one is dropped.
pub fn push<T: Drop>(items: &mut Vec<T>, item: T) -> Result<(), NoMemory>
    requires sized { 1 ≤ type_size T.row }
    ensures items { items.new.items ≡ (if is_ok result then items.old.items ++ item ∷ [] else items.old.items) }
    ensures len { vec_len items.new ≡ (if is_ok result then vec_len items.old + 1 else vec_len items.old) }
    ensures capacity { vec_capacity items.old ≤ vec_capacity items.new }
    ensures succeeds { vec_len items.old < vec_capacity items.old → IsOk result }
    ensures full { OnErr result (vec_capacity items.old ≤ vec_len items.old) }
{
    match items.push(item) {
        Ok(()) => Ok(()),
        Err(_) => Err(NoMemory::refused()),
    }
}

/// An item that found no room.
#[derive(Drop)]
pub struct NotPushed<T> {
    pub item: T,
    pub lack: NoMemory,
}

/// Puts the first item into an empty list. Where memory is refused the item comes back.
pub fn push_first<T>(items: &mut Vec<T>, item: T) -> Result<(), NotPushed<T>>
    requires empty { vec_len items.old ≡ 0 }
    ensures items { items.new.items ≡ (if is_ok result then items.old.items ++ item ∷ [] else items.old.items) }
    ensures len { vec_len items.new ≡ (if is_ok result then vec_len items.old + 1 else vec_len items.old) }
    ensures value_returned { IfErr result (λ refused. refused.item ≡ item) }
{
    match items.push(item) {
        Ok(()) => Ok(()),
        Err(failed) => Err(NotPushed {
            item: failed.value,
            lack: NoMemory::refused(),
        }),
    }
}

/// Adds these items at the end. Where memory is refused the items stay.
pub fn extend<T: Copy>(items: &mut Vec<T>, more: &[T]) -> Result<(), NoMemory>
    requires sized { 1 ≤ type_size T.row }
    ensures items { items.new.items ≡ (if is_ok result then items.old.items ++ more.now else items.old.items) }
    ensures len { vec_len items.new ≡ (if is_ok result then vec_len items.old + length more.now else vec_len items.old) }
    ensures capacity { vec_capacity items.old ≤ vec_capacity items.new }
    ensures succeeds { vec_len items.old + length more.now ≤ vec_capacity items.old → IsOk result }
    ensures full { OnErr result (vec_capacity items.old < vec_len items.old + length more.now) }
{
    match items.extend_from_slice(more) {
        Ok(()) => Ok(()),
        Err(_) => Err(NoMemory::refused()),
    }
}

/// Moves the items of another list to the end. Where memory is refused both keep theirs.
pub fn append<T>(items: &mut Vec<T>, more: &mut Vec<T>) -> Result<(), NoMemory>
    requires sized { 1 ≤ type_size T.row }
    ensures items { items.new.items ≡ (if is_ok result then items.old.items ++ more.old.items else items.old.items) }
    ensures len { vec_len items.new ≡ (if is_ok result then vec_len items.old + vec_len more.old else vec_len items.old) }
    ensures other_items { more.new.items ≡ (if is_ok result then [] else more.old.items) }
{
    match items.append(more) {
        Ok(()) => Ok(()),
        Err(_) => Err(NoMemory::refused()),
    }
}

/// Makes room for so many items more, and for as many as are there if that is more. The items stay.
pub fn reserve<T>(items: &mut Vec<T>, more: usize) -> Result<(), NoMemory>
    requires bytes { more * type_size T.row ≤ most_bytes }
    requires sized { 1 ≤ type_size T.row }
    ensures items { items.new.items ≡ items.old.items }
    ensures len { vec_len items.new ≡ vec_len items.old }
    ensures ok { OnOk result (vec_len items.new + more ≤ vec_capacity items.new) }
    ensures capacity { vec_capacity items.old ≤ vec_capacity items.new }
    ensures succeeds { vec_len items.old + more ≤ vec_capacity items.old → IsOk result }
    ensures full { OnErr result (vec_capacity items.old < vec_len items.old + more) }
    ensures err { OnErr result (vec_capacity items.new ≡ vec_capacity items.old) }
{
    match items.reserve(more) {
        Ok(()) => Ok(()),
        Err(_) => Err(NoMemory::refused()),
    }
}

/// Makes room for so many items more, and not for others. The items stay. They are few, or no more than are there.
pub fn reserve_exact<T>(items: &mut Vec<T>, more: usize) -> Result<(), NoMemory>
    requires bytes { more ≤ vec_len items.old + 1 }
    requires sized { 1 ≤ type_size T.row }
    ensures items { items.new.items ≡ items.old.items }
    ensures len { vec_len items.new ≡ vec_len items.old }
    ensures ok { OnOk result (vec_len items.new + more ≤ vec_capacity items.new) }
    ensures capacity { vec_capacity items.old ≤ vec_capacity items.new }
    ensures err { OnErr result (vec_capacity items.new ≡ vec_capacity items.old) }
{
    match items.reserve_exact(more) {
        Ok(()) => Ok(()),
        Err(_) => Err(NoMemory::refused()),
    }
}
