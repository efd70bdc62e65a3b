// What a disk held at first, and every call since.
ghost use Rattle.std.specs.Prelude.{◌≡◌, ◌+◌, ◌<◌, ◌≤◌, ◌++◌, ◌∷◌, [], true, false, if◌then◌else◌, length, IfOk, IsSome, IsTrue, OnErr, OnOk, vec_len, vec_capacity};
ghost use Rattle.outside_io.specs.Disks.{Looks, Follows, Torn, Only, put};
ghost use Rattle.memory_disk.specs.History.{bytes_after, all_within, reaching, WritesNothing, IsWriteOf, IsImage, GoesOnFrom};
ghost use Rattle.memory_disk.specs.First.{first_bytes};
ghost use Rattle.memory_disk.specs.declared.disk_call.DiskCall.TheVariants.{Sync};

use crate::DiskCall;
use memory_requests::extend;
use policy_types::NoMemory;
use std::alloc::{AllocError, Global};

/// The bytes that are read now, those at first if they were others, and all calls in order.
#[derive(Drop)]
pub(crate) struct History {
    pub(crate) bytes: Vec<u8>,
    pub(crate) first: Option<Vec<u8>>,
    pub(crate) calls: Vec<DiskCall>,
    ghost replayed: { bytes.items ≡ bytes_after (first_bytes first bytes) calls.items },
    ghost within: { all_within (first_bytes first bytes) calls.items ≡ true },
}

impl History {
    // No call was made.
    pub(crate) fn new(alloc: Global, bytes: Vec<u8>) -> History
        ensures bytes { result.bytes ≡ bytes }
        ensures calls { result.calls.items ≡ [] }
    {
        History {
            bytes,
            first: None,
            calls: Vec::new(alloc),
        }
    }

    // Keeps a call that writes nothing, and returns whether there was memory for that.
    pub(crate) fn note(&mut self, call: DiskCall) -> bool
        requires { WritesNothing call }
        ensures bytes { self.new.bytes ≡ self.old.bytes }
        ensures first { first_bytes self.new.first self.new.bytes ≡ first_bytes self.old.first self.old.bytes }
        ensures looks { Looks self.old.bytes.items self.new.bytes.items
            (IsImage (first_bytes self.old.first self.old.bytes) self.old.calls.items)
            (IsImage (first_bytes self.new.first self.new.bytes) self.new.calls.items) }
        ensures time { GoesOnFrom (first_bytes self.old.first self.old.bytes) self.old.calls.items
            (first_bytes self.new.first self.new.bytes) self.new.calls.items }
        ensures kept { self.new.calls.items ≡ (if result then self.old.calls.items ++ call ∷ [] else self.old.calls.items) }
    {
        self.calls.push(call).is_ok()
    }

    // Keeps a sync.
    pub(crate) fn note_sync(&mut self, failed: bool) -> bool
        ensures bytes { self.new.bytes ≡ self.old.bytes }
        ensures looks { Looks self.old.bytes.items self.new.bytes.items
            (IsImage (first_bytes self.old.first self.old.bytes) self.old.calls.items)
            (IsImage (first_bytes self.new.first self.new.bytes) self.new.calls.items) }
        ensures time { GoesOnFrom (first_bytes self.old.first self.old.bytes) self.old.calls.items
            (first_bytes self.new.first self.new.bytes) self.new.calls.items }
        ensures durable { IsTrue result → failed ≡ false → Only self.new.bytes.items
            (IsImage (first_bytes self.new.first self.new.bytes) self.new.calls.items) }
        ensures kept { self.new.calls.items ≡
            (if result then self.old.calls.items ++ Sync failed ∷ [] else self.old.calls.items) }
    {
        self.note(DiskCall::Sync { failed })
    }

    // Writes and keeps the call, or, if memory is refused, does neither. After a write that fails, its first half is
    // what is read.
    pub(crate) fn write(&mut self, alloc: Global, at: u64, bytes: &[u8], failed: bool) -> bool
        requires { at ≤ length self.old.bytes.items }
        ensures written { IsTrue result → self.new.bytes.items ≡ put self.old.bytes.items at (reaching failed bytes.now) }
        ensures torn { Torn at (length bytes.now) self.old.bytes.items self.new.bytes.items }
        ensures images { Follows (Torn at (length bytes.now))
            (IsImage (first_bytes self.old.first self.old.bytes) self.old.calls.items)
            (IsImage (first_bytes self.new.first self.new.bytes) self.new.calls.items) }
        ensures time { GoesOnFrom (first_bytes self.old.first self.old.bytes) self.old.calls.items
            (first_bytes self.new.first self.new.bytes) self.new.calls.items }
        ensures kept { IsTrue result → IsWriteOf at bytes.now failed self.old.calls.items self.new.calls.items }
        ensures missed { result ≡ false → self.new.calls.items ≡ self.old.calls.items }
    {
        let Ok(written) = self.prepare(alloc, bytes) else {
            return false;
        };
        put_over(&mut self.bytes, at as usize, reaching_part(bytes, failed));
        self.calls.push_reserved(DiskCall::Write {
            at,
            bytes: written,
            failed,
        });
        true
    }

    // Takes all the memory that a write of these bytes needs, and copies them.
    fn prepare(&mut self, alloc: Global, bytes: &[u8]) -> Result<Vec<u8>, AllocError>
        ensures copied { IfOk result (λ copy. copy.items ≡ bytes.now) }
        ensures room { OnOk result (vec_len self.new.bytes + length bytes.now ≤ vec_capacity self.new.bytes) }
        ensures place { OnOk result (vec_len self.new.calls < vec_capacity self.new.calls) }
        ensures kept { OnOk result (IsSome self.new.first) }
        ensures first { first_bytes self.new.first self.new.bytes ≡ first_bytes self.old.first self.old.bytes }
        ensures bytes { self.new.bytes.items ≡ self.old.bytes.items }
        ensures calls { self.new.calls.items ≡ self.old.calls.items }
    {
        let copy = Vec::from_slice(alloc, bytes)?;
        self.keep_first(alloc)?;
        self.calls.reserve(1)?;
        self.bytes.reserve(bytes.len())?;
        Ok(copy)
    }

    // What the disk held at first.
    pub(crate) fn first(&self) -> &[u8]
        ensures { result.now ≡ first_bytes self.now.first self.now.bytes }
    {
        match &self.first {
            Some(kept) => kept.as_slice(),
            None => self.bytes.as_slice(),
        }
    }

    // Keeps what the disk held at first, before anything is written over it.
    fn keep_first(&mut self, alloc: Global) -> Result<(), AllocError>
        ensures kept { OnOk result (IsSome self.new.first) }
        ensures first { first_bytes self.new.first self.new.bytes ≡ first_bytes self.old.first self.old.bytes }
        ensures bytes { self.new.bytes ≡ self.old.bytes }
        ensures calls { self.new.calls ≡ self.old.calls }
    {
        if self.first.is_none() {
            self.first = Some(self.bytes.to_vec(alloc)?);
        }
        Ok(())
    }
}

// The part of a write that is read from then on.
pub(crate) fn reaching_part(bytes: &[u8], failed: bool) -> &[u8]
    ensures { result.now ≡ reaching failed bytes.now }
{
    if failed {
        &bytes[..bytes.len().div_ceil(2)]
    } else {
        bytes
    }
}

// Puts bytes over those from a place on, and past the end, for which memory was reserved.
fn put_over(target: &mut Vec<u8>, at: usize, bytes: &[u8])
    requires room { vec_len target.old + length bytes.now ≤ vec_capacity target.old }
    ensures { target.new.items ≡ put target.old.items at bytes.now }
{
    if put_more(target, at, bytes).is_err() {
        unreachable!();
    }
}

// Puts bytes over those from a place on, and past the end, for which it asks for memory.
pub(crate) fn put_more(target: &mut Vec<u8>, at: usize, bytes: &[u8]) -> Result<(), NoMemory>
    ensures put { OnOk result (target.new.items ≡ put target.old.items at bytes.now) }
    ensures full { OnErr result (vec_capacity target.old < vec_len target.old + length bytes.now) }
{
    let begin = at.min(target.len());
    let over = bytes.len().min(target.len() - begin);
    extend(target, &bytes[over..])?;
    target[begin..begin + over].copy_from_slice(&bytes[..over]);
    Ok(())
}
