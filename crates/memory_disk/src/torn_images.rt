// One image of a moment in which writes are torn, made by replaying the calls up to then.
ghost use Rattle.std.specs.Prelude.{◌≡◌, ◌∷◌, ℕ, List, take, IfOk, OnOk};
ghost use Rattle.memory_disk.specs.History.{put_within, reaching, torn_after};
ghost use Rattle.outside_io.specs.Disks.{put};
ghost use Rattle.memory_disk.specs.declared.disk_call.DiskCall.{DiskCall as Call};

use crate::DiskCall;
use crate::history::{put_more, reaching_part};
use memory_requests::{copied, extend};
use policy_types::NoMemory;
use std::alloc::Global;

// The image in which the first `reached` bytes of each write since the last sync reached the disk.
pub(crate) fn torn_image_of(
    alloc: Global,
    first: &[u8],
    calls: &[DiskCall],
    reached: usize,
) -> Result<Vec<u8>, NoMemory>
    ensures { IfOk result (λ image. image.items ≡ torn_after first.now first.now reached calls.now) }
{
    let mut bytes = copied(alloc, first)?;
    let mut image = copied(alloc, first)?;
    for call in calls {
        go_on(&mut bytes, &mut image, call, reached)?;
    }
    Ok(image)
}

// One more call.
fn go_on(
    bytes: &mut Vec<u8>,
    image: &mut Vec<u8>,
    call: &DiskCall,
    reached: usize,
) -> Result<(), NoMemory>
    ensures { OnOk result ((rest : List Call) → torn_after bytes.new.items image.new.items reached rest
        ≡ torn_after bytes.old.items image.old.items reached (call.now ∷ rest)) }
{
    match call {
        DiskCall::Write {
            at,
            bytes: written,
            failed,
        } => {
            put_more(bytes, *at as usize, reaching_part(written, *failed))?;
            put_front(image, *at as usize, written, reached)
        }
        DiskCall::Sync { failed: false } => {
            image.clear();
            extend(image, bytes)
        }
        DiskCall::Sync { failed: true } => Ok(()),
        DiskCall::Len { .. } => Ok(()),
        DiskCall::Read { .. } => Ok(()),
    }
}

// Puts the first `reached` of the bytes on a disk that is long enough for them to begin.
fn put_front(image: &mut Vec<u8>, at: usize, bytes: &[u8], reached: usize) -> Result<(), NoMemory>
    ensures { OnOk result (image.new.items ≡ put_within image.old.items at (take reached bytes.now)) }
{
    if at <= image.len() {
        put_more(image, at, &bytes[..reached.min(bytes.len())])?;
    }
    Ok(())
}
