// One image of a moment, made by replaying the calls up to then.
ghost use Rattle.std.specs.Prelude.{◌≡◌, ◌-◌, ◌∷◌, ℕ, List, IfOk, OnOk, nat_le, if◌then◌else◌};
ghost use Rattle.memory_disk.specs.History.{image_of_writes, kept_after};
ghost use Rattle.outside_io.specs.Disks.{put};
ghost use Rattle.memory_disk.specs.declared.disk_call.DiskCall.{DiskCall as Call};

use crate::DiskCall;
use crate::history::{put_more, reaching_part};
use memory_requests::{copied, extend};
use policy_types::NoMemory;
use std::alloc::Global;

// What is read, and the image so far, in which `left` writes are still to be done.
#[derive(Drop)]
struct Replay {
    bytes: Vec<u8>,
    image: Vec<u8>,
    left: u32,
}

// The image in which the first `keep` writes since the last sync were done whole, and the others not at all.
pub(crate) fn image_of(
    alloc: Global,
    first: &[u8],
    calls: &[DiskCall],
    keep: u32,
) -> Result<Vec<u8>, NoMemory>
    ensures { IfOk result (λ image. image.items ≡ image_of_writes first.now keep calls.now) }
{
    let mut replay = Replay {
        bytes: copied(alloc, first)?,
        image: copied(alloc, first)?,
        left: keep,
    };
    for call in calls {
        replay.go_on(call, keep)?;
    }
    Ok(replay.image)
}

impl Replay {
    // One more call.
    fn go_on(&mut self, call: &DiskCall, keep: u32) -> Result<(), NoMemory>
        ensures { OnOk result ((rest : List Call)
            → kept_after self.new.bytes.items self.new.image.items keep self.new.left rest
            ≡ kept_after self.old.bytes.items self.old.image.items keep self.old.left (call.now ∷ rest)) }
    {
        match call {
            DiskCall::Write { at, bytes, failed } => {
                put_more(&mut self.bytes, *at as usize, reaching_part(bytes, *failed))?;
                self.do_write(*at as usize, bytes)
            }
            DiskCall::Sync { failed: false } => {
                self.left = keep;
                self.image.clear();
                extend(&mut self.image, &self.bytes)
            }
            DiskCall::Sync { failed: true } => Ok(()),
            DiskCall::Len { .. } => Ok(()),
            DiskCall::Read { .. } => Ok(()),
        }
    }

    // Does the write whole, if it is one of those still to be done.
    fn do_write(&mut self, at: usize, bytes: &[u8]) -> Result<(), NoMemory>
        ensures bytes { self.new.bytes ≡ self.old.bytes }
        ensures left { OnOk result (self.new.left ≡ self.old.left - 1) }
        ensures image { OnOk result (self.new.image.items
            ≡ (if nat_le 1 self.old.left then put self.old.image.items at bytes.now else self.old.image.items)) }
    {
        if self.left > 0 {
            self.left -= 1;
            put_more(&mut self.image, at, bytes)?;
        }
        Ok(())
    }
}
