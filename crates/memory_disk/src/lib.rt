//! An honest disk in memory. It keeps every call, and makes each image that a crash at any moment might have left.
#![tactic(auto)]

mod disk_call;
mod history;
mod images;
mod in_memory;
mod torn_images;

pub use disk_call::DiskCall;
pub use in_memory::MemoryDisk;
