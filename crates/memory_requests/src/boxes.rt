// Single values, which are small, and texts. What is asked for is as much as the caller holds already.
ghost use Rattle.std.specs.Prelude.{◌≡◌, ◌≤◌, IfOk, string_bytes};
ghost use Rattle.std.specs.Mem.{type_size};
ghost use Rattle.memory_requests.specs.Limits.{most_boxed};

use crate::evidence::NoMemory;
use std::alloc::Global;

/// The value in a place of its own. Where memory is refused it is dropped.
pub fn boxed<T: Drop>(alloc: Global, value: T) -> Result<Box<T>, NoMemory>
    requires small { type_size T.row ≤ most_boxed }
    ensures ok { IfOk result (λ place. place.value ≡ value) }
{
    match Box::new(alloc, value) {
        Ok(made) => Ok(made),
        Err(_) => Err(NoMemory::refused()),
    }
}

/// This text, as one of its own.
pub fn text_of(alloc: Global, text: &str) -> Result<String, NoMemory>
    ensures ok { IfOk result (λ made. string_bytes made ≡ text.now) }
{
    match String::from_str(alloc, text) {
        Ok(made) => Ok(made),
        Err(_) => Err(NoMemory::refused()),
    }
}
