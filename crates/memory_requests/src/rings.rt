// Both ends of a ring.
ghost use Rattle.std.specs.Prelude.{◌≡◌, ◌≤◌, ◌*◌, [], IfOk};
ghost use Rattle.std.specs.Mem.{type_size};
ghost use Rattle.rtrb.specs.Ring.{sent, known_free, producer_capacity, received, known_items, consumer_capacity, IsPair};
ghost use Rattle.memory_requests.specs.Limits.{most_bytes};

use crate::evidence::NoMemory;
use rtrb::{AnyItems, Consumer, Producer, Protocol, RingBuffer};
use std::alloc::Global;

/// A ring with room for so many items.
pub fn ring_ends<T: Drop>(
    alloc: Global,
    room: usize,
) -> Result<(Producer<T>, Consumer<T>), NoMemory>
    requires bytes { room * type_size T.row ≤ most_bytes }
    requires items { room ≤ most_bytes }
    ensures pair { IfOk result (λ r. IsPair r.0 r.1) }
    ensures producer { IfOk result (λ r. (sent r.0 ≡ []) × (known_free r.0 ≡ room) × (producer_capacity r.0 ≡ room)) }
    ensures consumer { IfOk result (λ r. (received r.1 ≡ []) × (known_items r.1 ≡ []) × (consumer_capacity r.1 ≡ room)) }
{
    ruled_ring_ends::<T, AnyItems>(alloc, room)
}

/// The same, of items that a protocol allows.
pub fn ruled_ring_ends<T: Drop, P: Protocol<T>>(
    alloc: Global,
    room: usize,
) -> Result<(Producer<T, Global, P>, Consumer<T, Global, P>), NoMemory>
    requires bytes { room * type_size T.row ≤ most_bytes }
    requires items { room ≤ most_bytes }
    ensures pair { IfOk result (λ r. IsPair r.0 r.1) }
    ensures producer { IfOk result (λ r. (sent r.0 ≡ []) × (known_free r.0 ≡ room) × (producer_capacity r.0 ≡ room)) }
    ensures consumer { IfOk result (λ r. (received r.1 ≡ []) × (known_items r.1 ≡ []) × (consumer_capacity r.1 ≡ room)) }
{
    match RingBuffer::with_protocol::<Global, P>(alloc, room) {
        Ok(made) => Ok(made),
        Err(_) => Err(NoMemory::refused()),
    }
}
