ghost use Rattle.std.specs.Prelude.{◌≡◌, [], IfOk};
ghost use Rattle.std.specs.NonZero.{non_zero_usize_get};
ghost use Rattle.lru.specs.LruCache.{lru_cache};

use crate::evidence::NoMemory;
use lru::LruCache;
use std::alloc::Global;
use std::hash::Hash;
use std::num::NonZeroUsize;

/// A cache of at most so many keys, with no room yet.
pub fn sparse_cache<K: Eq + Hash, V>(
    alloc: Global,
    most: NonZeroUsize,
) -> Result<LruCache<K, V>, NoMemory>
    ensures { IfOk result (λ cache. cache ≡ lru_cache [] (non_zero_usize_get most)) }
{
    match LruCache::sparse(alloc, most) {
        Ok(made) => Ok(made),
        Err(_) => Err(NoMemory::refused()),
    }
}
