// How keys are hashed. Keys are numbers that are mostly given in sequence. So four consecutive keys are neighbours in
// the map's index, and a key is looked up in memory that the key before it has just used. More than four neighbours
// would collide.
ghost use Rattle.std.specs.Prelude.{◌≡◌, ◌+◌, ◌*◌, ◌/◌, ◌%◌, ◌^◌, bit_xor, fold};
ghost use Rattle.versioned_book.specs.inside.Hashing.{spread};

use std::hash::{BuildHasher, Hasher};

/// A hasher of keys of four bytes; it uses the bytes written last. It is fixed, as the kit's own hasher is: keys
/// chosen against it can make a map slow, but no answer wrong.
#[derive(Clone, Copy)]
pub struct KeyHasher {
    key: u32,
}

impl Hasher for KeyHasher {
    ghost write = { λ h bytes. record { key = fold (λ key b. key / 256 + b * 2 ^ 24) h.key bytes } };

    ghost finish = { λ h. bit_xor (spread (h.key / 4)) (h.key % 4 * 2 ^ 30) };

    // The group of four to which a key belongs picks its place in the index. Its number within the group becomes the
    // highest bits of what the map keeps of a hash, which distinguish the keys in one place.
    #[inline(always)]
    fn finish(&self) -> u64 {
        spread((self.key / 4) as u64) ^ ((self.key % 4) as u64) * 0x4000_0000
    }

    // The lowest byte comes first.
    #[inline(always)]
    fn write(&mut self, bytes: &[u8]) {
        for b in bytes {
            self.key = self.key / 256 + (*b as u32) * 0x0100_0000;
        }
    }
}

// Groups that follow one another, or come at equal steps, must lie far apart: the two halves of a product by a fixed
// factor are joined by xor.
#[inline(always)]
fn spread(row: u64) -> u64
    ensures { result ≡ spread row }
{
    let product = row as u128 * 0x9e37_79b9_7f4a_7c15;
    (product % 0x1_0000_0000_0000_0000) as u64 ^ (product >> 64) as u64
}

/// Makes hashers of keys.
#[derive(Clone, Copy)]
pub struct KeyHashing;

impl BuildHasher for KeyHashing {
    type Hasher = KeyHasher;

    ghost build_hasher = { λ _. record { key = 0 } };

    #[inline(always)]
    fn build_hasher(&self) -> KeyHasher {
        KeyHasher { key: 0 }
    }
}
