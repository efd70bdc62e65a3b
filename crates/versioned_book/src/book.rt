// The book: a chain of versions for each key. The keys are in the order in which they were first set.
ghost use Rattle.std.specs.Prelude.{◌≡◌, ℕ, ◌+◌, ◌<◌, ◌≤◌, [], ◌∷◌, ◌++◌, List, filter, length, min, nat_eq, nat_le, slice_get, Some, IfOk, OnOk, vec_len};
ghost use Rattle.indexmap.specs.IndexMap.{keys, index_map_len};
ghost use Rattle.versioned_book.specs.Books.{CanSet, IsBookOf, IsPlaceIn, IsSomeBook, kept_of, most_expected};
ghost use Rattle.versioned_book.specs.Settings.{Setting, settings_after, keys_of, own, until};
ghost use Rattle.versioned_book.specs.Versions.{AreFewSteps, IsRisingTo, newest_of, versions_from, value_at};

use crate::Chain;
use crate::hashing::KeyHashing;
use crate::past::Pasts;
use crate::place::KeyPlace;
use indexmap::IndexMap;
use memory_requests::{NoMemory, reserve, reserve_keys};
use outside_io::Steps;
use std::alloc::Global;
use std::sync::ledger::Ledger;

/// Values by key, with the past of each from the floor on.
#[derive(Drop)]
pub struct VersionedBook<V: Copy> {
    chains: IndexMap<u32, Chain<V>, KeyHashing>,
    // The position at which each key was first set.
    firsts: Vec<u32>,
    pasts: Pasts<V>,
    floor: u32,
    last: u32,
    kept: u32,
    alloc: Global,
}

impl<V: Copy> VersionedBook<V> {
    /// A book with no keys and the floor 0. It asks for no memory yet.
    pub fn new(alloc: Global) -> VersionedBook<V>
        ensures book { IsBookOf result [] }
        ensures floor { (result.floor ≡ 0) × (result.last ≡ 0) }
    {
        VersionedBook {
            chains: IndexMap::with_hasher(alloc, KeyHashing),
            firsts: Vec::new(alloc),
            pasts: Pasts::new(alloc),
            floor: 0,
            last: 0,
            kept: 0,
            alloc,
        }
    }

    /// Where a key is in the book, or that it isn't there.
    pub fn place_of(&self, key: u32) -> KeyPlace
        ensures place { IsPlaceIn self.now result }
        ensures key { result.key ≡ key }
    {
        KeyPlace {
            key,
            index: self.chains.get_index_of(&key),
        }
    }

    /// Takes the memory for one setting of the key. What the book holds stays, even after an error.
    pub fn reserve(&mut self, key: u32) -> Result<(), NoMemory>
        ensures room { OnOk result (CanSet self.new key) }
        ensures book { (sets : List (Setting V)) → IsBookOf self.old sets → IsBookOf self.new sets }
        ensures floor { (self.new.floor ≡ self.old.floor) × (self.new.last ≡ self.old.last) }
    {
        self.reserve_at(self.place_of(key))
    }

    /// The same for a key whose place is known. The key keeps its place, even after an error.
    pub fn reserve_at(&mut self, place: KeyPlace) -> Result<(), NoMemory>
        requires place { IsPlaceIn self.old place }
        ensures room { OnOk result (CanSet self.new place.key) }
        ensures book { (sets : List (Setting V)) → IsBookOf self.old sets → IsBookOf self.new sets }
        ensures floor { (self.new.floor ≡ self.old.floor) × (self.new.last ≡ self.old.last) }
        ensures place { IsPlaceIn self.new place }
    {
        match place.index {
            Some(index) => {
                let (_key, chain) = self.chains.get_index(index).unwrap();
                self.pasts.reserve(place.key, chain.past)
            }
            None => {
                reserve(&mut self.firsts, 1)?;
                reserve_keys(&mut self.chains, 1)
            }
        }
    }

    /// Takes the memory for `keys` further keys at once; if it is refused, for none. What the book holds stays.
    pub fn expect(&mut self, keys: u32)
        requires few { keys ≤ most_expected }
        ensures book { (sets : List (Setting V)) → IsBookOf self.old sets → IsBookOf self.new sets }
        ensures floor { (self.new.floor ≡ self.old.floor) × (self.new.last ≡ self.old.last) }
    {
        if self.firsts.reserve(keys as usize).is_ok() {
            let _ = self.chains.reserve(keys as usize);
        }
    }

    /// Sets the value of a key, for which memory was reserved, at a position above all earlier ones.
    pub fn set(&mut self, key: u32, position: u32, value: V)
        requires room { CanSet self.old key }
        requires rising { self.old.last < position }
        requires stands { IsSomeBook self.old }
        ensures book { (sets : List (Setting V)) → IsBookOf self.old sets → IsBookOf self.new (sets ++ record { key = key; position = position; value = value } ∷ []) }
        ensures floor { (self.new.floor ≡ self.old.floor) × (self.new.last ≡ position) }
    {
        self.set_at(self.place_of(key), position, value);
    }

    /// The same for a key whose place is known.
    pub fn set_at(&mut self, place: KeyPlace, position: u32, value: V)
        requires place { IsPlaceIn self.old place }
        requires room { CanSet self.old place.key }
        requires rising { self.old.last < position }
        requires stands { IsSomeBook self.old }
        ensures book { (sets : List (Setting V)) → IsBookOf self.old sets → IsBookOf self.new (sets ++ record { key = place.key; position = position; value = value } ∷ []) }
        ensures floor { (self.new.floor ≡ self.old.floor) × (self.new.last ≡ position) }
    {
        self.last = position;
        self.kept += 1;
        match place.index {
            Some(index) => {
                let (_key, chain) = self.chains.pair_mut(index);
                let version = (chain.position, chain.value);
                let past = self
                    .pasts
                    .push(self.alloc, place.key, index as u32, chain.past, version);
                *chain = Chain {
                    past,
                    position,
                    value,
                };
            }
            None => {
                let chain = Chain {
                    past: 0,
                    position,
                    value,
                };
                self.chains.insert(place.key, chain).unwrap();
                self.firsts.push_reserved(position);
            }
        }
    }

    /// Notes a position above all earlier ones at which no key is set; it then counts as the last position.
    pub fn pass(&mut self, position: u32)
        requires rising { self.old.last < position }
        ensures book { (sets : List (Setting V)) → IsBookOf self.old sets → IsBookOf self.new sets }
        ensures floor { (self.new.floor ≡ self.old.floor) × (self.new.last ≡ position) }
    {
        self.last = position;
    }

    /// The newest value of a key.
    pub fn get(&self, key: u32) -> Option<V>
        ensures { (sets : List (Setting V)) → IsBookOf self.now sets → result ≡ newest_of (own key sets) }
    {
        self.newest_at(self.place_of(key))
    }

    /// The newest value of a key whose place is known.
    pub fn newest_at(&self, place: KeyPlace) -> Option<V>
        requires { IsPlaceIn self.now place }
        ensures { (sets : List (Setting V)) → IsBookOf self.now sets → result ≡ newest_of (own place.key sets) }
    {
        match place.index {
            Some(index) => {
                let (_key, chain) = self.chains.get_index(index).unwrap();
                Some(chain.value)
            }
            None => None,
        }
    }

    /// How many keys were first set at or before a position, which may be below the floor.
    pub fn count_at(&self, p: u32) -> u32
        requires { IsSomeBook self.now }
        ensures { (sets : List (Setting V)) → IsBookOf self.now sets → result ≡ length (keys_of (until p sets)) }
    {
        many_until(self.firsts.as_slice(), p) as u32
    }

    /// The value of the index-th key at a position from the floor on. It takes few steps: 2 to the power of their
    /// number is at most twice the number of the key's kept versions, plus one.
    pub fn at<L: Ledger>(&self, index: u32, p: u32, steps: &mut Steps<L>) -> V
        requires stands { (sets : List (Setting V)) × IsBookOf self.now sets × (index < length (keys_of (until p sets))) }
        requires floor { self.now.floor ≤ p }
        ensures value { (sets : List (Setting V)) (key : ℕ) → IsBookOf self.now sets → slice_get (keys_of sets) index ≡ Some key → value_at p (own key sets) ≡ Some result }
        ensures looks { (sets : List (Setting V)) (key : ℕ) → IsBookOf self.now sets → slice_get (keys_of sets) index ≡ Some key → AreFewSteps steps.old steps.new (length (versions_from self.now.floor (own key sets))) }
    {
        let (key, chain) = self.chains.get_index(index as usize).unwrap();
        if chain.position <= p {
            return chain.value;
        }
        self.pasts.value_at(*key, chain.past, p, steps).unwrap()
    }

    /// The position from which on each value is kept.
    pub fn floor(&self) -> u32
        ensures { result ≡ self.now.floor }
    {
        self.floor
    }

    /// How many versions are kept.
    pub fn kept(&self) -> u32
        ensures kept { (sets : List (Setting V)) → IsBookOf self.now sets → result ≡ kept_of self.now }
        ensures few { (sets : List (Setting V)) → IsBookOf self.now sets → result ≤ length (keys_of sets) + length (settings_after self.now.floor sets) }
    {
        self.kept
    }

    /// Drops what no position from the floor on needs. A floor above the last position counts as the last position.
    pub fn trim(&mut self, floor: u32)
        requires rising { self.old.floor ≤ floor }
        requires stands { IsSomeBook self.old }
        ensures book { (sets : List (Setting V)) → IsBookOf self.old sets → IsBookOf self.new sets }
        ensures floor { (self.new.floor ≡ min floor self.old.last) × (self.new.last ≡ self.old.last) }
    {
        let new_floor = if floor < self.last { floor } else { self.last };
        if new_floor == self.floor {
            return;
        }
        self.kept -= self.pasts.cut(&self.chains, new_floor);
        self.floor = new_floor;
        if self.kept as usize != self.chains.len() {
            return;
        }
        // No older version is left, so the places that entries name mean nothing now. Until then a past that was
        // emptied keeps its place for the key's next version: that costs 32 bytes, and one look in each trim.
        self.pasts.clear();
    }
}

// How many of these rising positions are at or before p.
fn many_until(positions: &[u32], p: u32) -> usize
    requires { (last : ℕ) × IsRisingTo 0 positions.now last }
    ensures { result ≡ length (filter (λ first. nat_le first p) positions.now) }
{
    let mut low = 0;
    let mut high = positions.len();
    while low < high {
        let middle = low + (high - low) / 2;
        if positions[middle] <= p {
            low = middle + 1;
        } else {
            high = middle;
        }
    }
    low
}
