// The older versions of the keys that have several. Code outside this file reads a version only by a look, which is
// counted.
ghost use Rattle.std.specs.Prelude.{◌≡◌, ℕ, ◌+◌, ◌^◌, ◌<◌, ◌≤◌, [], ◌∷◌, ◌++◌, drop, length, nat_eq, slice_get, Some, OnOk, vec_len, vec_capacity};
ghost use Rattle.std.specs.List.{list_any};
ghost use Rattle.std.specs.Map.{keys_of};
ghost use Rattle.indexmap.specs.IndexMap.{get};
ghost use Rattle.versioned_book.specs.Pasts.{AreApart, AreWhereTold, HasPastRoom, IsDeeper, PlacesAfter, is_key, newest, older_of, olders_in, own_older, places_in, older_total};
ghost use Rattle.versioned_book.specs.Versions.{AreFewSteps, IsRising, value_at, versions_from};

use crate::Chain;
use crate::halving::search;
use crate::hashing::KeyHashing;
use indexmap::IndexMap;
use memory_requests::{NoMemory, reserve, reserve_exact};
use outside_io::Steps;
use std::alloc::Global;
use std::mem::replace;
use std::sync::ledger::Ledger;

/// The older versions of one key, each with its position.
#[derive(Drop)]
pub struct Past<V: Copy> {
    // The key and the place of its entry.
    key: u32,
    index: u32,
    older: Vec<(u32, V)>,
}

impl<V: Copy> Past<V> {
    /// How many older versions there are.
    pub(crate) fn len(&self) -> usize
        ensures { result ≡ vec_len self.now.older }
    {
        self.older.len()
    }

    /// The version at an index, the oldest at 0. It takes one step.
    pub(crate) fn look<L: Ledger>(&self, i: usize, steps: &mut Steps<L>) -> (u32, V)
        requires { i < vec_len self.now.older }
        ensures version { slice_get self.now.older.items i ≡ Some result }
        ensures step { steps.new ≡ steps.old + 1 }
    {
        steps.tick();
        self.older[i]
    }

    // Drops the versions that no position from the floor on needs, given the newest version, and returns how many
    // there were.
    fn cut(&mut self, floor: u32, newest: (u32, V)) -> usize
        ensures place { (self.new.key ≡ self.old.key) × (self.new.index ≡ self.old.index) }
        ensures kept { versions_from floor (self.old.older.items ++ newest ∷ []) ≡ self.new.older.items ++ newest ∷ [] }
        ensures count { length self.old.older.items ≡ length self.new.older.items + result }
    {
        let count = self.unneeded(floor, newest);
        drop_front(&mut self.older, count);
        count
    }

    // How many of the oldest versions are needed by no position from the floor on.
    fn unneeded(&self, floor: u32, newest: (u32, V)) -> usize
        ensures within { result ≤ vec_len self.now.older }
        ensures rest { versions_from floor (self.now.older.items ++ newest ∷ []) ≡ drop result (self.now.older.items ++ newest ∷ []) }
    {
        let mut count = 0;
        while count < self.older.len() {
            let (next, _value) = self.version(count + 1, newest);
            if floor < next {
                return count;
            }
            count += 1;
        }
        count
    }

    // The version at an index, or the newest one after the last. `unneeded` reads the versions by it, beginning with
    // the oldest.
    fn version(&self, i: usize, newest: (u32, V)) -> (u32, V)
        requires { i ≤ vec_len self.now.older }
        ensures { slice_get (self.now.older.items ++ newest ∷ []) i ≡ Some result }
    {
        if i < self.older.len() {
            self.older[i]
        } else {
            newest
        }
    }
}

/// The pasts of a book, in the order in which their keys got a second version.
#[derive(Drop)]
pub struct Pasts<V: Copy> {
    list: Vec<Past<V>>,
    // Memory for the first older version of a key.
    ready: Vec<(u32, V)>,
}

impl<V: Copy> Pasts<V> {
    /// No pasts. It asks for no memory yet.
    pub(crate) fn new(alloc: Global) -> Pasts<V>
        ensures places { places_in result ≡ [] }
        ensures olders { olders_in result ≡ [] }
    {
        Pasts {
            list: Vec::new(alloc),
            ready: Vec::new(alloc),
        }
    }

    /// Takes the memory for one older version of the key whose entry names this place. After an error nothing has
    /// changed.
    pub(crate) fn reserve(&mut self, key: u32, place: u32) -> Result<(), NoMemory>
        ensures places { places_in self.new ≡ places_in self.old }
        ensures olders { olders_in self.new ≡ olders_in self.old }
        ensures room { OnOk result (HasPastRoom self.new key place) }
    {
        if self.is_of(key, place) {
            return reserve_one(&mut self.list[place as usize].older);
        }
        reserve(&mut self.list, 1)?;
        reserve_exact(&mut self.ready, 1)
    }

    /// Adds an older version of the key whose entry names this place, and returns the place that the entry names from
    /// then on.
    pub(crate) fn push(
        &mut self,
        alloc: Global,
        key: u32,
        index: u32,
        place: u32,
        version: (u32, V),
    ) -> u32
        requires room { HasPastRoom self.old key place }
        requires apart { AreApart (keys_of (places_in self.old)) }
        requires seen { is_key key (slice_get (places_in self.old) place) ≡ list_any (nat_eq key) (keys_of (places_in self.old)) }
        requires few { length (places_in self.old) < 2 ^ 32 }
        ensures places { PlacesAfter (places_in self.old) (places_in self.new) key index place result }
        ensures olders { IsDeeper (olders_in self.old) (olders_in self.new) key version }
    {
        if self.is_of(key, place) {
            self.list[place as usize].older.push_reserved(version);
            return place;
        }
        let mut older = replace(&mut self.ready, Vec::new(alloc));
        older.clear();
        older.push_reserved(version);
        let last = self.list.len() as u32;
        self.list.push_reserved(Past { key, index, older });
        last
    }

    /// The value that the key whose entry names this place had last at or before a position, among its older
    /// versions. It takes few steps: 2 to the power of their number is at most twice the number of the older
    /// versions, plus one.
    pub(crate) fn value_at<L: Ledger>(
        &self,
        key: u32,
        place: u32,
        p: u32,
        steps: &mut Steps<L>,
    ) -> Option<V>
        requires { IsRising 0 (own_older key (slice_get (olders_in self.now) place)) }
        ensures value { result ≡ value_at p (own_older key (slice_get (olders_in self.now) place)) }
        ensures looks { AreFewSteps steps.old steps.new (length (own_older key (slice_get (olders_in self.now) place))) }
    {
        if self.is_of(key, place) {
            search(&self.list[place as usize], p, steps)
        } else {
            None
        }
    }

    /// Drops the versions that no position from the floor on needs, and returns how many there were.
    pub(crate) fn cut(&mut self, chains: &IndexMap<u32, Chain<V>, KeyHashing>, floor: u32) -> u32
        requires told { AreWhereTold chains.now.entries (places_in self.old) }
        requires few { older_total (olders_in self.old) < 2 ^ 32 }
        ensures places { places_in self.new ≡ places_in self.old }
        ensures olders { (key : ℕ) (chain : Chain V) → get nat_eq chains.now key ≡ Some chain
            → versions_from floor (older_of key (olders_in self.old) ++ newest chain ∷ []) ≡ older_of key (olders_in self.new) ++ newest chain ∷ [] }
        ensures count { older_total (olders_in self.old) ≡ older_total (olders_in self.new) + result }
    {
        let mut dropped = 0;
        for place in 0..self.list.len() {
            let past = &mut self.list[place];
            let (_key, chain) = chains.get_index(past.index as usize).unwrap();
            dropped += past.cut(floor, (chain.position, chain.value)) as u32;
        }
        dropped
    }

    /// Drops all pasts.
    pub(crate) fn clear(&mut self)
        ensures places { places_in self.new ≡ [] }
        ensures olders { olders_in self.new ≡ [] }
    {
        self.list.clear();
    }

    // Whether the past at a place is the key's.
    fn is_of(&self, key: u32, place: u32) -> bool
        ensures { result ≡ is_key key (slice_get (places_in self.now) place) }
    {
        match self.list.get(place as usize) {
            Some(past) => past.key == key,
            None => false,
        }
    }
}

// Takes the memory for one more version: for exactly one if there are few, and for a quarter more if there are many.
fn reserve_one<V: Copy>(older: &mut Vec<(u32, V)>) -> Result<(), NoMemory>
    ensures items { older.new.items ≡ older.old.items }
    ensures room { OnOk result (vec_len older.new < vec_capacity older.new) }
{
    if older.len() < older.capacity() {
        return Ok(());
    }
    reserve_exact(older, 1 + older.len() / 4)
}

fn drop_front<V: Copy>(older: &mut Vec<(u32, V)>, count: usize)
    requires { count ≤ vec_len older.old }
    ensures { older.new.items ≡ drop count older.old.items }
{
    for _version in older.drain(..count) {}
}
