// The reserves per unit of amount that are kept for later policies.
ghost use Rattle.std.specs.Prelude.{◌≡◌, ◌≤◌, ◌<◌, Some, List, All, IfOk, IfSome, length, vec_capacity};
ghost use Rattle.policy_value.specs.Names.{Dated, APair};
ghost use Rattle.policy_value.specs.Caches.{IsRightPlace, IsRightUnit, IsRightUnits, IsUnitStore};
ghost use Rattle.policy_value.specs.inside.Kept.{HasUnitRoom, HoldsUnit, kept_unit, unit_place};

use crate::key::{CacheKey, plan_number};
use memory_requests::with_room;
use policy_types::NoMemory;
use present_value::Pair;
use std::alloc::Global;
use std::mem::size_of;

// The number of places for each key of which a premium is kept: about as many years of a key are asked for.
const PLACES_FOR_A_KEY: usize = 8;

// The most places, of 32 bytes each.
const MOST_PLACES: usize = 524_288;

const _: () = prove!(size_of::<Option<KeptUnit>>() == 32);

// The number of places with which a store begins: for few policies they are quickly filled.
const FIRST_PLACES: usize = 4_096;

// If half of the places may be filled, the store grows by this factor.
const GROWTH: usize = 8;

/// The bounds of the reserve per unit of amount at year `t` of the cover of a key, in units of 10^-16.
#[derive(Clone, Copy)]
pub struct KeptUnit {
    key: CacheKey,
    t: u8,
    unit: Pair,
}

/// The units that are kept, added as they are asked for. Each has one place, by its key and year, and a new one may
/// take the place of another.
#[derive(Drop)]
pub struct UnitStore {
    /// It has capacity for as many as there may be.
    places: Vec<Option<KeptUnit>>,
    most: usize,
    /// How many were put in since there are so many places.
    put: usize,
}

impl UnitStore {
    /// A store for the units of `keys` keys.
    pub fn new(alloc: Global, keys: u32) -> Result<UnitStore, NoMemory>
        requires { 1 ≤ keys }
        ensures { IfOk result (λ units. (basis : List Dated) → IsRightUnits basis units) }
    {
        let most = (keys as usize * PLACES_FOR_A_KEY).min(MOST_PLACES);
        let mut places = with_room(alloc, most)?;
        add_places(&mut places, most.min(FIRST_PLACES));
        Ok(UnitStore {
            places,
            most,
            put: 0,
        })
    }

    /// The unit of a key at year `t`, if it is kept.
    pub fn find(&self, key: CacheKey, t: u8) -> Option<Pair>
        requires { IsUnitStore self.now }
        ensures right { (basis : List Dated) → All (IsRightPlace basis) self.now.places.items
            → IfSome result (λ unit. IsRightUnit basis (kept_unit key t unit)) }
        ensures holds { IfSome result (λ unit. HoldsUnit self.now key t unit) }
        ensures found { (unit : APair) → HoldsUnit self.now key t unit → result ≡ Some unit }
    {
        let place = place_of(key, t, self.places.len());
        unit_of(self.places[place], key, t)
    }

    /// Keeps the unit of a key at year `t`.
    pub fn keep(&mut self, key: CacheKey, t: u8, unit: Pair)
        requires { IsUnitStore self.old }
        ensures right { (basis : List Dated) → IsRightUnit basis (kept_unit key t unit) → IsRightUnits basis self.old
            → IsRightUnits basis self.new }
        ensures holds { HoldsUnit self.new key t unit }
    {
        self.make_room();
        let place = place_of(key, t, self.places.len());
        self.places[place] = Some(KeptUnit { key, t, unit });
        self.put = self.put.saturating_add(1);
    }

    // Adds places if half of them may be filled and there may be more.
    fn make_room(&mut self)
        requires { IsUnitStore self.old }
        ensures store { IsUnitStore self.new }
        ensures right { (basis : List Dated) → All (IsRightPlace basis) self.old.places.items
            → All (IsRightPlace basis) self.new.places.items }
        ensures room { HasUnitRoom self.new }
    {
        let count = self.places.len();
        if count >= self.most {
            return;
        }
        if self.put < count / 2 {
            return;
        }
        self.put = 0;
        add_places(&mut self.places, self.most.min(count * GROWTH));
    }
}

// The unit at a place, if it is that of a key at year `t`.
#[tactic(auto, using(crate::proofs::PerUnit::unit_is, crate::proofs::Keeping::itself))]
fn unit_of(place: Option<KeptUnit>, key: CacheKey, t: u8) -> Option<Pair>
    ensures is { IfSome result (λ unit. place ≡ Some (kept_unit key t unit)) }
    ensures found { (unit : APair) → place ≡ Some (kept_unit key t unit) → result ≡ Some unit }
{
    let Some(kept) = place else {
        return None;
    };
    if kept.key == key && kept.t == t {
        Some(kept.unit)
    } else {
        None
    }
}

// Adds empty places until there are `count`.
#[tactic(auto, using(crate::proofs::PerUnit::places_more))]
fn add_places(places: &mut Vec<Option<KeptUnit>>, count: usize)
    requires more { length places.old.items ≤ count }
    requires room { count ≤ vec_capacity places.old }
    ensures count { length places.new.items ≡ count }
    ensures right { (basis : List Dated) → All (IsRightPlace basis) places.old.items
        → All (IsRightPlace basis) places.new.items }
    ensures room { vec_capacity places.new ≡ vec_capacity places.old }
{
    let mut made = places.len();
    while made < count {
        places.push_reserved(None);
        made += 1;
    }
}

// The place, among `count`, of the unit of a key at year `t`.
fn place_of(key: CacheKey, t: u8, count: usize) -> usize
    requires { 1 ≤ count }
    ensures is { result ≡ unit_place key t count }
    ensures within { result < count }
{
    let plan = 4 * key.basis_row as usize + plan_number(key.plan) as usize;
    let cover = (plan * 131 + key.age as usize) * 131 + key.years as usize;
    (cover * 131 + t as usize) % count
}
