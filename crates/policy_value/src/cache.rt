ghost use Rattle.std.specs.Prelude.{◌≡◌, ◌≤◌, ◌*◌, [], List, All, Contains, IfSome, IfNone, IsSome, IfOk, Ok, Some, length, min};
ghost use Rattle.policy_value.specs.Names.{AreRates, cap_shape, IsMadeFor, IsPaidUpFor, IsUnitFor, premium_of, APair, Dated};
ghost use Rattle.policy_value.specs.Caches.{HasAsked, IsMissing, IsRightFor, IsRightPremium, IsRightPlace, IsRightStore, IsRightUnit, IsUnitStore, KeepsKeys, kept_keys, most_keys};
ghost use Rattle.policy_value.specs.inside.Covered.{IsCovered, IsCoverOf, cap_by, cover_by};
ghost use Rattle.policy_value.specs.inside.Kept.{HoldsUnit, kept_unit};

use crate::columns::ColumnStore;
use crate::covered::Covered;
use crate::key::CacheKey;
use crate::units::UnitStore;
use basis_book::Basis;
use crvm_reserve::{Premium, shape_of_cap, unit_reserve};
use lru::LruCache;
use memory_requests::sparse_cache;
use policy_types::NoMemory;
use present_value::{Pair, Values};
use rate_table::Shape;
use std::alloc::Global;
use std::num::NonZeroUsize;

/// What was computed for policies and can be used for others: columns of present values by the age at which they end,
/// premiums by the key of the policy, and reserves per unit of amount by the key and the year. The premiums that were
/// used last are kept. Columns are kept until there is no capacity for more.
#[derive(Drop)]
pub struct ColumnCache {
    premiums: LruCache<CacheKey, Premium>,
    columns: ColumnStore,
    units: UnitStore,
    /// How many keys weren't kept.
    unkept: u64,
}

impl ColumnCache {
    /// A cache for the premiums of `capacity` keys of policies, and four times as many columns.
    pub fn new(alloc: Global, capacity: u8) -> Result<ColumnCache, NoMemory>
        requires { 1 ≤ capacity }
        ensures right { IfOk result (λ cache. (basis : List Dated) → IsRightFor basis cache) }
        ensures empty { IfOk result (λ cache. (kept_keys cache ≡ []) × (cache.unkept ≡ 0)) }
        ensures room { IfOk result (λ cache. (most_keys cache ≡ capacity) × (cache.columns.most ≡ 4 * capacity)) }
    {
        ColumnCache::with_room(alloc, 4 * capacity as u32, capacity as u32)
    }

    /// A cache with capacity for `columns` columns of all ages, of some 2 kB each, and for the premiums of `premiums`
    /// keys.
    pub fn with_room(alloc: Global, columns: u32, premiums: u32) -> Result<ColumnCache, NoMemory>
        requires columns { (1 ≤ columns) × (columns ≤ 65535) }
        requires premiums { 1 ≤ premiums }
        ensures right { IfOk result (λ cache. (basis : List Dated) → IsRightFor basis cache) }
        ensures empty { IfOk result (λ cache. (kept_keys cache ≡ []) × (cache.unkept ≡ 0)) }
        ensures room { IfOk result (λ cache. (most_keys cache ≡ premiums) × (cache.columns.most ≡ columns)) }
    {
        let columns = ColumnStore::new(alloc, columns)?;
        let units = UnitStore::new(alloc, premiums)?;
        let most = NonZeroUsize::new(premiums as usize).unwrap();
        let premiums = sparse_cache(alloc, most)?;
        Ok(ColumnCache {
            premiums,
            columns,
            units,
            unkept: 0,
        })
    }

    /// How many keys of policies it holds, or 255 if there are more.
    pub fn len(&self) -> u8
        ensures { result ≡ min (length (kept_keys self.now)) 255 }
    {
        self.premiums.len().min(255) as u8
    }

    /// How many keys were asked for and not kept, since memory was refused.
    pub fn unkept(&self) -> u64
        ensures { result ≡ self.now.unkept }
    {
        self.unkept
    }

    /// The values of a cover at year `t` and its modified net premium.
    pub fn priced(
        &mut self,
        basis: &Basis,
        key: CacheKey,
        covered: &Covered<'_>,
        t: u8,
    ) -> (Values, Premium)
        requires right { IsRightFor basis.now self.old }
        requires cover { IsCoverOf basis.now key.plan key.age key.years covered.now }
        requires row { key.basis_row ≡ covered.now.own.basis_row }
        requires year { t ≤ covered.now.shape.n }
        ensures made { IsMadeFor (cover_by covered.now) (cap_by covered.now) t result.0 result.1 }
        ensures right { IsRightFor basis.now self.new }
        ensures keys { HasAsked key self.old self.new }
    {
        let cap = shape_of_cap(covered.next.table, covered.shape.age);
        let premium = self.premium(basis, key, covered, &cap);
        let values = self.columns.values(basis, &covered.own, &covered.shape, t);
        (values, premium)
    }

    /// The bounds of the reserve per unit of amount of a cover at year `t`, in units of 10^-16.
    pub fn unit(&mut self, basis: &Basis, key: CacheKey, covered: &Covered<'_>, t: u8) -> Pair
        requires right { IsRightFor basis.now self.old }
        requires cover { IsCoverOf basis.now key.plan key.age key.years covered.now }
        requires row { key.basis_row ≡ covered.now.own.basis_row }
        requires year { t ≤ covered.now.shape.n }
        ensures unit { IsUnitFor (cover_by covered.now) (cap_by covered.now) t result }
        ensures right { IsRightFor basis.now self.new }
        ensures keys { HasAsked key self.old self.new }
        ensures holds { HoldsUnit self.new.units key t result }
        // A unit that is found isn't computed again.
        ensures found { (unit : APair) → HoldsUnit self.old.units key t unit → Contains (kept_keys self.old) key
            → self.new.columns ≡ self.old.columns }
    {
        if let Some(unit) = self.find_unit(key, t) {
            return unit;
        }
        let (values, premium) = self.priced(basis, key, covered, t);
        let unit = unit_reserve(&values, &premium);
        self.units.keep(key, t, unit);
        unit
    }

    /// The values of a cover at year `t`.
    pub fn valued(&mut self, basis: &Basis, covered: &Covered<'_>, t: u8) -> Values
        requires right { IsRightFor basis.now self.old }
        requires cover { (entry : Dated) × IsCovered basis.now entry covered.now }
        requires year { t ≤ covered.now.shape.n }
        ensures made { IsPaidUpFor (cover_by covered.now) t result }
        ensures right { IsRightFor basis.now self.new }
        ensures keys { KeepsKeys self.old self.new }
    {
        self.columns.values(basis, &covered.own, &covered.shape, t)
    }

    /// The premium of a key, which from now on counts as the one used last.
    fn premium(
        &mut self,
        basis: &Basis,
        key: CacheKey,
        covered: &Covered<'_>,
        cap: &Shape,
    ) -> Premium
        requires right { IsRightFor basis.now self.old }
        requires cover { IsCoverOf basis.now key.plan key.age key.years covered.now }
        requires row { key.basis_row ≡ covered.now.own.basis_row }
        requires cap { (cap.now ≡ cap_shape covered.now.next.table.now covered.now.shape.age) × AreRates covered.now.next.table.now }
        ensures premium { result ≡ premium_of (cover_by covered.now) (cap_by covered.now) }
        ensures right { IsRightFor basis.now self.new }
        ensures keys { HasAsked key self.old self.new }
    {
        if let Some(premium) = self.find(key) {
            return premium;
        }
        let premium = self.columns.premium(basis, covered, cap);
        self.keep(key, premium);
        premium
    }

    /// Keeps the premium of a key that isn't kept yet, which then counts as the one used last. If memory is refused,
    /// the key is counted.
    fn keep(&mut self, key: CacheKey, premium: Premium)
        requires missing { IsMissing key self.old }
        ensures columns { self.new.columns ≡ self.old.columns }
        ensures units { self.new.units ≡ self.old.units }
        ensures right { (basis : List Dated) → IsRightPremium basis (key, premium)
            → All (IsRightPremium basis) self.old.premiums.entries → All (IsRightPremium basis) self.new.premiums.entries }
        ensures keys { HasAsked key self.old self.new }
    {
        match self.premiums.put(key, premium) {
            Ok(_) => {}
            Err(_) => self.unkept = self.unkept.saturating_add(1),
        }
    }

    /// The premium of a key, if it is kept; it then counts as the one used last.
    fn find(&mut self, key: CacheKey) -> Option<Premium>
        ensures columns { self.new.columns ≡ self.old.columns }
        ensures units { self.new.units ≡ self.old.units }
        ensures right { (basis : List Dated) → All (IsRightPremium basis) self.old.premiums.entries
            → All (IsRightPremium basis) self.new.premiums.entries }
        ensures found { (basis : List Dated) → All (IsRightPremium basis) self.old.premiums.entries
            → IfSome result (λ premium. IsRightPremium basis (key, premium)) }
        ensures hit { IsSome result → HasAsked key self.old self.new }
        ensures miss { IfNone result ((self.new.premiums ≡ self.old.premiums) × IsMissing key self.old) }
        ensures unkept { self.new.unkept ≡ self.old.unkept }
    {
        self.premiums.get(&key).copied()
    }

    /// The unit of a key at year `t`, if both it and the key are kept; the key then counts as the one used last.
    fn find_unit(&mut self, key: CacheKey, t: u8) -> Option<Pair>
        requires store { IsUnitStore self.old.units }
        ensures units { self.new.units ≡ self.old.units }
        ensures columns { self.new.columns ≡ self.old.columns }
        ensures premiums { (basis : List Dated) → All (IsRightPremium basis) self.old.premiums.entries
            → All (IsRightPremium basis) self.new.premiums.entries }
        ensures right { (basis : List Dated) → All (IsRightPlace basis) self.old.units.places.items
            → IfSome result (λ unit. IsRightUnit basis (kept_unit key t unit)) }
        ensures holds { IfSome result (λ unit. HoldsUnit self.old.units key t unit) }
        ensures hit { IsSome result → HasAsked key self.old self.new }
        ensures miss { IfNone result (self.new ≡ self.old) }
        ensures found { (unit : APair) → HoldsUnit self.old.units key t unit → Contains (kept_keys self.old) key
            → result ≡ Some unit }
    {
        let Some(unit) = self.units.find(key, t) else {
            return None;
        };
        if self.premiums.promote(&key) {
            Some(unit)
        } else {
            None
        }
    }
}
