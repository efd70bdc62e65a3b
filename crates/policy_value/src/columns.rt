// The columns that are kept for later policies.
ghost use Rattle.std.specs.Prelude.{◌≡◌, ℕ, ◌+◌, ◌≤◌, ◌<◌, ◌↔◌, IsTrue, [], List, All, IfOk, length, vec_capacity};
ghost use Rattle.policy_value.specs.Names.{AreRates, Dated, cover_of, cap_shape, premium_of, AreValuesAt, CanEnd, IsColumn, value_to, CanValue};
ghost use Rattle.policy_value.specs.Caches.{IsRightStore, IsStore};
ghost use Rattle.policy_value.specs.inside.Covered.{IsByRow, IsCovered, cap_by, cover_by};
ghost use Rattle.policy_value.specs.inside.Kept.{HasAge, HasAgeAt, HasPut, HasColumnRoom, IsAtSlot, slot_of};

use crate::covered::{Covered, IssueRates};
use basis_book::Basis;
use crvm_reserve::{Premium, PremiumParts, premium_by};
use memory_requests::{filled, with_room};
use policy_types::NoMemory;
use present_value::{Column, Pair, Stream, Values};
use rate_table::{RateTable, Shape};
use std::alloc::Global;

/// The number of slots by which columns are found: those of all ages at issue of a row of the basis have slots of
/// their own.
const SLOTS: usize = 65_536;

/// The distance between the slots of two rows of the basis, in ages at issue.
const AGES_APART: usize = 41;

/// What a column depends on: the row of the basis, counted from 0, the age at issue by which its rates are kept, what
/// is paid, and the age at which the payments end.
#[derive(Clone, Copy, PartialEq, Eq, Debug)]
pub struct ColumnKey {
    pub basis_row: u16,
    pub issue: u8,
    pub stream: Stream,
    pub end: u8,
}

/// The number of ages for which a column can have values: none is above 131.
const AGES: usize = 132;

/// How many columns by select rates, of some sixteen values each, take as much memory as one column of all ages.
const NARROW_IN_ONE: usize = 8;

/// The most columns that are kept.
const MOST_KEPT: usize = 65_535;

/// A column goes down to a multiple of this age, so that it seldom has to be computed again for a lower one.
const AGES_TOGETHER: u8 = 32;

/// A column: the row of the basis and the age at issue by which it is computed, and where its values are, from its
/// lowest age to the age at which it ends.
#[derive(Clone, Copy)]
pub struct KeptColumn {
    basis_row: u16,
    issue: u8,
    stream: Stream,
    end: u8,
    lowest: u8,
    /// The place of the value at the lowest age.
    first: usize,
}

/// The columns that are kept. If there is no capacity for a new one, all of them are dropped.
#[derive(Drop)]
pub struct ColumnStore {
    /// It has capacity for as many as there may be.
    kept: Vec<KeptColumn>,
    most_kept: usize,
    /// Their values, one column's after the other's.
    pairs: Vec<Pair>,
    /// For each slot, where its column may be.
    places: Vec<u16>,
    /// The store has capacity for the values of so many columns of all ages.
    most: usize,
    /// The column that is being computed.
    column: Column,
}

impl KeptColumn {
    /// Whether it is the column of a key, and has the value at an age.
    fn has(&self, key: ColumnKey, age: u8) -> bool
        ensures { IsTrue result ↔ HasAge self.now key age }
    {
        self.basis_row == key.basis_row
            && self.issue == key.issue
            && self.stream == key.stream
            && self.end == key.end
            && self.lowest <= age
    }
}

impl ColumnStore {
    /// A store of at most `most` columns.
    pub fn new(alloc: Global, most: u32) -> Result<ColumnStore, NoMemory>
        requires { (1 ≤ most) × (most ≤ 65535) }
        ensures right { IfOk result (λ store. (basis : List Dated) → IsRightStore basis store) }
        ensures most { IfOk result (λ store. store.most ≡ most) }
    {
        let most = most as usize;
        let most_kept = (most * NARROW_IN_ONE).min(MOST_KEPT);
        let kept = with_room(alloc, most_kept)?;
        let pairs = with_room(alloc, most * AGES)?;
        let places = filled(alloc, 0, SLOTS)?;
        Ok(ColumnStore {
            kept,
            most_kept,
            pairs,
            places,
            most,
            column: Column::new(Stream::Annuity, 0),
        })
    }

    /// The modified net premium of a cover, with the shape of its cap.
    pub fn premium(&mut self, basis: &Basis, covered: &Covered<'_>, cap: &Shape) -> Premium
        requires right { IsRightStore basis.now self.old }
        requires cover { (entry : Dated) × IsCovered basis.now entry covered.now }
        requires cap { (cap.now ≡ cap_shape covered.now.next.table.now covered.now.shape.age) × AreRates covered.now.next.table.now }
        ensures premium { result ≡ premium_of (cover_by covered.now) (cap_by covered.now) }
        ensures right { IsRightStore basis.now self.new }
    {
        let own = &covered.own;
        let shape = &covered.shape;
        premium_by(PremiumParts {
            rate: own.table.rate(shape.age).unwrap(),
            bp: own.bp,
            issue: self.values(basis, own, shape, 0),
            renewal: self.values(basis, own, shape, 1),
            limit: self.values(basis, &covered.next, cap, 0),
        })
    }

    /// The values of a shape at year `t`, by rates of a row of the basis.
    pub fn values(&mut self, basis: &Basis, rates: &IssueRates<'_>, shape: &Shape, t: u8) -> Values
        requires right { IsRightStore basis.now self.old }
        requires row { IsByRow basis.now rates.now }
        requires can { CanValue rates.now.table.now shape.now rates.now.bp × AreRates rates.now.table.now }
        requires year { t ≤ shape.now.n }
        ensures values { AreValuesAt (cover_of rates.now.table.now shape.now rates.now.bp) t result }
        ensures right { IsRightStore basis.now self.new }
    {
        let benefits = ColumnKey {
            basis_row: rates.basis_row,
            issue: rates.issue,
            stream: Stream::of_benefits(shape.matures),
            end: shape.age + shape.n,
        };
        let ben = self.value(basis, rates, benefits, shape.age + t);
        if t >= shape.h {
            let ann = Pair { lo: 0, hi: 0 };
            return Values { ben, ann };
        }
        let premiums = ColumnKey {
            basis_row: rates.basis_row,
            issue: rates.issue,
            stream: Stream::Annuity,
            end: shape.age + shape.h,
        };
        let ann = self.value(basis, rates, premiums, shape.age + t);
        Values { ben, ann }
    }

    /// The value at an age in the column of a key.
    fn value(&mut self, basis: &Basis, rates: &IssueRates<'_>, key: ColumnKey, age: u8) -> Pair
        requires right { IsRightStore basis.now self.old }
        requires row { IsByRow basis.now rates.now }
        requires key { (key.basis_row ≡ rates.now.basis_row) × (key.issue ≡ rates.now.issue) }
        requires can { CanEnd rates.now.table.now rates.now.bp key.end age }
        requires end { key.end ≤ 131 }
        ensures value { result ≡ value_to rates.now.table.now rates.now.bp key.stream key.end age }
        ensures right { IsRightStore basis.now self.new }
    {
        let place = self.place_of(basis, rates, key, age);
        let kept = self.kept[place];
        self.pairs[kept.first + usize::from(age - kept.lowest)]
    }

    /// Where the column of a key is, which is kept from now on and has the value at an age.
    fn place_of(&mut self, basis: &Basis, rates: &IssueRates<'_>, key: ColumnKey, age: u8) -> usize
        requires right { IsRightStore basis.now self.old }
        requires row { IsByRow basis.now rates.now }
        requires key { (key.basis_row ≡ rates.now.basis_row) × (key.issue ≡ rates.now.issue) }
        requires can { CanEnd rates.now.table.now rates.now.bp key.end age }
        requires end { key.end ≤ 131 }
        ensures right { IsRightStore basis.now self.new }
        ensures kept { HasAgeAt self.new.kept.items result key age }
        ensures slot { IsAtSlot self.new key age result }
        // A column that is found isn't computed again.
        ensures found { (place : ℕ) → IsAtSlot self.old key age place → self.new ≡ self.old }
    {
        let slot = slot_of(key);
        let place = self.places[slot] as usize;
        if self.lies_at(place, key, age) {
            return place;
        }
        self.make_room();
        let lowest = lowest_of(rates.table.first_age(), key.issue, age);
        let place = self.keep(basis, rates, key, lowest);
        self.places[slot] = place as u16;
        place
    }

    fn lies_at(&self, place: usize, key: ColumnKey, age: u8) -> bool
        ensures { IsTrue result ↔ HasAgeAt self.now.kept.items place key age }
    {
        place < self.kept.len() && self.kept[place].has(key, age)
    }

    /// Drops all columns if there is no capacity for one more.
    fn make_room(&mut self)
        requires store { IsStore self.old }
        ensures right { (basis : List Dated) → IsRightStore basis self.old → IsRightStore basis self.new }
        ensures room { HasColumnRoom self.new }
        ensures places { self.new.places ≡ self.old.places }
    {
        if self.kept.len() >= self.most_kept || self.pairs.len() + AGES > self.most * AGES {
            self.kept.clear();
            self.pairs.clear();
        }
    }

    /// Keeps a new column from this age on, and returns where it is.
    fn keep(&mut self, basis: &Basis, rates: &IssueRates<'_>, key: ColumnKey, lowest: u8) -> usize
        requires right { IsRightStore basis.now self.old }
        requires room { HasColumnRoom self.old }
        requires row { IsByRow basis.now rates.now }
        requires key { (key.basis_row ≡ rates.now.basis_row) × (key.issue ≡ rates.now.issue) }
        requires can { CanEnd rates.now.table.now rates.now.bp key.end lowest }
        requires end { key.end ≤ 131 }
        ensures right { IsRightStore basis.now self.new }
        ensures kept { HasAgeAt self.new.kept.items result key lowest }
        ensures few { result < 65535 }
        ensures places { self.new.places ≡ self.old.places }
    {
        let place = self.kept.len();
        let kept = KeptColumn {
            basis_row: key.basis_row,
            issue: key.issue,
            stream: key.stream,
            end: key.end,
            lowest,
            first: self.pairs.len(),
        };
        self.column.restart(key.stream, key.end);
        put_values(&mut self.pairs, &mut self.column, rates, lowest, key.end);
        self.kept.push_reserved(kept);
        place
    }
}

/// The age from which a column is computed if it is needed at this age.
fn lowest_of(first_age: u8, issue: u8, age: u8) -> u8
    requires { first_age ≤ age }
    ensures { (first_age ≤ result) × (result ≤ age) }
{
    if issue > 0 {
        return first_age;
    }
    first_age.max(age / AGES_TOGETHER * AGES_TOGETHER)
}

/// Adds the values of a column after others, from an age on to its end.
fn put_values(
    pairs: &mut Vec<Pair>,
    column: &mut Column,
    rates: &IssueRates<'_>,
    lowest: u8,
    end: u8,
)
    requires column { IsColumn rates.now.table.now rates.now.bp column.old × (column.old.end ≡ end) }
    requires can { CanEnd rates.now.table.now rates.now.bp end lowest }
    requires room { length pairs.old.items + 132 ≤ vec_capacity pairs.old }
    requires end { end ≤ 131 }
    ensures put { HasPut rates.now.table.now rates.now.bp column.old.stream end lowest (end + 1) pairs.old.items pairs.new.items }
    ensures room { vec_capacity pairs.new ≡ vec_capacity pairs.old }
{
    let mut age = lowest;
    while age <= end {
        pairs.push_reserved(column.at(rates.table, rates.bp, age));
        age += 1;
    }
}

/// The slot that says where a column is.
fn slot_of(key: ColumnKey) -> usize
    ensures is { result ≡ slot_of key }
    ensures within { result < 65536 }
{
    let stream = match key.stream {
        Stream::Insurance => 0,
        Stream::Endowment => 1,
        Stream::Annuity => 2,
    };
    let ages = key.basis_row as usize * AGES_APART + key.issue as usize;
    ((ages * 3 + stream) * 132 + key.end as usize) % SLOTS
}
