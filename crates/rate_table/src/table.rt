ghost use Rattle.std.specs.Prelude.{◌≡◌, ◌≤◌, ◌+◌, length, slice_index, SomeIff, IfSome, IfNone, IfOk, MatchResult, EachIndex};
ghost use Rattle.rate_table.specs.Rates.{Rates, ONE, AreRates, HoldsAge, AreRatesFrom, rate_at, last_age_of};
ghost use Rattle.rate_table.specs.Faults.{IsFirstFault, IsFirstAbove};

use crate::fault::RatesFault;
use std::marker::Model;

/// Rates of death for consecutive ages, of which there is at least one and none is above 130.
#[derive(Drop)]
pub struct RateTable {
    first_age: u8,
    rates: Vec<u32>,
}

impl Model for RateTable {
    ghost Value = { Rates };

    ghost view = { λ t. record { first_age = t.first_age; rates = t.rates.items } };

    ghost invariant = { λ t. AreRates (record { first_age = t.first_age; rates = t.rates.items }) };
}

impl RateTable {
    /// The table of these rates, in units of 10^-9, from `first_age` on.
    pub fn new(first_age: u8, rates: Vec<u32>) -> Result<RateTable, RatesFault>
        ensures table { let given : Rates = record { first_age = first_age; rates = rates.items } in
            MatchResult result (λ table. table ≡ given) (λ fault. IsFirstFault given fault) }
        ensures within { IfOk result (λ table. AreRates table) }
    {
        let count = rates.len();
        if count == 0 {
            return Err(RatesFault::Empty);
        }
        if first_age as usize + count > 131 {
            return Err(RatesFault::PastAge130);
        }
        match first_above_one(rates.as_slice()) {
            Some(place) => Err(RatesFault::RateAboveOne(first_age + place as u8)),
            None => Ok(RateTable { first_age, rates }),
        }
    }

    /// The rate of death within a year at an age, in units of 10^-9, or `None` outside the table.
    pub fn rate(&self, age: u8) -> Option<u32>
        ensures held { SomeIff result (HoldsAge self.now age) (rate_at self.now age) }
        ensures bound { IfSome result (λ rate. rate ≤ ONE) }
        ensures within { AreRates self.now }
    {
        if age < self.first_age {
            return None;
        }
        let place = (age - self.first_age) as usize;
        if place < self.rates.len() {
            Some(self.rates[place])
        } else {
            None
        }
    }

    /// The rates of an age that the table holds and of all later ages, in units of 10^-9.
    pub fn rates_from(&self, age: u8) -> &[u32]
        requires { HoldsAge self.now age }
        ensures rates { AreRatesFrom self.now age result.now }
        ensures bound { EachIndex result.now (λ k. slice_index result.now k ≤ ONE) }
        ensures ages { age + length result.now ≤ 131 }
    {
        let place = (age - self.first_age) as usize;
        &self.rates.as_slice()[place..]
    }

    /// The first age of the table.
    pub fn first_age(&self) -> u8
        ensures age { result ≡ self.now.first_age }
        ensures within { AreRates self.now }
    {
        self.first_age
    }

    /// The last age of the table.
    pub fn last_age(&self) -> u8
        ensures age { result ≡ last_age_of self.now }
        ensures within { AreRates self.now }
    {
        let count = self.rates.len();
        (self.first_age as usize + count - 1) as u8
    }
}

/// The place of the first rate above 1.
fn first_above_one(rates: &[u32]) -> Option<usize>
    ensures found { IfSome result (λ place. IsFirstAbove rates.now place) }
    ensures absent { IfNone result (EachIndex rates.now (λ k. slice_index rates.now k ≤ ONE)) }
{
    for (place, rate) in rates.iter().enumerate() {
        if *rate > 1_000_000_000 {
            return Some(place);
        }
    }
    None
}
