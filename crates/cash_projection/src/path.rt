// Those alive of one age, year by year.
ghost use Rattle.std.specs.Prelude.{◌≡◌, ℕ, ◌<◌, ◌≤◌, ◌+◌, ◌*◌, IsTrue, length};
ghost use Rattle.cash_projection.specs.Names.{ONE, HoldsAge, UNIT, down, up, pair_at};
ghost use Rattle.cash_projection.specs.inside.Paths.{IsSurvivalPath};

use present_value::{Pair, UNITS_IN_ONE};
use rate_table::RateTable;

/// The rate of certain death, in units of 10^-9.
const CERTAIN: u64 = 1_000_000_000;

/// The mark of a path that is of no age.
const NO_AGE: u8 = 255;

/// Which path: the rates by which those of an age die, and the age.
#[derive(Clone, Copy)]
pub struct PathKey {
    /// The row of the basis that has the table.
    pub row: u16,
    /// The age at issue; 0 if the rates are the same for all.
    pub issue: u8,
    /// The age now.
    pub age: u8,
}

/// The part of those of an age who are alive after `t` years, and the part who die in the year after that, up to the
/// end of the table, in units of 10^-16. A place after the end has no meaning.
#[derive(Clone, Copy)]
pub struct SurvivalPath {
    pub key: PathKey,
    pub alive: [Pair; 132],
    pub dying: [Pair; 132],
}

impl PathKey {
    /// Whether both are by the same rates and for the same age.
    pub fn is(self, other: PathKey) -> bool
        ensures equal { IsTrue result → self ≡ other }
        ensures same { self ≡ other → IsTrue result }
    {
        self.row == other.row && self.issue == other.issue && self.age == other.age
    }
}

impl SurvivalPath {
    /// A path of no age.
    pub fn none() -> SurvivalPath
        ensures { result.key.age ≡ 255 }
    {
        SurvivalPath {
            key: PathKey {
                row: 0,
                issue: 0,
                age: NO_AGE,
            },
            alive: [Pair { lo: 0, hi: 0 }; 132],
            dying: [Pair { lo: 0, hi: 0 }; 132],
        }
    }

    /// Those alive at the end of each year.
    pub fn alive_at_end(&self) -> &[Pair]
        ensures places { length result.now ≡ 131 }
        ensures each { (j : ℕ) → j < 131 → pair_at result.now j ≡ pair_at self.now.alive (j + 1) }
    {
        &self.alive[1..]
    }

    /// The path of a key by its rates, which hold its age.
    pub fn of(key: PathKey, table: &RateTable) -> SurvivalPath
        requires { HoldsAge table.now key.age }
        ensures key { result.key ≡ key }
        ensures path { IsSurvivalPath table.now key.age result }
    {
        let rates = table.rates_from(key.age);
        let mut alive = [Pair {
            lo: UNITS_IN_ONE,
            hi: UNITS_IN_ONE,
        }; 132];
        let mut dying = [Pair { lo: 0, hi: 0 }; 132];
        for (j, rate) in rates.iter().enumerate() {
            let now = alive[j];
            dying[j] = part_of(now, *rate);
            alive[j + 1] = part_of(now, 1_000_000_000 - *rate);
        }
        SurvivalPath { key, alive, dying }
    }
}

/// A part, in units of 10^-9, of a value with bounds.
fn part_of(whole: Pair, part: u32) -> Pair
    requires lo { whole.lo ≤ UNIT }
    requires hi { whole.hi ≤ UNIT }
    requires part { part ≤ ONE }
    ensures lo { result.lo ≡ down (whole.lo * part) ONE }
    ensures hi { result.hi ≡ up (whole.hi * part) ONE }
{
    Pair {
        lo: part_down(whole.lo, part as u64),
        hi: part_up(whole.hi, part as u64),
    }
}

/// `part` units of 10^-9 of a number, rounded down. The quotient of its division by 10^9 and the remainder are
/// multiplied separately, so that 64 bits are enough: a division of 128 bits takes longer.
fn part_down(whole: u64, part: u64) -> u64
    requires whole { whole ≤ UNIT }
    requires part { part ≤ ONE }
    ensures { result ≡ down (whole * part) ONE }
{
    whole / CERTAIN * part + whole % CERTAIN * part / CERTAIN
}

/// The same, rounded up.
fn part_up(whole: u64, part: u64) -> u64
    requires whole { whole ≤ UNIT }
    requires part { part ≤ ONE }
    ensures { result ≡ up (whole * part) ONE }
{
    whole / CERTAIN * part + (whole % CERTAIN * part + (CERTAIN - 1)) / CERTAIN
}
