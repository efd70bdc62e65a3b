ghost use Rattle.std.specs.Prelude.{◌≡◌, ◌+◌, ◌*◌, ◌≤◌, ◌<◌};
ghost use Rattle.rate_table.specs.Rates.{ONE};
ghost use Rattle.present_value.specs.Rounding.{UNIT};
ghost use Rattle.present_value.specs.Ends.{benefit_stream, CanEnd, IsColumn, IsOf, IsStarted, value_to};
ghost use Rattle.present_value.specs.inside.Earlier.{earlier, most, end_payment};

use crate::pair::{Pair, UNITS_IN_ONE};
use crate::reciprocal::Reciprocal;
use crate::year::{benefits_before, premiums_before, year_reciprocal};
use rate_table::RateTable;

/// What is paid until an age, for an amount of 1.
#[derive(Clone, Copy, PartialEq, Eq, Debug)]
pub enum Stream {
    /// 1 at the end of the year of death, if the insured dies before the end.
    Insurance,
    /// The same, and 1 to a survivor at the end.
    Endowment,
    /// 1 at the start of each year.
    Annuity,
}

impl Stream {
    /// The benefits of a cover that pays a survivor at its end, or of one that doesn't.
    pub fn of_benefits(matures: bool) -> Stream
        ensures { result ≡ benefit_stream matures }
    {
        if matures {
            Stream::Endowment
        } else {
            Stream::Insurance
        }
    }
}

/// The present values of a stream of payments that ends at an age, at each attained age, in units of 10^-16.
///
/// All covers that end at one age share a column, whatever their ages at issue. It holds the values from its lowest
/// age on, and is extended to a lower age when that is asked for.
#[derive(Clone, Copy)]
pub struct Column {
    stream: Stream,
    end: u8,
    /// The lowest age whose value is known.
    from: u8,
    pairs: [Pair; 132],
}

impl Column {
    /// The column of a stream until an age. Only its last value is known.
    pub fn new(stream: Stream, end: u8) -> Column
        requires { end ≤ 131 }
        ensures { IsStarted stream end result }
    {
        let mut column = Column {
            stream,
            end,
            from: end,
            pairs: [Pair { lo: 0, hi: 0 }; 132],
        };
        column.restart(stream, end);
        column
    }

    /// Becomes the column of another stream. Only its last value is known.
    pub fn restart(&mut self, stream: Stream, end: u8)
        requires { end ≤ 131 }
        ensures { IsStarted stream end self.new }
    {
        self.stream = stream;
        self.end = end;
        self.from = end;
        let paid = paid_at_end(stream);
        self.pairs[end as usize] = Pair { lo: paid, hi: paid };
    }

    /// The value at an attained age, by the table and at the interest of the column. The column is extended if it has
    /// to be.
    pub fn at(&mut self, table: &RateTable, bp: u16, age: u8) -> Pair
        requires column { IsColumn table.now bp self.old }
        requires can { CanEnd table.now bp self.old.end age }
        ensures value { result ≡ value_to table.now bp self.old.stream self.old.end age }
        ensures column { IsColumn table.now bp self.new }
        ensures stays { IsOf self.new self.old.stream self.old.end }
    {
        if age < self.from {
            self.extend(table, bp, age);
        }
        self.pairs[age as usize]
    }

    /// Extends the column down to an age.
    fn extend(&mut self, table: &RateTable, bp: u16, age: u8)
        requires column { IsColumn table.now bp self.old }
        requires can { CanEnd table.now bp self.old.end age }
        requires below { age < self.old.from }
        ensures column { IsColumn table.now bp self.new }
        ensures stays { IsOf self.new self.old.stream self.old.end }
        ensures from { self.new.from ≡ age }
    {
        let rates = table.rates_from(age);
        let year = year_reciprocal(bp);
        while self.from > age {
            let place = self.from - 1;
            let later = self.pairs[self.from as usize];
            self.pairs[place as usize] = value_before(
                self.stream,
                rates[(place - age) as usize],
                &year,
                later,
            );
            self.from = place;
        }
    }
}

/// The value one year earlier.
pub(crate) fn value_before(stream: Stream, rate: u32, year: &Reciprocal, later: Pair) -> Pair
    requires rate { rate ≤ ONE }
    requires lo { later.lo ≤ most stream }
    requires hi { later.hi ≤ most stream }
    ensures { result ≡ earlier stream rate (10000 * year.now.divisor) later }
{
    match stream {
        Stream::Insurance | Stream::Endowment => benefits_before(rate, year, later),
        Stream::Annuity => premiums_before(rate, year, later),
    }
}

/// What is paid at the end.
pub(crate) fn paid_at_end(stream: Stream) -> u64
    ensures { result ≡ end_payment stream }
{
    match stream {
        Stream::Endowment => UNITS_IN_ONE,
        Stream::Insurance | Stream::Annuity => 0,
    }
}
