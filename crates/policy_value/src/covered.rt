// The cover of a policy.
ghost use Rattle.std.specs.Prelude.{◌≡◌};
ghost use Rattle.select_rates.specs.Along.{IsBelow, table_along};

use rate_table::{RateTable, Shape};
use select_rates::AnyTable;

/// The rates of an age at issue by a row of the basis, counted from 0, and the interest in basis points.
#[derive(Clone, Copy)]
pub struct IssueRates<'a> {
    pub basis_row: u16,
    /// The age at issue; 0 if the rates are the same for all.
    pub issue: u8,
    pub table: &'a RateTable,
    pub bp: u16,
}

/// A policy's shape, with the rates of its age at issue, and those of the next age, by which its net premium is
/// limited.
#[derive(Clone, Copy)]
pub struct Covered<'a> {
    pub own: IssueRates<'a>,
    pub next: IssueRates<'a>,
    pub shape: Shape,
}

impl<'a> IssueRates<'a> {
    /// The rates of an age at issue, which has some.
    pub fn of(basis_row: u16, table: &'a AnyTable, bp: u16, age: u8) -> IssueRates<'a>
        requires { IsBelow table.now age → ⊥ }
        ensures row { result.basis_row ≡ basis_row }
        ensures interest { result.bp ≡ bp }
        ensures table { result.table.now ≡ table_along table.now age }
        ensures issue { result.table.now ≡ table_along table.now result.issue }
    {
        let Some(rates) = table.along(age) else {
            unreachable!()
        };
        IssueRates {
            basis_row,
            issue: issue_of(table, age),
            table: rates,
            bp,
        }
    }
}

/// The age at issue by which rates are kept.
fn issue_of(table: &AnyTable, age: u8) -> u8
    ensures { table_along table.now result ≡ table_along table.now age }
{
    match table {
        AnyTable::Aggregate(_) => 0,
        AnyTable::Select(_) => age,
    }
}
