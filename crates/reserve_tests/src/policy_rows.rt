// Policies by a basis and a measure, and the rows that a valuation must have of them.
ghost use Rattle.policy_value.specs.Caches.{IsRightFor};

use crate::bases::basis;
use Expected::{Both, Bounds, Word};
use Plan::{Endowment, Limited, Term, Whole};
use Status::{InForce, Lapsed, PaidUp};
use basis_book::Basis;
use policy_types::{Command, Plan, Policy, Status};
use policy_value::{Adequacy, ColumnCache, Measure, NotValued, Row, Worth, row};
use std::alloc::Global;
use std::io::Eprint;
use std::process::Abort;
use std::test::Fail;
use test_rows::assert_rows;

/// 2020-01-01, on which all the policies are issued.
pub const ISSUED: i32 = 18_262;
/// The day before the first anniversary, and the first three.
pub const DAY_BEFORE: i32 = 18_627;

pub const ONE_YEAR: i32 = 18_628;

pub const TWO_YEARS: i32 = 18_993;

pub const THREE_YEARS: i32 = 19_358;

pub const FLAT: &[u8] = b"1900-01-01,q.xml,0";

pub const AT_FIVE: &[u8] = b"1900-01-01,q.xml,500";

/// The select rates 0.05 and 0.1 at age 0, and 0.1 and 0.2 at age 1.
pub const EARLY: &[u8] = b"1900-01-01,early.xml,0";

/// Plan, age, years, amount, premium and status.
pub type Insured = (Plan, u8, u8, u64, u64, Status);

pub const ENDOWMENT: Insured = (Endowment, 0, 3, 100_000, 40_000, InForce);

pub const TERM: Insured = (Term, 0, 3, 100_000, 40_000, InForce);

pub const LIMITED: Insured = (Limited, 0, 2, 100_000, 40_000, InForce);

/// Too old for the table.
pub const OLD: Insured = (Whole, 4, 0, 100_000, 40_000, InForce);

pub const LAPSED: Insured = (Endowment, 0, 3, 100_000, 40_000, Lapsed);

pub const PAID_UP: Insured = (Endowment, 0, 3, 30_000, 40_000, PaidUp);

pub const PAID_UP_TERM: Insured = (Term, 0, 3, 30_000, 40_000, PaidUp);

pub const PAID_UP_LIMITED: Insured = (Limited, 0, 2, 30_000, 40_000, PaidUp);

/// A lower and an upper bound, those of the minimum too, or a word.
#[derive(Clone, Copy)]
pub enum Expected {
    Bounds(u64, u64),
    Both(u64, u64, u64, u64, Adequacy),
    Word(NotValued),
}

pub struct Case {
    pub name: &'static str,
    pub file: &'static [u8],
    pub insured: Insured,
    pub on: i32,
    pub measure: Measure,
    pub t: u8,
    pub worth: Expected,
}

pub fn policy_of(insured: Insured) -> Policy {
    let (plan, age, years, amount, premium, status) = insured;
    Policy {
        id: 7001,
        plan,
        age,
        years,
        amount,
        premium,
        issued: ISSUED,
        last: ISSUED,
        paid: 0,
        status,
        outstanding: 0,
    }
}

pub fn worth_of(expected: Expected) -> Worth {
    match expected {
        Bounds(lo, hi) => Worth::Bounds { lo, hi },
        Both(lo, hi, min_lo, min_hi, test) => Worth::Both {
            lo,
            hi,
            min_lo,
            min_hi,
            test,
        },
        Word(word) => Worth::Word(word),
    }
}

/// The row of a policy by a basis and a cache that serves other policies too.
pub fn row_of(
    basis: &Basis,
    policy: &Policy,
    on: i32,
    measure: Measure,
    cache: &mut ColumnCache,
) -> Result<Row, Fail>
    requires { IsRightFor basis.now cache.old }
    ensures { IsRightFor basis.now cache.new }
{
    let issue = Command::Issue {
        id: policy.id,
        day: policy.issued,
        plan: policy.plan,
        age: policy.age,
        years: policy.years,
        amount: policy.amount,
        premium: policy.premium,
    };
    if issue.is_valid() {
        Ok(row(policy, basis, on, measure, cache))
    } else {
        Err("a valid issue".into())
    }
}

/// The same by a cache that has served policies of other ages at issue.
fn row_after_others(
    basis: &Basis,
    policy: &Policy,
    on: i32,
    measure: Measure,
    cache: &mut ColumnCache,
) -> Result<Row, Fail>
    requires { IsRightFor basis.now cache.old }
{
    for age in 0..5u8 {
        let other = Policy { age, ..*policy };
        row_of(basis, &other, on, measure, cache)?;
    }
    row_of(basis, policy, on, measure, cache)
}

fn found(alloc: Global, case: &Case) -> Result<Row, Fail> {
    let basis = basis(alloc, case.file)?;
    let Ok(mut cache) = ColumnCache::new(alloc, 16) else {
        return Err("a cache".into());
    };
    let policy = policy_of(case.insured);
    row_after_others(&basis, &policy, case.on, case.measure, &mut cache)
}

fn holds(alloc: Global, case: &Case) -> Result<bool, Fail> {
    let expected = Row {
        id: 7001,
        status: policy_of(case.insured).status,
        t: case.t,
        worth: worth_of(case.worth),
    };
    Ok(found(alloc, case)? == expected)
}

pub fn all_hold(rt: &(impl Abort + Eprint), alloc: Global, tables: &[&[Case]]) -> Result<(), Fail> {
    assert_rows!(rt; cases in tables, case in *cases => holds(alloc, case)?; "{} on {}", case.name, case.on);
    Ok(())
}
