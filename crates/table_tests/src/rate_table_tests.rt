use rate_table::{RateTable, RatesFault};
use std::alloc::{AllocError, Global};
use std::test::Fail;
use test_rows::assert_rows;

/// The fault of a list of rates; for a table, its first and last age.
fn ages(
    alloc: Global,
    first_age: u8,
    rates: &[u32],
) -> Result<Result<(u8, u8), RatesFault>, AllocError> {
    let rates = rates.to_vec(alloc)?;
    Ok(match RateTable::new(first_age, rates) {
        Ok(table) => Ok((table.first_age(), table.last_age())),
        Err(fault) => Err(fault),
    })
}

/// A first age, rates, and what is made of them.
type List = (u8, &'static [u32], Result<(u8, u8), RatesFault>);

const LISTS: &[List] = &[
    (0, &[], Err(RatesFault::Empty)),
    // No rate, whatever the age.
    (200, &[], Err(RatesFault::Empty)),
    (130, &[5], Ok((130, 130))),
    (131, &[5], Err(RatesFault::PastAge130)),
    // Before a rate above 1.
    (130, &[5, 2_000_000_000], Err(RatesFault::PastAge130)),
    (
        0,
        &[1_000_000_000, 1_000_000_001, 4_000_000_000],
        Err(RatesFault::RateAboveOne(1)),
    ),
    (
        20,
        &[0, 0, 1_000_000_001],
        Err(RatesFault::RateAboveOne(22)),
    ),
];

#[test]
fn lists_of_rates(rt: HostRuntime) -> Result<(), Fail> {
    assert_rows!(rt; (first_age, rates, expected) in LISTS =>
        ages(rt.alloc(), *first_age, rates)?, *expected; "{rates:?} from {first_age}");
    Ok(())
}

#[test]
fn rates_by_age(rt: HostRuntime) -> Result<(), Fail> {
    let rates = [100_000_000, 200_000_000, 1_000_000_000].to_vec(rt.alloc())?;
    let table = RateTable::new(40, rates).ok().ok_or("a table")?;
    assert_eq!(rt; table.rate(39), None);
    assert_eq!(rt; table.rate(40), Some(100_000_000));
    assert_eq!(rt; table.rate(42), Some(1_000_000_000));
    assert_eq!(rt; table.rate(43), None);
    assert_eq!(rt; table.rate(255), None);
    assert_eq!(rt;
        table.rates_from(41),
        [200_000_000, 1_000_000_000].as_slice()
    );
    Ok(())
}
