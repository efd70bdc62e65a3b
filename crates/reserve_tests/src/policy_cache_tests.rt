// What a cache keeps changes no row.
use crate::bases::basis;
use crate::policy_rows::{ENDOWMENT, FLAT, LIMITED, ONE_YEAR, TERM, policy_of, row_of};
use basis_book::Basis;
use policy_types::Status;
use policy_value::{ColumnCache, Measure, Row, Worth};
use std::alloc::Global;
use std::test::Fail;

/// The lengths of a cache of two keys after each of four policies, the first of which is asked for again at the end, and
/// the last row.
fn asked_in_turn(alloc: Global, basis: &Basis) -> Result<([u8; 4], Row), Fail> {
    let endowment = policy_of(ENDOWMENT);
    let measure = Measure::Terminal;
    let Ok(mut cache) = ColumnCache::with_room(alloc, 2, 2) else {
        return Err("a cache".into());
    };
    row_of(basis, &endowment, ONE_YEAR, measure, &mut cache)?;
    let one = cache.len();
    row_of(basis, &policy_of(TERM), ONE_YEAR, measure, &mut cache)?;
    let two = cache.len();
    row_of(basis, &policy_of(LIMITED), ONE_YEAR, measure, &mut cache)?;
    let three = cache.len();
    let again = row_of(basis, &endowment, ONE_YEAR, measure, &mut cache)?;
    if cache.unkept() != 0 {
        return Err("a key wasn't kept".into());
    }
    Ok(([one, two, three, cache.len()], again))
}

#[test]
fn a_cache_of_two_keys(rt: HostRuntime) -> Result<(), Fail> {
    let basis = basis(rt.alloc(), FLAT)?;
    let (lengths, again) = asked_in_turn(rt.alloc(), &basis)?;
    assert_eq!(rt; lengths, [1, 2, 2, 2]);
    let expected = Row {
        id: 7001,
        status: Status::InForce,
        t: 1,
        worth: Worth::Bounds {
            lo: 12_722,
            hi: 12_723,
        },
    };
    assert_eq!(rt; again, expected);
    Ok(())
}
