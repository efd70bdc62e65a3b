use crate::crvm_reserve_tests::{Rates, table_of};
use Adequacy::{Close, Enough, Short};
use Rates::{G, Q, Steep};
use crvm_reserve::{basis_premium, reserve_bounds};
use deficiency_reserve::{Adequacy, adequacy, minimum_bounds};
use present_value::columns;
use rate_table::{RateTable, Shape};
use std::alloc::{AllocError, Global};
use std::test::Fail;
use test_rows::assert_rows;

/// Table, age, years of cover, years of premiums, whether it matures, basis points.
type Plan = (Rates, u8, u8, u8, bool, u16);

/// Amount, yearly premium, year, the lower and the upper bound of the minimum, whether the premium is short.
type Point = (u64, u64, u8, u64, u64, Adequacy);

/// Points that an actuary can follow by hand: 400.00 is short and 500.00 isn't, no premium and a very large one; one cent
/// below, at and above the net premium of 35.37, which is 17.15; a plan with two premiums, before the second and after it;
/// a term until it is over.
const BY_HAND: &[(Plan, &[Point])] = &[
    (
        (Q, 0, 3, 3, true, 0),
        &[
            (100000, 40000, 1, 28000, 28000, Short),
            (100000, 50000, 1, 12722, 12723, Enough),
            (100000, 0, 0, 100000, 100000, Short),
            (100000, 10000000000, 0, 0, 0, Enough),
        ],
    ),
    (
        (Q, 0, 3, 3, true, 0),
        &[
            (3537, 1714, 1, 451, 452, Short),
            (3537, 1715, 1, 450, 451, Close),
            (3537, 1716, 1, 449, 451, Enough),
            (3537, 1715, 3, 3537, 3537, Close),
        ],
    ),
    (
        (Q, 0, 5, 2, true, 0),
        &[
            (100000, 1, 1, 99999, 99999, Short),
            (100000, 1, 2, 100000, 100000, Short),
            (100000, 1, 3, 100000, 100000, Short),
            (100000, 1, 5, 100000, 100000, Short),
        ],
    ),
    (
        (Q, 0, 3, 3, false, 0),
        &[
            (100000, 1, 0, 45997, 45998, Short),
            (100000, 1, 1, 39998, 39999, Short),
            (100000, 1, 2, 24999, 24999, Short),
            (100000, 1, 3, 0, 0, Short),
        ],
    ),
];

/// Plans, ages, durations and premiums drawn at random: at the net premium and one cent above it, at nine, five and eleven
/// tenths of it, and once all are paid. The bounds were computed outside this program, in whole numbers of any length, and
/// each was compared there with the minimum as an exact fraction, found by sums over the years: the two enclose it.
const DRAWN: &[(Plan, &[Point])] = &[
    (
        (Q, 0, 3, 3, true, 0),
        &[
            (100000, 48487, 1, 12723, 12724, Short),
            (5000, 2425, 2, 2575, 2576, Enough),
            (100, 43, 1, 22, 23, Short),
            (10000000000, 2424370935, 1, 5636132317, 5636132317, Short),
            (100, 53, 0, 0, 0, Enough),
            (849378593, 205920877, 3, 849378593, 849378593, Short),
        ],
    ),
    (
        (Q, 0, 3, 3, false, 500),
        &[
            (10000000000, 2110682110, 2, 270270270, 270270271, Short),
            (8503235, 1794763, 2, 229817, 229818, Enough),
            (100, 18, 1, 5, 6, Short),
            (100000, 10553, 1, 18594, 18595, Short),
            (100000, 23217, 1, 0, 1, Enough),
            (100000, 10553, 3, 0, 0, Short),
        ],
    ),
    (
        (Q, 0, 5, 2, true, 0),
        &[
            (6771478, 4527518, 0, 0, 0, Short),
            (100000, 66862, 1, 33138, 33139, Enough),
            (100, 59, 1, 41, 41, Short),
            (848327719, 283602736, 1, 564724983, 564724983, Short),
            (94146944, 69242967, 3, 94146944, 94146944, Enough),
            (498314843, 166590634, 2, 498314843, 498314843, Short),
        ],
    ),
    (
        (Steep, 40, 3, 3, true, 400),
        &[
            (5000, 2159, 0, 0, 1, Short),
            (3535887, 1527083, 2, 1872808, 1872809, Enough),
            (866974909, 336987092, 1, 144114783, 144114784, Short),
            (657671867, 142018034, 1, 331089554, 331089555, Short),
            (100000, 47507, 1, 8192, 8193, Enough),
            (100000, 21594, 3, 100000, 100000, Short),
        ],
    ),
    (
        (G, 19, 102, 22, true, 0),
        &[
            (10000000000, 535070408, 20, 8948903088, 8948903089, Short),
            (2724228, 145766, 5, 526042, 526043, Enough),
            (100, 4, 7, 46, 47, Short),
            (10000000000, 267535204, 0, 4753041800, 4753041801, Short),
            (315570548, 18573771, 30, 315570548, 315570548, Enough),
            (820994920, 21964504, 102, 820994920, 820994920, Short),
        ],
    ),
    (
        (G, 69, 38, 38, false, 1),
        &[
            (5000, 1167, 22, 2508, 2509, Short),
            (8686665, 2028558, 34, 5577210, 5577211, Enough),
            (452646166, 95133946, 9, 144091660, 144091661, Short),
            (100000, 11676, 37, 59777, 59778, Short),
            (100, 26, 28, 58, 59, Enough),
            (100000, 11676, 38, 0, 0, Short),
        ],
    ),
    (
        (G, 31, 90, 90, true, 999),
        &[
            (5000, 164, 18, 1458, 1459, Short),
            (8943893, 293724, 16, 2309479, 2309480, Enough),
            (100, 2, 42, 65, 66, Short),
            (733647724, 12046746, 89, 654966367, 654966368, Short),
            (100000, 3613, 13, 20710, 20711, Enough),
            (100000, 1642, 90, 100000, 100000, Short),
        ],
    ),
    (
        (G, 43, 78, 11, true, 999),
        &[
            (10000000000, 747630234, 0, 0, 0, Short),
            (2639893, 197367, 8, 829498, 829499, Enough),
            (100, 6, 2, 12, 13, Short),
            (10000000000, 373815117, 10, 4895569290, 4895569291, Short),
            (543833537, 44724503, 65, 480766510, 480766511, Enough),
            (215107560, 8041045, 78, 215107560, 215107560, Short),
        ],
    ),
    (
        (G, 19, 102, 15, true, 999),
        &[
            (9020118, 153877, 7, 893587, 893588, Short),
            (100000, 1706, 9, 13885, 13886, Enough),
            (100, 0, 14, 27, 28, Short),
            (100000, 852, 1, 6821, 6822, Short),
            (100000, 1876, 56, 73182, 73183, Enough),
            (100000, 852, 15, 29034, 29035, Short),
        ],
    ),
    (
        (G, 76, 45, 20, true, 275),
        &[
            (4568342, 1317952, 9, 1002682, 1002683, Short),
            (5000, 1443, 12, 1443, 1444, Enough),
            (100000, 25964, 5, 19828, 19829, Short),
            (100000, 14424, 19, 80624, 80625, Short),
            (100000, 31734, 31, 96425, 96426, Enough),
            (100000, 14424, 20, 95186, 95187, Short),
        ],
    ),
    (
        (G, 21, 33, 33, false, 1),
        &[
            (100000, 3018, 21, 28625, 28626, Short),
            (5000, 151, 23, 1402, 1403, Enough),
            (100, 2, 24, 34, 35, Short),
            (10000000000, 150917747, 32, 742254935, 742254936, Short),
            (100000, 3320, 1, 0, 1, Enough),
            (413686830, 6243268, 33, 0, 0, Short),
        ],
    ),
    (
        (G, 63, 12, 12, false, 275),
        &[
            (5000, 878, 12, 0, 0, Short),
            (5000, 879, 2, 137, 138, Enough),
            (100000, 15806, 1, 8121, 8122, Short),
            (100000, 8781, 1, 40581, 40582, Short),
            (100, 19, 6, 10, 11, Enough),
            (913237982, 80199356, 12, 0, 0, Short),
        ],
    ),
    (
        (G, 19, 102, 102, true, 400),
        &[
            (10000000000, 235752119, 65, 8442794722, 8442794723, Short),
            (9298213, 219208, 42, 6346810, 6346811, Enough),
            (100000, 2121, 8, 17367, 17368, Short),
            (859550599, 10132043, 0, 149664608, 149664609, Short),
            (100, 3, 34, 59, 60, Enough),
            (100000, 1178, 102, 100000, 100000, Short),
        ],
    ),
    (
        (G, 0, 121, 121, true, 999),
        &[
            (10000000000, 24908858, 109, 8836437127, 8836437128, Short),
            (5000, 13, 34, 1354, 1355, Enough),
            (100, 0, 59, 59, 60, Short),
            (10000000000, 12454429, 120, 9079281183, 9079281184, Short),
            (100000, 274, 79, 75209, 75210, Enough),
            (100000, 124, 121, 100000, 100000, Short),
        ],
    ),
    (
        (G, 76, 8, 8, false, 0),
        &[
            (100000, 29313, 0, 0, 0, Short),
            (5000, 1466, 3, 243, 244, Enough),
            (100000, 26381, 5, 13682, 13683, Short),
            (100000, 14656, 1, 46209, 46210, Short),
            (479552639, 154633090, 2, 12693602, 12693603, Enough),
            (291471177, 42720771, 8, 0, 0, Short),
        ],
    ),
    (
        (G, 10, 111, 111, true, 2000),
        &[
            (5000, 13, 2, 15, 16, Short),
            (9483466, 25741, 25, 1329668, 1329669, Enough),
            (100000, 243, 32, 21178, 21179, Short),
            (100000, 135, 110, 83198, 83199, Short),
            (880308807, 2628266, 55, 411075703, 411075704, Enough),
            (705921640, 958005, 111, 705921640, 705921640, Short),
        ],
    ),
    (
        (G, 66, 15, 15, false, 999),
        &[
            (6163742, 1127480, 6, 719435, 719436, Short),
            (100000, 18293, 4, 7325, 7326, Enough),
            (894660865, 147287333, 12, 187722191, 187722192, Short),
            (100000, 9146, 1, 33226, 33227, Short),
            (100, 20, 4, 7, 8, Enough),
            (100000, 9146, 15, 0, 0, Short),
        ],
    ),
    (
        (G, 82, 18, 18, false, 275),
        &[
            (5000, 1765, 12, 1370, 1371, Short),
            (9488313, 3349871, 10, 2217314, 2217315, Enough),
            (100, 31, 10, 32, 33, Short),
            (10000000000, 1765261441, 0, 4481239701, 4481239702, Short),
            (100000, 38836, 14, 30342, 30343, Enough),
            (4889856, 863187, 18, 0, 0, Short),
        ],
    ),
];

/// Amounts, found by a search outside this program, whose net premium is so near to a whole cent that its bounds
/// don't decide on which side it is: one cent less, this cent, one more, and this cent at the end of the cover.
const CLOSE_BY_SEARCH: &[(Plan, &[Point])] = &[
    (
        (G, 35, 86, 86, true, 400),
        &[
            (9999905903, 525620739, 7, 1579973441, 1579973442, Short),
            (9999905903, 525620740, 7, 1579973432, 1579973433, Close),
            (9999905903, 525620741, 7, 1579973432, 1579973433, Enough),
            (9999905903, 525620740, 86, 9999905903, 9999905903, Close),
        ],
    ),
    (
        (G, 40, 25, 25, true, 275),
        &[
            (9999433642, 718601278, 7, 1952890272, 1952890273, Short),
            (9999433642, 718601279, 7, 1952890264, 1952890265, Close),
            (9999433642, 718601280, 7, 1952890264, 1952890265, Enough),
            (9999433642, 718601279, 25, 9999433642, 9999433642, Close),
        ],
    ),
    (
        (G, 30, 91, 20, true, 999),
        &[
            (9999596868, 324652420, 7, 1156488032, 1156488033, Short),
            (9999596868, 324652421, 7, 1156488026, 1156488027, Close),
            (9999596868, 324652422, 7, 1156488026, 1156488027, Enough),
            (9999596868, 324652421, 20, 4917085937, 4917085938, Close),
        ],
    ),
];

/// The bounds of the minimum and the test of the premium, if the shape fits the table.
fn minimum(table: &RateTable, plan: Plan, policy: (u64, u64, u8)) -> Option<(u64, u64, Adequacy)> {
    let (_, age, n, h, matures, bp) = plan;
    let (amount, charged, t) = policy;
    let shape = Shape { age, n, h, matures };
    let rate = table.rate(age)?;
    let years = table.last_age() + 1 - age;
    if h < 2 || h > n || n > years || rate > 500_000_000 || bp > 2000 {
        return None;
    }
    if amount < 1 || amount > 10_000_000_000 || charged > 10_000_000_000 || t > n {
        return None;
    }
    let columns = columns(table, &shape, bp);
    let premium = basis_premium(table, &shape, bp, &columns);
    let ordinary = reserve_bounds(&columns, &premium, amount, t);
    let (low, high) = minimum_bounds(&columns, ordinary, amount, charged, t);
    Some((low, high, adequacy(premium.lo, premium.hi, amount, charged)))
}

type Minimum = (u64, u64, Adequacy);

fn found(alloc: Global, plan: Plan, policy: (u64, u64, u8)) -> Result<Option<Minimum>, AllocError> {
    let Some(table) = table_of(alloc, plan.0)? else {
        return Ok(None);
    };
    Ok(minimum(&table, plan, policy))
}

#[test]
fn minimums_by_hand_and_at_random(rt: HostRuntime) -> Result<(), Fail> {
    assert_rows!(rt; plans in [BY_HAND, DRAWN, CLOSE_BY_SEARCH], (plan, points) in plans, point in *points => {
        let (amount, charged, t, low, high, test) = *point;
        found(rt.alloc(), *plan, (amount, charged, t))? == Some((low, high, test))
    }; "age {}, point {point:?}", plan.1);
    Ok(())
}
