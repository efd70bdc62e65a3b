// An amount times `units` of 10^-16, by divisions of 64 bits: first for the lower half of the digits, then for the
// upper.
ghost use Rattle.std.specs.Prelude.{◌≡◌, ◌*◌, ◌≤◌};
ghost use Rattle.present_value.specs.Rounding.{UNIT, down, up};

/// The divisor of each of the two divisions.
const UNITS_AT_A_TIME: u64 = 100_000_000;

/// The share, rounded down.
pub fn share_down(amount: u64, units: u64) -> u64
    requires amount { amount ≤ 10000000000 }
    requires units { units ≤ UNIT }
    ensures { result ≡ down (amount * units) UNIT }
{
    let lower = amount * (units % UNITS_AT_A_TIME) / UNITS_AT_A_TIME;
    (amount * (units / UNITS_AT_A_TIME) + lower) / UNITS_AT_A_TIME
}

/// The share, rounded up.
pub fn share_up(amount: u64, units: u64) -> u64
    requires amount { amount ≤ 10000000000 }
    requires units { units ≤ UNIT }
    ensures { result ≡ up (amount * units) UNIT }
{
    let most = UNITS_AT_A_TIME - 1;
    let lower = (amount * (units % UNITS_AT_A_TIME) + most) / UNITS_AT_A_TIME;
    (amount * (units / UNITS_AT_A_TIME) + lower + most) / UNITS_AT_A_TIME
}
