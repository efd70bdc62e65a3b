ghost use Rattle.std.specs.Prelude.{◌≡◌, ◌+◌, ◌*◌, ◌/◌, ◌<◌, ◌^◌};
ghost use Rattle.present_value.specs.Rounding.{down, up};

/// A quotient rounded down.
pub fn quotient_down(number: u128, divisor: u128) -> u64
    requires divisor { 0 < divisor }
    requires fits { number < 2 ^ 64 * divisor }
    ensures { result ≡ down number divisor }
{
    (number / divisor) as u64
}

/// A quotient rounded up.
pub fn quotient_up(number: u128, divisor: u128) -> u64
    requires divisor { 0 < divisor }
    requires fits { number + divisor < 2 ^ 64 * divisor }
    requires room { number + divisor < 2 ^ 128 }
    ensures { result ≡ up number divisor }
{
    ((number + (divisor - 1)) / divisor) as u64
}
