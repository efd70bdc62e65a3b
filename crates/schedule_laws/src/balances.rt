ghost use Rattle.schedule_laws.specs.Balances.{BalanceLaw};

/// The four balances add up to 0, and payable is minus what is outstanding on all policies.
pub fn balance_law()
    ensures { BalanceLaw }
{}
