// What is booked for a command.
ghost use Rattle.std.specs.Prelude.{◌≡◌, ◌≤◌, false, if◌then◌else◌};
ghost use Rattle.policy_types.specs.Accounts.{nothing_booked, premium_received, benefit_incurred, benefit_paid, booking_of, added};
ghost use Rattle.policy_types.specs.contracts.policy.StatusPartialEq.TheImpl.{eq-value as status_eq};
ghost use Rattle.policy_types.specs.declared.policy.Status.TheVariants.{Matured};
ghost use Rattle.policy_types.specs.Valid.{IsValid, is_upgrade};
ghost use Rattle.money_ledgers.specs.Balances.{balances, HasRoom};

use policy_types::{Command, Policy, Status};

/// The balances of the four accounts, in cents. What an account has received counts above 0, what it has given counts
/// below.
#[derive(Clone, Copy, PartialEq, Eq, Debug)]
pub struct Ledger {
    /// Premiums received less benefits paid out.
    pub cash: i64,
    /// Premiums earned, with a minus sign.
    pub premiums: i64,
    /// The amounts of all claims and maturities.
    pub incurred: i64,
    /// What is still to be paid out of them, with a minus sign.
    pub payable: i64,
}

impl Ledger {
    /// The accounts of an office that has accepted no command.
    pub fn new() -> Ledger
        ensures { balances result ≡ nothing_booked }
    {
        Ledger {
            cash: 0,
            premiums: 0,
            incurred: 0,
            payable: 0,
        }
    }

    /// Books an accepted command. `after` is the policy that it names, as the command has left it. An upgrade books
    /// nothing.
    pub fn post(&mut self, command: &Command, after: &Policy)
        requires valid { IsValid command.now }
        requires named { is_upgrade command.now ≡ false }
        requires amount { after.now.amount ≤ 10000000000 }
        requires room { HasRoom self.old }
        ensures { balances self.new
            ≡ added (balances self.old) (booking_of command.now after.now) }
    {
        match *command {
            Command::Issue { .. }
            | Command::Alter { .. }
            | Command::Lapse { .. }
            | Command::PaidUp { .. }
            | Command::Upgrade => {}
            Command::Premium { amount, .. } | Command::Reinstate { amount, .. } => {
                self.receive_premiums(amount);
            }
            Command::Claim { .. } => self.incur(after.amount),
            Command::Mature { .. } => self.book_term_end(after),
            Command::Settle { amount, .. } => self.pay_out(amount),
        }
    }

    // A policy has matured or expired.
    fn book_term_end(&mut self, after: &Policy)
        requires amount { after.now.amount ≤ 10000000000 }
        requires room { HasRoom self.old }
        ensures { balances self.new
            ≡ added (balances self.old) (if status_eq.it after.now.status Matured then benefit_incurred after.now.amount
            else nothing_booked) }
    {
        if let Status::Matured = after.status {
            self.incur(after.amount);
        }
    }

    // Premiums were paid.
    fn receive_premiums(&mut self, cents: u64)
        requires few { cents ≤ 40000000000 }
        requires room { HasRoom self.old }
        ensures { balances self.new ≡ added (balances self.old) (premium_received cents) }
    {
        self.cash += cents as i64;
        self.premiums -= cents as i64;
    }

    // A benefit fell due.
    fn incur(&mut self, cents: u64)
        requires few { cents ≤ 40000000000 }
        requires room { HasRoom self.old }
        ensures { balances self.new ≡ added (balances self.old) (benefit_incurred cents) }
    {
        self.incurred += cents as i64;
        self.payable -= cents as i64;
    }

    // A benefit was paid out, or a part of it.
    fn pay_out(&mut self, cents: u64)
        requires few { cents ≤ 40000000000 }
        requires room { HasRoom self.old }
        ensures { balances self.new ≡ added (balances self.old) (benefit_paid cents) }
    {
        self.cash -= cents as i64;
        self.payable += cents as i64;
    }
}
