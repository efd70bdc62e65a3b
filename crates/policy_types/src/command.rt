ghost use Rattle.std.specs.Prelude.{◌≡◌, ◌↔◌, ◌≤◌, IsTrue};
ghost use Rattle.policy_types.specs.Valid.{IsId, IsCommandDay, IsIssueAge, AreYears};

/// The most commands that a journal takes.
pub const MOST_COMMANDS: u32 = 4_000_000;
/// 1900-01-01, in days since 1970-01-01.
pub const FIRST_DAY: i32 = -25567;
/// 2199-12-31, in days since 1970-01-01.
pub const LAST_DAY: i32 = 84005;
/// The greatest age at issue.
pub const LAST_ISSUE_AGE: u8 = 129;
/// Every term and every table ends before this age, in years.
pub const END_AGE: u16 = 131;
/// The greatest amount of insurance and the greatest premium, in cents.
pub const MOST_CENTS: u64 = 10_000_000_000;
/// The greatest payment to reinstate, in cents.
pub const MOST_REINSTATEMENT_CENTS: u64 = 40_000_000_000;

/// The four plans of insurance, all with level annual premiums.
#[derive(Clone, Copy, PartialEq, Eq, Hash, Debug)]
pub enum Plan {
    /// Pays if the insured dies within `years` years.
    Term,
    /// Pays when the insured dies, at any age.
    Whole,
    /// Pays if the insured dies within `years` years, or at their end if the insured is alive.
    Endowment,
    /// Whole life with at most `years` annual premiums.
    Limited,
}

/// What a clerk asks the office to post. Days are numbers of days since 1970-01-01, amounts and premiums are cents.
#[derive(Clone, Copy, PartialEq, Eq, Debug)]
pub enum Command {
    /// A new policy; `age` in years at issue, `years` 0 for whole life.
    Issue {
        id: u32,
        day: i32,
        plan: Plan,
        age: u8,
        years: u8,
        amount: u64,
        premium: u64,
    },
    /// The next annual premium is paid.
    Premium {
        id: u32,
        day: i32,
        amount: u64,
    },
    /// The amount of insurance is reduced, and a new premium is agreed.
    Alter {
        id: u32,
        day: i32,
        amount: u64,
        premium: u64,
    },
    /// A policy in arrears lapses.
    Lapse {
        id: u32,
        day: i32,
    },
    /// A lapsed policy is put in force again by a payment of the premiums that were missed.
    Reinstate {
        id: u32,
        day: i32,
        amount: u64,
    },
    /// The insured died on this day.
    Claim {
        id: u32,
        day: i32,
    },
    /// A part of what is outstanding, or all of it, is paid out.
    Settle {
        id: u32,
        day: i32,
        amount: u64,
    },
    /// The term has ended.
    Mature {
        id: u32,
        day: i32,
    },
    /// No more premiums are paid, in return for a lower amount of insurance.
    PaidUp {
        id: u32,
        day: i32,
        amount: u64,
    },
    /// From this command on policies may be made paid up. It names no policy and has no day.
    Upgrade,
}

impl Command {
    ghost use Rattle.policy_types.specs.Valid.{IsValid, id_of, day_of, is_upgrade};

    /// Whether every field lies within the limits of the office.
    pub fn is_valid(&self) -> bool
        ensures { IsTrue result ↔ IsValid self.now }
    {
        match *self {
            Command::Issue {
                id,
                day,
                plan,
                age,
                years,
                amount,
                premium,
            } => {
                names_policy(id, day)
                    && are_years(plan, age, years)
                    && is_payment(amount, MOST_CENTS)
                    && is_payment(premium, MOST_CENTS)
            }
            Command::Premium { id, day, amount } => {
                names_policy(id, day) && is_payment(amount, MOST_CENTS)
            }
            Command::Alter {
                id,
                day,
                amount,
                premium,
            } => {
                names_policy(id, day)
                    && is_payment(amount, MOST_CENTS)
                    && is_payment(premium, MOST_CENTS)
            }
            Command::Reinstate { id, day, amount } => {
                names_policy(id, day) && is_payment(amount, MOST_REINSTATEMENT_CENTS)
            }
            Command::Lapse { id, day } => names_policy(id, day),
            Command::Claim { id, day } => names_policy(id, day),
            Command::Settle { id, day, amount } => {
                names_policy(id, day) && is_payment(amount, MOST_CENTS)
            }
            Command::Mature { id, day } => names_policy(id, day),
            Command::PaidUp { id, day, amount } => {
                names_policy(id, day) && is_payment(amount, MOST_CENTS)
            }
            Command::Upgrade => true,
        }
    }

    /// Whether the command is an upgrade, which names no policy.
    pub fn is_upgrade(&self) -> bool
        ensures { result ≡ is_upgrade self.now }
    {
        match *self {
            Command::Upgrade => true,
            _ => false,
        }
    }

    /// The number of the policy that the command names, or 0 for an upgrade, which names none.
    pub fn id(&self) -> u32
        ensures { result ≡ id_of self.now }
    {
        match *self {
            Command::Issue { id, .. } => id,
            Command::Premium { id, .. } => id,
            Command::Alter { id, .. } => id,
            Command::Lapse { id, .. } => id,
            Command::Reinstate { id, .. } => id,
            Command::Claim { id, .. } => id,
            Command::Settle { id, .. } => id,
            Command::Mature { id, .. } => id,
            Command::PaidUp { id, .. } => id,
            Command::Upgrade => 0,
        }
    }

    /// The day on which the command takes effect; for a claim, the day of death. An upgrade has none.
    pub fn day(&self) -> Option<i32>
        ensures { result ≡ day_of self.now }
    {
        match *self {
            Command::Issue { day, .. } => Some(day),
            Command::Premium { day, .. } => Some(day),
            Command::Alter { day, .. } => Some(day),
            Command::Lapse { day, .. } => Some(day),
            Command::Reinstate { day, .. } => Some(day),
            Command::Claim { day, .. } => Some(day),
            Command::Settle { day, .. } => Some(day),
            Command::Mature { day, .. } => Some(day),
            Command::PaidUp { day, .. } => Some(day),
            Command::Upgrade => None,
        }
    }
}

fn names_policy(id: u32, day: i32) -> bool
    ensures { IsTrue result ↔ (IsId id × IsCommandDay day) }
{
    id != 0 && FIRST_DAY <= day && day <= LAST_DAY
}

/// Whether a plan may be issued at the age for the years: 0 for whole life, else at least 2 that end at 131 or before.
pub fn are_years(plan: Plan, age: u8, years: u8) -> bool
    ensures { IsTrue result ↔ (IsIssueAge age × AreYears plan age years) }
{
    let in_term = match plan {
        Plan::Whole => years == 0,
        Plan::Term | Plan::Endowment | Plan::Limited => {
            2 <= years && age as u16 + years as u16 <= END_AGE
        }
    };
    age <= LAST_ISSUE_AGE && in_term
}

fn is_payment(cents: u64, most: u64) -> bool
    ensures { IsTrue result ↔ ((1 ≤ cents) × (cents ≤ most)) }
{
    1 <= cents && cents <= most
}
