// Policies drawn from a seed.
ghost use Rattle.std.specs.Prelude.{◌≡◌, ℕ, ◌<◌, ◌≤◌, ◌+◌, ◌^◌, pos, ◌≤ℤ◌};
ghost use Rattle.policy_types.specs.Valid.{AreYears};
ghost use Rattle.load_maker.specs.Generator.{renewed, policy_of_draws, policy_drawn};
ghost use Rattle.load_maker.specs.inside.Rows.{drawn_below, plan_drawn, years_drawn};

use policy_types::Plan;

/// 2000-01-01, in days since 1970-01-01.
const FIRST_ISSUE: i32 = 10_957;

/// What is drawn for a policy; amount and premium are in cents.
#[derive(Clone, Copy)]
pub struct Drawn {
    pub plan: Plan,
    pub age: u8,
    pub years: u8,
    pub amount: u64,
    pub premium: u64,
    pub issued: i32,
}

/// The number from which policies are drawn, below 2^31.
#[derive(Drop)]
pub struct Generator {
    state: u64,
    ghost small: { state < 2 ^ 31 },
}

impl Generator {
    /// A generator that begins with the seed.
    pub fn new(seed: u32) -> Generator
        requires { seed < 2 ^ 31 }
        ensures { result.state ≡ seed }
    {
        Generator { state: seed as u64 }
    }

    /// The next policy: plan, age, years, amount and day of issue are drawn in this order.
    #[tactic(auto, unfolding(crate::specs::Generator::policy_drawn))]
    pub fn next_policy(&mut self) -> Drawn
        ensures state { self.new.state ≡ renewed (renewed (renewed (renewed (renewed self.old.state)))) }
        ensures policy { result ≡ policy_drawn self.old.state }
        ensures years { AreYears result.plan result.age result.years }
        ensures amount { result.amount ≤ 100000000 }
        ensures premium { result.premium ≤ 2000000 }
        ensures issued { (pos 10957 ≤ℤ result.issued) × (result.issued ≤ℤ pos 14606) }
    {
        let for_plan = self.draw(4);
        let for_age = self.draw(60);
        let for_years = self.draw(20);
        let for_amount = self.draw(1000);
        let for_day = self.draw(3650);
        policy_of(for_plan, for_age, for_years, for_amount, for_day)
    }

    // A number below the bound.
    fn draw(&mut self, bound: u64) -> u64
        requires { 0 < bound }
        ensures state { self.new.state ≡ renewed self.old.state }
        ensures value { result ≡ drawn_below bound self.new.state }
        ensures below { result < bound }
    {
        self.state = (self.state * 1_103_515_245 + 12_345) % 2_147_483_648;
        self.state / 256 % bound
    }
}

// The policy of five draws.
fn policy_of(for_plan: u64, for_age: u64, for_years: u64, for_amount: u64, for_day: u64) -> Drawn
    requires life { (for_age < 60) × (for_years < 20) }
    requires money { for_amount < 1000 }
    requires day { for_day < 3650 }
    ensures policy { result ≡ policy_of_draws for_plan for_age for_years for_amount for_day }
    ensures years { AreYears result.plan result.age result.years }
    ensures amount { result.amount ≤ 100000000 }
    ensures premium { result.premium ≤ 2000000 }
    ensures issued { (pos 10957 ≤ℤ result.issued) × (result.issued ≤ℤ pos 14606) }
{
    let plan = plan_of(for_plan);
    Drawn {
        plan,
        age: 20 + for_age as u8,
        years: years_of(plan, for_years as u8),
        amount: (for_amount + 1) * 100_000,
        premium: (for_amount + 1) * 2_000,
        issued: day_of(for_day),
    }
}

// The day of a draw.
fn day_of(draw: u64) -> i32
    requires { draw < 3650 }
    ensures { result ≡ pos (10957 + draw) }
{
    FIRST_ISSUE + draw as i32
}

// The plan of a draw.
fn plan_of(draw: u64) -> Plan
    ensures { result ≡ plan_drawn draw }
{
    match draw {
        0 => Plan::Term,
        1 => Plan::Whole,
        2 => Plan::Endowment,
        _ => Plan::Limited,
    }
}

// The years of a draw; whole life has none.
fn years_of(plan: Plan, draw: u8) -> u8
    requires { draw < 20 }
    ensures drawn { result ≡ years_drawn plan draw }
    ensures fit { (age : ℕ) → age ≤ 79 → AreYears plan age result }
{
    match plan {
        Plan::Whole => 0,
        Plan::Term | Plan::Endowment | Plan::Limited => 2 + draw,
    }
}
