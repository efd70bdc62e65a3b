// The sums over a list of policies.
ghost use Rattle.std.specs.Prelude.{◌≡◌, ◌≤◌, ◌<◌, ◌≤ℤ◌, ◌+◌, ◌-◌, ◌++◌, if◌then◌else◌, ℕ, ℤ, [], List, IfOk};
ghost use Rattle.cash_projection.specs.Names.{Dated, most_commands, APolicy, IsBelow, table_along, shape_of};
ghost use Rattle.cash_projection.specs.Prospects.{IsSmall, Prospect as AProspect, due};
ghost use Rattle.cash_projection.specs.Policies.{IsCashOf, IsOfIssue, prospect_of};
ghost use Rattle.cash_projection.specs.inside.Ahead.{charged};
ghost use Rattle.cash_projection.specs.inside.Paths.{ArePaths, IsSurvivalPath, IsTableOfRow};
ghost use Rattle.cash_projection.specs.inside.Tallies.{Fits, HasAdded, TakesOneMore, HasCounted, HasCountedBy, IsIdle, IsSized, IsTallyOf};

use crate::column::YearSums;
use crate::path::{PathKey, SurvivalPath};
use crate::paths::Paths;
use crate::years::{Year, Years};
use basis_book::Basis;
use life_dates::completed;
use memory_requests::with_room;
use plan_benefits::shape_along;
use policy_types::{NoMemory, Policy, Status};
use policy_value::is_insured;
use rate_table::{RateTable, Shape};
use select_rates::AnyTable;
use std::alloc::Global;

/// The sums of what policies pay and are paid, in each of `years` years from the current one, and the number of these
/// policies. The sums of a list are the sums of its parts.
#[derive(Clone, Copy)]
pub struct Tally {
    pub years: u8,
    pub policies: u32,
    /// The policies without a value.
    pub unvalued: u32,
    pub premium: YearSums,
    pub death: YearSums,
    pub maturity: YearSums,
}

impl Tally {
    /// The tally of no policies.
    pub fn new(years: u8) -> Tally
        ensures { (basis : List Dated) (on : ℤ) → IsTallyOf basis on years [] result }
    {
        let premium = YearSums::new();
        let death = YearSums::new();
        let maturity = YearSums::new();
        Tally {
            years,
            policies: 0,
            unvalued: 0,
            premium,
            death,
            maturity,
        }
    }

    /// Adds a policy on a day, in days since 1970-01-01.
    pub fn add(&mut self, policy: &Policy, basis: &Basis, on: i32, paths: &mut Paths)
        requires sound { IsOfIssue policy.now }
        requires room { TakesOneMore self.old }
        requires right { ArePaths basis.now paths.old }
        ensures taken { HasCounted basis.now on policy.now self.old self.new }
        ensures right { ArePaths basis.now paths.new }
    {
        if !is_insured(policy, on) {
            self.add_nothing(0);
            return;
        }
        match basis.pick(policy.issued) {
            Some((row, table, _)) => self.add_by(policy, basis, row, table, on, paths),
            None => self.add_nothing(1),
        }
    }

    /// Adds a policy that neither pays nor is paid. `words` is 1 if it has a word that says why, else 0.
    fn add_nothing(&mut self, words: u32)
        requires room { TakesOneMore self.old }
        requires words { words ≤ 1 }
        ensures { (p : AProspect) → IsIdle p → p.words ≡ words → HasAdded self.old.years p self.old self.new }
    {
        self.policies += 1;
        self.unvalued += words;
    }

    /// Adds an insured policy by the table of a row of the basis.
    fn add_by(
        &mut self,
        policy: &Policy,
        basis: &Basis,
        row: u16,
        table: &AnyTable,
        on: i32,
        paths: &mut Paths,
    )
        requires sound { IsOfIssue policy.now }
        requires issued { policy.now.issued ≤ℤ on }
        requires room { TakesOneMore self.old }
        requires row { IsTableOfRow basis.now row table.now }
        requires right { ArePaths basis.now paths.old }
        ensures taken { HasCountedBy policy.now table.now on
            (shape_of policy.now.plan policy.now.age policy.now.years table.now) self.old self.new }
        ensures right { ArePaths basis.now paths.new }
    {
        match shape_along(policy.plan, policy.age, policy.years, table) {
            Ok(shape) => {
                let t = completed(policy.issued, on).min(shape.n);
                self.add_ahead(policy, basis, row, table, &shape, t, paths)
            }
            Err(_) => self.add_nothing(1),
        }
    }

    /// Adds an insured policy with a shape, in its year `t`.
    fn add_ahead(
        &mut self,
        policy: &Policy,
        basis: &Basis,
        row: u16,
        table: &AnyTable,
        shape: &Shape,
        t: u8,
        paths: &mut Paths,
    )
        requires sound { IsOfIssue policy.now }
        requires room { TakesOneMore self.old }
        requires row { IsTableOfRow basis.now row table.now }
        requires above { IsBelow table.now shape.now.age → ⊥ }
        requires fits { Fits (table_along table.now shape.now.age) shape.now }
        requires year { t ≤ shape.now.n }
        requires right { ArePaths basis.now paths.old }
        ensures added { HasAdded self.old.years
            (prospect_of policy.now (table_along table.now shape.now.age) shape.now t) self.old self.new }
        ensures small { IsSmall (prospect_of policy.now (table_along table.now shape.now.age) shape.now t) }
        ensures right { ArePaths basis.now paths.new }
    {
        let Some(rates) = table.along(shape.age) else {
            unreachable!()
        };
        if t == shape.n {
            self.add_nothing(0);
            return;
        }
        let key = PathKey {
            row,
            issue: issue_of(table, shape.age),
            age: shape.age + t,
        };
        let place = paths.place_of(basis, key, rates);
        self.add_path(policy, rates, paths.at(place), shape, t);
    }

    /// Adds what a policy pays and is paid along the path of its age.
    fn add_path(
        &mut self,
        policy: &Policy,
        rates: &RateTable,
        path: &SurvivalPath,
        shape: &Shape,
        t: u8,
    )
        requires sound { IsOfIssue policy.now }
        requires room { TakesOneMore self.old }
        requires fits { Fits rates.now shape.now }
        requires year { t < shape.now.n }
        requires path { IsSurvivalPath rates.now (shape.now.age + t) path.now }
        ensures { HasAdded self.old.years (prospect_of policy.now rates.now shape.now t) self.old self.new }
    {
        let years = self.years;
        let from = policy.paid.saturating_sub(t);
        let to = shape.h.saturating_sub(t);
        let premiums = within(from, to, years);
        let cents = charged(policy);
        self.premium.add(&path.alive, premiums.0, premiums.1, cents);
        let cover = shape.n - t;
        let deaths = within(0, cover, years);
        self.death
            .add(&path.dying, deaths.0, deaths.1, policy.amount);
        let first = maturity_from(shape.matures, cover);
        let maturities = within(first, cover, years);
        self.maturity.add(
            path.alive_at_end(),
            maturities.0,
            maturities.1,
            policy.amount,
        );
        self.policies += 1;
    }

    /// Adds the sums of policies that come after these.
    pub fn join(&mut self, other: &Tally)
        requires years { (self.old.years ≡ other.now.years) × (self.old.years ≤ 131) }
        requires few { self.old.policies + other.now.policies ≤ most_commands }
        requires ours { IsSized self.old }
        requires theirs { IsSized other.now }
        ensures { (basis : List Dated) (on : ℤ) (ps qs : List APolicy) → IsTallyOf basis on self.old.years ps self.old
            → IsTallyOf basis on self.old.years qs other.now → IsTallyOf basis on self.old.years (ps ++ qs) self.new }
    {
        let years = self.years as usize;
        self.policies += other.policies;
        self.unvalued += other.unvalued;
        self.premium.join(&other.premium, years);
        self.death.join(&other.death, years);
        self.maturity.join(&other.maturity, years);
    }

    /// The bounds of each year, in cents.
    pub fn cash(&self, alloc: Global) -> Result<Years, NoMemory>
        requires { IsSized self.now }
        ensures { (basis : List Dated) (on : ℤ) (ps : List APolicy) → IsTallyOf basis on self.now.years ps self.now
            → IfOk result (λ years. IsCashOf basis on ps self.now.years self.now.unvalued years) }
    {
        let count = self.years as usize;
        let mut years = with_room(alloc, count)?;
        for j in 0..count {
            let premium = self.premium.pair(j);
            let death = self.death.pair(j);
            let maturity = self.maturity.pair(j);
            years.push_reserved(Year {
                premium,
                death,
                maturity,
            });
        }
        Ok(Years::new(years))
    }
}

/// The age at issue by which paths are kept: 0 if the rates are the same for all.
fn issue_of(table: &AnyTable, age: u8) -> u8
    ensures { table_along table.now result ≡ table_along table.now age }
{
    match table {
        AnyTable::Aggregate(_) => 0,
        AnyTable::Select(_) => age,
    }
}

/// The premium that is charged: none for a paid-up policy.
fn charged(policy: &Policy) -> u64
    ensures { result ≡ charged policy.now.status policy.now.premium }
{
    if policy.status == Status::InForce {
        policy.premium
    } else {
        0
    }
}

/// The year in which a survivor is paid, or the one after the last if none is.
fn maturity_from(matures: bool, cover: u8) -> u8
    requires { 1 ≤ cover }
    ensures { result ≡ (if matures then cover - 1 else cover) }
{
    if matures { cover - 1 } else { cover }
}

/// Those of the first `years` years that are from one on and before another, as the first and the one after the last.
fn within(from: u8, to: u8, years: u8) -> (usize, usize)
    ensures order { result.0 ≤ result.1 }
    ensures last { (result.1 ≤ years) × (result.1 ≤ to) }
    ensures same { (cents j : ℕ) → j < years → due result.0 result.1 cents j ≡ due from to cents j }
{
    let to = to.min(years);
    (from.min(to) as usize, to as usize)
}
