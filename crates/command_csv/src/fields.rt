// The next field of a row, if it is what has to come.
ghost use Rattle.std.specs.Prelude.{◌≡◌, ◌≢◌, ℕ, ℤ, ◌≤◌, ◌<◌, ◌+◌, ◌∷◌, [], ⊤, take, decimal, ◌↔◌, IsTrue, IfSome, IfNone};
ghost use Rattle.command_csv.specs.Names.{fields_of, IsId, IsCommandDay, IsAmount, IsReinstatement, IsIssueAge, AreYears, APosition, day_text, cents_text, plan_word, APlan};
ghost use Rattle.command_csv.specs.declared.kind.Kind.{Kind as AKind};
ghost use Rattle.command_csv.specs.inside.Forms.{KindMayStandBehind, kind_spelling};
ghost use Rattle.command_csv.specs.inside.Words.{AreWorkers, IsClerk, IsPosition, at_text};

use crate::kind::{Kind, kind_of};
use csv::ByteRecord;
use life_dates::parse_day;
use money_core::{parse_cents, parse_number};
use policy_types::{
    At, END_AGE, LAST_ISSUE_AGE, MOST_CENTS, MOST_COMMANDS, MOST_REINSTATEMENT_CENTS, Plan,
    are_years,
};

/// The lanes are numbered from 1 to this.
pub const LAST_LANE: u8 = 8;
/// The most valuations that a script may ask for.
const MOST_VALUATIONS: u32 = 16;
/// The most workers among which a valuation may be split.
const MOST_WORKERS: u64 = 64;

/// A row that is read field by field.
#[derive(Drop)]
pub struct LineFields<'a> {
    pub row: &'a ByteRecord,
    /// How many fields were asked for, which is also the number of the last of them.
    pub asked: u32,
}

impl<'a> LineFields<'a> {
    ghost use Rattle.command_csv.specs.inside.Cursor.{left_of, Took, Missed};

    pub fn new(row: &'a ByteRecord) -> LineFields<'a>
        ensures all { left_of result ≡ fields_of row.now }
        ensures none { result.asked ≡ 0 }
    {
        LineFields { row, asked: 0 }
    }

    /// The next field, if there is one more.
    pub fn next_field(&mut self) -> Option<&'a [u8]>
        requires few { self.old.asked < 16 }
        ensures some { IfSome result (λ text. left_of self.old ≡ text.now ∷ left_of self.new) }
        ensures none { IfNone result (left_of self.old ≡ []) }
        ensures counted { self.new.asked ≡ self.old.asked + 1 }
    {
        let field = self.row.get(self.asked as usize);
        self.asked += 1;
        field
    }

    /// The number of the line's lane.
    pub fn clerk(&mut self) -> Option<u8>
        requires few { self.old.asked < 16 }
        ensures some { IfSome result (λ clerk. Took (IsClerk clerk) (decimal clerk) self.old self.new) }
        ensures none { IfNone result (Missed IsClerk decimal self.old self.new) }
    {
        let clerk = parse_number(self.next_field()?, LAST_LANE as u64)?;
        if clerk == 0 { None } else { Some(clerk as u8) }
    }

    /// The kind of a line that comes after so many valuations.
    pub fn kind(&mut self, valuations: u32) -> Option<Kind>
        requires few { self.old.asked < 16 }
        ensures some { IfSome result (λ kind. Took (KindMayStandBehind valuations kind) (kind_spelling kind) self.old self.new) }
        ensures none { IfNone result (Missed (KindMayStandBehind valuations) kind_spelling self.old self.new) }
    {
        let kind = kind_of(self.next_field()?)?;
        if may_follow(valuations, kind) {
            Some(kind)
        } else {
            None
        }
    }

    /// A policy's number.
    pub fn id(&mut self) -> Option<u32>
        requires few { self.old.asked < 16 }
        ensures some { IfSome result (λ id. Took (IsId id) (decimal id) self.old self.new) }
        ensures none { IfNone result (Missed IsId decimal self.old self.new) }
    {
        let id = parse_number(self.next_field()?, u32::MAX as u64)?;
        if id == 0 { None } else { Some(id as u32) }
    }

    /// A day, in days since 1970-01-01.
    pub fn day(&mut self) -> Option<i32>
        requires few { self.old.asked < 16 }
        ensures some { IfSome result (λ day. Took (IsCommandDay day) (day_text day) self.old self.new) }
        ensures none { IfNone result (Missed IsCommandDay day_text self.old self.new) }
    {
        parse_day(self.next_field()?)
    }

    pub fn plan(&mut self) -> Option<Plan>
        requires few { self.old.asked < 16 }
        ensures some { IfSome result (λ plan. Took ⊤ (plan_word plan) self.old self.new) }
        ensures none { IfNone result (Missed (λ (plan : APlan). ⊤) plan_word self.old self.new) }
    {
        plan_of(self.next_field()?)
    }

    /// An age at issue, in years.
    pub fn age(&mut self) -> Option<u8>
        requires few { self.old.asked < 16 }
        ensures some { IfSome result (λ age. Took (IsIssueAge age) (decimal age) self.old self.new) }
        ensures none { IfNone result (Missed IsIssueAge decimal self.old self.new) }
    {
        let age = parse_number(self.next_field()?, LAST_ISSUE_AGE as u64)?;
        Some(age as u8)
    }

    /// The years of a plan that is issued at this age.
    pub fn years(&mut self, plan: Plan, age: u8) -> Option<u8>
        requires few { self.old.asked < 16 }
        requires age_in { IsIssueAge age }
        ensures some { IfSome result (λ years. Took (AreYears plan age years) (decimal years) self.old self.new) }
        ensures none { IfNone result (Missed (AreYears plan age) decimal self.old self.new) }
    {
        let years = parse_number(self.next_field()?, END_AGE as u64)? as u8;
        if are_years(plan, age, years) {
            Some(years)
        } else {
            None
        }
    }

    /// An amount of insurance, a premium or a payment, in cents.
    pub fn amount(&mut self) -> Option<u64>
        requires few { self.old.asked < 16 }
        ensures some { IfSome result (λ cents. Took (IsAmount cents) (cents_text cents) self.old self.new) }
        ensures none { IfNone result (Missed IsAmount cents_text self.old self.new) }
    {
        parse_cents(self.next_field()?, MOST_CENTS)
    }

    /// A payment to reinstate, in cents.
    pub fn reinstatement(&mut self) -> Option<u64>
        requires few { self.old.asked < 16 }
        ensures some { IfSome result (λ cents. Took (IsReinstatement cents) (cents_text cents) self.old self.new) }
        ensures none { IfNone result (Missed IsReinstatement cents_text self.old self.new) }
    {
        parse_cents(self.next_field()?, MOST_REINSTATEMENT_CENTS)
    }

    /// The position of a valuation.
    pub fn position(&mut self) -> Option<At>
        requires few { self.old.asked < 16 }
        ensures some { IfSome result (λ at. Took (IsPosition at) (at_text at) self.old self.new) }
        ensures none { IfNone result (Missed IsPosition at_text self.old self.new) }
    {
        position_of(self.next_field()?)
    }

    /// The number of workers of a valuation.
    pub fn workers(&mut self) -> Option<u8>
        requires few { self.old.asked < 16 }
        ensures some { IfSome result (λ workers. Took (AreWorkers workers) (decimal workers) self.old self.new) }
        ensures none { IfNone result (Missed AreWorkers decimal self.old self.new) }
    {
        let workers = parse_number(self.next_field()?, MOST_WORKERS)?;
        if workers == 0 {
            None
        } else {
            Some(workers as u8)
        }
    }

    /// The end of the row.
    pub fn end(&mut self) -> Option<()>
        requires few { self.old.asked < 16 }
        ensures some { IfSome result (λ _. left_of self.old ≡ []) }
        ensures none { IfNone result (left_of self.old ≢ []) }
        ensures counted { self.new.asked ≡ self.old.asked + 1 }
    {
        match self.next_field() {
            Some(_) => None,
            None => Some(()),
        }
    }
}

fn plan_of(word: &[u8]) -> Option<Plan>
    ensures some { IfSome result (λ plan. word.now ≡ plan_word plan) }
    ensures none { IfNone result ((plan : APlan) → word.now ≢ plan_word plan) }
{
    match word {
        b"term" => Some(Plan::Term),
        b"whole" => Some(Plan::Whole),
        b"endowment" => Some(Plan::Endowment),
        b"limited" => Some(Plan::Limited),
        _ => None,
    }
}

// Whether a line of the kind may stand after so many valuations.
fn may_follow(valuations: u32, kind: Kind) -> bool
    ensures { IsTrue result ↔ KindMayStandBehind valuations kind }
{
    match kind {
        Kind::Value => valuations < MOST_VALUATIONS,
        _ => true,
    }
}

fn position_of(word: &[u8]) -> Option<At>
    ensures some { IfSome result (λ at. IsPosition at × (word.now ≡ at_text at)) }
    ensures none { IfNone result ((at : APosition) → IsPosition at → word.now ≢ at_text at) }
{
    match word {
        b"now" => Some(At::Now),
        _ => {
            let count = parse_number(word, u64::from(MOST_COMMANDS))?;
            Some(At::Position(count as u32))
        }
    }
}
