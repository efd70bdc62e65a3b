// Policies as their commands left them.
ghost use Rattle.std.specs.Prelude.{◌≡◌, ◌+◌, ◌++◌, ◌≤◌, [], ◌∷◌, ℕ, length, IfOk, OnErr, OnOk, decimal};
ghost use Rattle.money_core.specs.CentsText.{cents_text};
ghost use Rattle.statements.specs.Names.{All, IsCommandDay, IsValid, plan_word, ACommand, day_text, insurance_fields, behind_commas};
ghost use Rattle.statements.specs.Statements.{policy_text, statement_text};

use crate::entries::write_entry;
use crate::last_day::LastDay;
use memory_requests::extend;
use policy_types::{Command, NoMemory, Plan, Policy};
use std::alloc::Global;
use std::marker::Model;
use text_lines::{LineEnd, LineWriter, Text};

/// The lines of a policy's accepted commands, each with its number among all accepted commands, and then the line of
/// the policy as they left it.
pub fn statement(
    alloc: Global,
    entries: &[(u32, Command)],
    policy: &Policy,
) -> Result<Text, NoMemory>
    requires entries { All (λ (entry : ℕ × ACommand). IsValid entry.1) entries.now }
    requires issued { IsCommandDay policy.now.issued }
    ensures { IfOk result (λ text. text ≡ statement_text entries.now policy.now) }
{
    let mut lines = LineWriter::new(alloc);
    for (position, command) in entries {
        write_entry(&mut lines, *position, command)?;
    }
    let mut policies = PolicyLines::behind(lines.into_text());
    policies.add(policy)?;
    Ok(policies.into_text())
}

/// Writes lines of policies. Contracts see the bytes written so far. A million of them are written one after the
/// other: each is put together in an array of its own, and then added at the end in one piece.
#[derive(Drop)]
pub struct PolicyLines {
    bytes: Vec<u8>,
    line: LineEnd,
    issued: LastDay,
}

impl Model for PolicyLines {
    ghost use Rattle.std.specs.Prelude.{List, ℕ};

    ghost Value = { List ℕ };

    ghost view = { λ p. p.bytes.items };
}

impl PolicyLines {
    pub fn new(alloc: Global) -> PolicyLines
        ensures { result ≡ [] }
    {
        PolicyLines::behind(Text::new(Vec::new(alloc)))
    }

    /// Lines that are added to a text.
    pub fn behind(text: Text) -> PolicyLines
        ensures { result ≡ text }
    {
        PolicyLines {
            bytes: text.into_vec(),
            line: LineEnd::new(),
            issued: LastDay::new(),
        }
    }

    /// Adds the line of a policy. After `NoMemory` the lines are those that were there.
    pub fn add(&mut self, policy: &Policy) -> Result<(), NoMemory>
        requires { IsCommandDay policy.now.issued }
        ensures written { OnOk result (self.new ≡ self.old ++ policy_text policy.now) }
        ensures refused { OnErr result (self.new ≡ self.old) }
    {
        let issued = self.issued.text_of(policy.issued);
        write_policy(&mut self.line, policy, &issued);
        extend(&mut self.bytes, self.line.as_slice())
    }

    /// The lines.
    pub fn into_text(self) -> Text
        ensures { result ≡ self }
    {
        let PolicyLines { bytes, .. } = self;
        Text::new(bytes)
    }
}

// The line of a policy, which was issued on a day of this text.
#[tactic(auto, unfolding(crate::specs::Statements::policy_text))]
fn write_policy(line: &mut LineEnd, policy: &Policy, issued: &[u8; 10])
    requires { issued.now ≡ day_text policy.now.issued }
    ensures { line.new ≡ policy_text policy.now }
{
    line.begin();
    write_progress(line, policy, issued);
    write_insurance(line, policy);
    line.status(policy.status);
    line.number(policy.id as u64);
    line.put(b"policy");
}

// The day of issue, the number of premiums paid, and what is still to be paid out.
fn write_progress(line: &mut LineEnd, policy: &Policy, issued: &[u8; 10])
    requires issued { issued.now ≡ day_text policy.now.issued }
    requires room { 56 + length line.old ≤ 256 }
    ensures written { line.new ≡ behind_commas
        (day_text policy.now.issued ∷ decimal policy.now.paid ∷ cents_text policy.now.outstanding ∷ []) ++ line.old }
    ensures short { length line.new ≤ length line.old + 56 }
{
    line.cents(policy.outstanding);
    line.number(policy.paid as u64);
    line.field(issued);
}

// The terms of a policy's insurance.
fn write_insurance(line: &mut LineEnd, policy: &Policy)
    requires room { 108 + length line.old ≤ 256 }
    ensures written { line.new ≡ behind_commas
        (insurance_fields policy.now.plan policy.now.age policy.now.years policy.now.amount policy.now.premium) ++ line.old }
    ensures short { length line.new ≤ length line.old + 108 }
{
    line.cents(policy.premium);
    line.cents(policy.amount);
    line.number(policy.years as u64);
    line.number(policy.age as u64);
    write_plan(line, policy.plan);
}

fn write_plan(line: &mut LineEnd, plan: Plan)
    requires room { 10 + length line.old ≤ 256 }
    ensures written { line.new ≡ 44 ∷ (plan_word plan ++ line.old) }
    ensures short { length line.new ≤ length line.old + 10 }
{
    match plan {
        Plan::Term => line.field(b"term"),
        Plan::Whole => line.field(b"whole"),
        Plan::Endowment => line.field(b"endowment"),
        Plan::Limited => line.field(b"limited"),
    }
}
