// The rows of a policy.
ghost use Rattle.std.specs.Prelude.{◌≡◌, ◌++◌, ◌∷◌, [], ◌≤◌, pos, ◌≤ℤ◌, OnOk, decimal};
ghost use Rattle.std.specs.List.{flat_map};
ghost use Rattle.life_dates.specs.DayText.{day_text};
ghost use Rattle.text_lines.specs.Lines.{behind_commas};
ghost use Rattle.load_maker.specs.inside.Rows.{drawn_issue, drawn_premium, policy_rows, script_row_text};

use crate::generator::Drawn;
use itoa::Buffer;
use policy_types::NoMemory;
use text_lines::LineWriter;

// Adds the row that issues a policy, and the row of its first premium.
pub fn write_rows(lines: &mut LineWriter, lane: u8, id: u32, policy: &Drawn) -> Result<(), NoMemory>
    requires amount { policy.now.amount ≤ 100000000 }
    requires premium { policy.now.premium ≤ 2000000 }
    requires issued { (pos 10957 ≤ℤ policy.now.issued) × (policy.now.issued ≤ℤ pos 14606) }
    ensures { OnOk result (lines.new ≡ lines.old ++ flat_map script_row_text (policy_rows lane id policy.now)) }
{
    write_issue(lines, lane, id, policy)?;
    write_premium(lines, lane, id, policy)
}

// Adds the row that issues a policy.
fn write_issue(lines: &mut LineWriter, lane: u8, id: u32, policy: &Drawn) -> Result<(), NoMemory>
    requires amount { policy.now.amount ≤ 100000000 }
    requires premium { policy.now.premium ≤ 2000000 }
    requires issued { (pos 10957 ≤ℤ policy.now.issued) × (policy.now.issued ≤ℤ pos 14606) }
    ensures { OnOk result (lines.new ≡ lines.old ++ script_row_text (record { clerk = lane; line = drawn_issue id policy.now })) }
{
    write_start(lines, lane, "issue", id, policy.issued)?;
    lines.insurance(
        policy.plan,
        policy.age,
        policy.years,
        policy.amount,
        policy.premium,
    )?;
    lines.end()
}

// Adds the row of a policy's first premium.
fn write_premium(lines: &mut LineWriter, lane: u8, id: u32, policy: &Drawn) -> Result<(), NoMemory>
    requires premium { policy.now.premium ≤ 2000000 }
    requires issued { (pos 10957 ≤ℤ policy.now.issued) × (policy.now.issued ≤ℤ pos 14606) }
    ensures { OnOk result (lines.new ≡ lines.old ++ script_row_text (record { clerk = lane; line = drawn_premium id policy.now })) }
{
    write_start(lines, lane, "premium", id, policy.issued)?;
    lines.cents(policy.premium as i64)?;
    lines.end()
}

// Begins a row with its lane, its kind, the policy's number and the day.
fn write_start(
    lines: &mut LineWriter,
    lane: u8,
    kind: &str,
    id: u32,
    day: i32,
) -> Result<(), NoMemory>
    requires { (pos 10957 ≤ℤ day) × (day ≤ℤ pos 14606) }
    ensures { OnOk result (lines.new
        ≡ lines.old ++ decimal lane ++ behind_commas (kind.now ∷ decimal id ∷ day_text day ∷ [])) }
{
    let mut buffer = Buffer::new();
    lines.first(buffer.format(lane))?;
    lines.word(kind)?;
    lines.number(id)?;
    lines.day(day)
}
