// The balances of the accounts.
ghost use Rattle.std.specs.Prelude.{◌≡◌, ◌++◌, IfOk, OnOk};
ghost use Rattle.money_ledgers.specs.Balances.{balances};
ghost use Rattle.statements.specs.Statements.{balance_text};
ghost use Rattle.statements.specs.inside.Balances.{account_line, count_text};

use money_ledgers::Ledger;
use policy_types::NoMemory;
use std::alloc::Global;
use text_lines::{LineWriter, Text};

/// The lines of the four balances, and of the number of accepted commands.
pub fn balance(alloc: Global, ledger: &Ledger, count: u32) -> Result<Text, NoMemory>
    ensures { IfOk result (λ text. text ≡ balance_text (balances ledger.now) count) }
{
    let mut lines = LineWriter::new(alloc);
    write_account(&mut lines, "cash", ledger.cash)?;
    write_account(&mut lines, "premiums", ledger.premiums)?;
    write_account(&mut lines, "incurred", ledger.incurred)?;
    write_account(&mut lines, "payable", ledger.payable)?;
    write_count(&mut lines, count)?;
    Ok(lines.into_text())
}

// Adds the line of an account.
#[tactic(auto, unfolding(crate::specs::inside::Balances::account_line))]
fn write_account(lines: &mut LineWriter, account: &str, balance: i64) -> Result<(), NoMemory>
    ensures { OnOk result (lines.new ≡ lines.old ++ account_line account.now balance) }
{
    lines.first("balance")?;
    lines.word(account)?;
    lines.cents(balance)?;
    lines.end()
}

// Adds the line of the number of accepted commands.
#[tactic(auto, unfolding(crate::specs::inside::Balances::count_text))]
fn write_count(lines: &mut LineWriter, count: u32) -> Result<(), NoMemory>
    ensures { OnOk result (lines.new ≡ lines.old ++ count_text count) }
{
    lines.first("count")?;
    lines.number(count)?;
    lines.end()
}
