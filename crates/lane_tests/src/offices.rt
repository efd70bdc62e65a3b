// The basis and the policies of the offices that are valued and whose lanes are run.
ghost use Rattle.std.specs.Prelude.{◌≡◌, IfOk};
ghost use Rattle.basis_book.specs.Dated.{AreBounded};

use basis_book::{Basis, BasisRows, LONGEST_FILE, read_basis};
use indexmap::IndexMap;
use outside_io::Disk;
use policy_types::{Command, Plan};
use rate_table::RateTable;
use select_rates::AnyTable;
use shared_office::{Office, OfficeCalls, OfficePass};
use std::alloc::Global;
use std::sync::Wait;
use std::test::Fail;
use watcher_set::Watching;

/// 2021-01-01, a year after the policies are issued.
pub(crate) const ONE_YEAR: i32 = 18_628;

/// An endowment of 1000.00 for three years at age 0, with an annual premium of 400.00, issued on 2020-01-01.
pub(crate) fn issue(id: u32) -> Command {
    Command::Issue {
        id,
        day: 18_262,
        plan: Plan::Endowment,
        age: 0,
        years: 3,
        amount: 100_000,
        premium: 40_000,
    }
}

const FLAT: &[u8] = b"1900-01-01,q.xml,0";

fn flat_rows(alloc: Global) -> Result<BasisRows, Fail>
    ensures { IfOk result AreBounded }
{
    if FLAT.len() > LONGEST_FILE {
        return Err("a short file".into());
    }
    match read_basis(alloc, FLAT) {
        Ok(rows) => Ok(rows),
        Err(_) => Err("rows".into()),
    }
}

fn flat_table(alloc: Global) -> Result<AnyTable, Fail> {
    let rates = [
        100_000_000,
        200_000_000,
        250_000_000,
        500_000_000,
        1_000_000_000u32,
    ];
    match RateTable::new(0, rates.to_vec(alloc)?) {
        Ok(table) => Ok(AnyTable::Aggregate(table)),
        Err(_) => Err("a table".into()),
    }
}

/// The rates 0.1, 0.2, 0.25, 0.5 and 1 of the ages 0 to 4, in units of 10^-9, at an interest of 0.
pub(crate) fn flat_basis(alloc: Global) -> Result<Basis, Fail> {
    let mut tables = IndexMap::new(alloc);
    tables.insert(String::from_str(alloc, "q.xml")?, flat_table(alloc)?)?;
    match Basis::of(flat_rows(alloc)?, tables) {
        Ok(basis) => Ok(basis),
        Err(_) => Err("tables".into()),
    }
}

/// Posts a command if it is valid and a turn is left.
pub(crate) fn post<D: Disk, W: Watching, R: Wait>(
    rt: &R,
    office: &Office<D, W>,
    pass: &mut OfficePass<D, W>,
    command: &Command,
)
    requires { pass.old.turnstile ≡ office.now }
    ensures { (pass.new.turnstile ≡ pass.old.turnstile) × (pass.new.shares ≡ pass.old.shares) }
{
    if pass.left() == 0 || !command.is_valid() {
        return;
    }
    office.post(rt, pass, command);
}

/// Issues `count` policies.
pub(crate) fn issue_all<D: Disk, W: Watching, R: Wait>(
    rt: &R,
    office: &Office<D, W>,
    pass: &mut OfficePass<D, W>,
    policies: u32,
)
    requires { pass.old.turnstile ≡ office.now }
    ensures { (pass.new.turnstile ≡ pass.old.turnstile) × (pass.new.shares ≡ pass.old.shares) }
{
    for id in 1..=policies {
        post(rt, office, pass, &issue(id));
    }
}
