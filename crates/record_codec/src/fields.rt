// The fields of a record, and the command that has them.
ghost use Rattle.std.specs.Prelude.{◌≡◌};
ghost use Rattle.record_codec.specs.Spelling.{plan_byte, plan_of_byte};
ghost use Rattle.record_codec.specs.inside.Reading.{fields_of, short_fields, command_at};

use policy_types::{Command, Plan};

/// The fields in their order, each 0 where the command's kind has none.
#[derive(Clone, Copy)]
pub struct RecordFields {
    pub kind: u8,
    pub plan: u8,
    pub age: u8,
    pub years: u8,
    pub id: u32,
    pub day: i32,
    pub amount: u64,
    pub premium: u64,
}

pub fn fields_with(command: &Command) -> RecordFields
    ensures { result ≡ fields_of command.now }
{
    match *command {
        Command::Issue {
            id,
            day,
            plan,
            age,
            years,
            amount,
            premium,
        } => RecordFields {
            kind: 1,
            plan: byte_of_plan(plan),
            age,
            years,
            id,
            day,
            amount,
            premium,
        },
        Command::Premium { id, day, amount } => short(2, id, day, amount, 0),
        Command::Alter {
            id,
            day,
            amount,
            premium,
        } => short(3, id, day, amount, premium),
        Command::Lapse { id, day } => short(4, id, day, 0, 0),
        Command::Reinstate { id, day, amount } => short(5, id, day, amount, 0),
        Command::Claim { id, day } => short(6, id, day, 0, 0),
        Command::Settle { id, day, amount } => short(7, id, day, amount, 0),
        Command::Mature { id, day } => short(8, id, day, 0, 0),
        Command::Upgrade => short(9, 0, 0, 0, 0),
        Command::PaidUp { id, day, amount } => short(10, id, day, amount, 0),
    }
}

pub fn command_with(fields: RecordFields) -> Option<Command>
    ensures { result ≡ command_at fields }
{
    let RecordFields {
        kind,
        plan,
        age,
        years,
        id,
        day,
        amount,
        premium,
    } = fields;
    match kind {
        1 => Some(Command::Issue {
            id,
            day,
            plan: plan_in_byte(plan)?,
            age,
            years,
            amount,
            premium,
        }),
        2 => Some(Command::Premium { id, day, amount }),
        3 => Some(Command::Alter {
            id,
            day,
            amount,
            premium,
        }),
        4 => Some(Command::Lapse { id, day }),
        5 => Some(Command::Reinstate { id, day, amount }),
        6 => Some(Command::Claim { id, day }),
        7 => Some(Command::Settle { id, day, amount }),
        8 => Some(Command::Mature { id, day }),
        9 => Some(Command::Upgrade),
        10 => Some(Command::PaidUp { id, day, amount }),
        _ => None,
    }
}

fn short(kind: u8, id: u32, day: i32, amount: u64, premium: u64) -> RecordFields
    ensures { result ≡ short_fields kind id day amount premium }
{
    RecordFields {
        kind,
        plan: 0,
        age: 0,
        years: 0,
        id,
        day,
        amount,
        premium,
    }
}

/// The byte of a plan in a record and in a checkpoint.
pub fn byte_of_plan(plan: Plan) -> u8
    ensures { result ≡ plan_byte plan }
{
    match plan {
        Plan::Term => 1,
        Plan::Whole => 2,
        Plan::Endowment => 3,
        Plan::Limited => 4,
    }
}

/// The plan of a byte, and `None` where the byte is that of no plan.
pub fn plan_in_byte(byte: u8) -> Option<Plan>
    ensures { result ≡ plan_of_byte byte }
{
    match byte {
        1 => Some(Plan::Term),
        2 => Some(Plan::Whole),
        3 => Some(Plan::Endowment),
        4 => Some(Plan::Limited),
        _ => None,
    }
}
