// The body of a record: where each field stands. A number has its high byte first, and the day is in two's complement.
//
// | at | bytes | field                              |
// |----|-------|------------------------------------|
// |  0 |     1 | kind of the command, 1 to 10       |
// |  1 |     1 | plan, 1 to 4                       |
// |  2 |     1 | age at issue                       |
// |  3 |     1 | years of the plan                  |
// |  4 |     4 | number of the policy               |
// |  8 |     4 | day, counted from 1970-01-01       |
// | 12 |     8 | amount or payment, in cents        |
// | 20 |     8 | premium, in cents                  |
// | 28 |    36 | zeros                              |
//
// A field that the kind doesn't have is 0.
ghost use Rattle.std.specs.Prelude.{◌≡◌};
ghost use Rattle.record_codec.specs.declared.fields.RecordFields.{RecordFields};
ghost use Rattle.record_codec.specs.inside.Reading.{AreInRange, bytes_of};

use crate::fields::RecordFields;
use crate::numbers::{eight_at, four_at};

const KIND: usize = 0;

const PLAN: usize = 1;

const AGE: usize = 2;

const YEARS: usize = 3;

const ID: usize = 4;

const DAY: usize = 8;

const AMOUNT: usize = 12;

const PREMIUM: usize = 20;

const ZEROS: usize = 28;

pub fn body_with(fields: RecordFields) -> [u8; 64]
    ensures { result ≡ bytes_of fields }
{
    let mut body = [0; 64];
    body[KIND] = fields.kind;
    body[PLAN] = fields.plan;
    body[AGE] = fields.age;
    body[YEARS] = fields.years;
    body[ID..DAY].copy_from_slice(&fields.id.to_be_bytes());
    body[DAY..AMOUNT].copy_from_slice(&fields.day.to_be_bytes());
    body[AMOUNT..PREMIUM].copy_from_slice(&fields.amount.to_be_bytes());
    body[PREMIUM..ZEROS].copy_from_slice(&fields.premium.to_be_bytes());
    body
}

// The fields that stand in a body. Its zeros aren't tested.
pub fn fields_at(body: &[u8; 64]) -> RecordFields
    ensures { (fields : RecordFields) → AreInRange fields → body.now ≡ bytes_of fields
        → result ≡ fields }
{
    RecordFields {
        kind: body[KIND],
        plan: body[PLAN],
        age: body[AGE],
        years: body[YEARS],
        id: u32::from_be_bytes(four_at(body, ID)),
        day: i32::from_be_bytes(four_at(body, DAY)),
        amount: u64::from_be_bytes(eight_at(body, AMOUNT)),
        premium: u64::from_be_bytes(eight_at(body, PREMIUM)),
    }
}
