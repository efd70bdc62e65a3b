// A writer of lines of output.
ghost use Rattle.std.specs.Prelude.{◌≡◌, ◌≤◌, ◌++◌, [], ◌∷◌, OnErr, OnOk, decimal};
ghost use Rattle.life_dates.specs.Calendar.{IsTermDay};
ghost use Rattle.life_dates.specs.DayText.{day_text};
ghost use Rattle.money_core.specs.CentsText.{signed_cents_text};
ghost use Rattle.text_lines.specs.Fields.{insurance_fields};
ghost use Rattle.text_lines.specs.Lines.{behind_commas};

use crate::bytes::Text;
use crate::line_end::LineEnd;
use crate::words::plan_word;
use itoa::Buffer;
use life_dates::print_day;
use memory_requests::extend;
use money_core::print_cents;
use policy_types::{NoMemory, Plan};
use std::alloc::Global;
use std::marker::Model;

/// Writes lines of output, field by field. Contracts see the bytes written so far.
///
/// A call that writes a field asks for memory as it goes, so after `NoMemory` a part of the line may have been
/// written.
#[derive(Drop)]
pub struct LineWriter {
    bytes: Vec<u8>,
}

impl Model for LineWriter {
    ghost use Rattle.std.specs.Prelude.{List, ℕ};

    ghost Value = { List ℕ };

    ghost view = { λ w. w.bytes.items };
}

impl LineWriter {
    pub fn new(alloc: Global) -> LineWriter
        ensures { result ≡ [] }
    {
        LineWriter {
            bytes: Vec::new(alloc),
        }
    }

    /// Writes the first field of a line, a word.
    pub fn first(&mut self, word: &str) -> Result<(), NoMemory>
        ensures { OnOk result (self.new ≡ self.old ++ word.now) }
    {
        self.add(word.as_bytes())
    }

    /// Writes a further field, a word.
    pub fn word(&mut self, word: &str) -> Result<(), NoMemory>
        ensures { OnOk result (self.new ≡ self.old ++ (44 ∷ word.now)) }
    {
        self.add(b",")?;
        self.add(word.as_bytes())
    }

    /// Writes a further field, a whole number.
    pub fn number(&mut self, number: u32) -> Result<(), NoMemory>
        ensures { OnOk result (self.new ≡ self.old ++ (44 ∷ decimal number)) }
    {
        self.add(b",")?;
        let mut buffer = Buffer::new();
        self.add(buffer.format(number).as_bytes())
    }

    /// Writes a further field, an amount in cents, such as `-400.00`.
    pub fn cents(&mut self, cents: i64) -> Result<(), NoMemory>
        ensures { OnOk result (self.new ≡ self.old ++ (44 ∷ signed_cents_text cents)) }
    {
        self.add(b",")?;
        let mut buffer = [0; 24];
        let length = print_cents(cents, &mut buffer);
        self.add(&buffer[..length])
    }

    /// Writes a further field, a day, such as `2020-01-01`.
    pub fn day(&mut self, day: i32) -> Result<(), NoMemory>
        requires { IsTermDay day }
        ensures { OnOk result (self.new ≡ self.old ++ (44 ∷ day_text day)) }
    {
        self.add(b",")?;
        self.add(&print_day(day))
    }

    /// Writes further fields, the terms of a policy's insurance, with its amounts in cents.
    pub fn insurance(
        &mut self,
        plan: Plan,
        age: u8,
        years: u8,
        amount: u64,
        premium: u64,
    ) -> Result<(), NoMemory>
        requires { (amount ≤ 10000000000) × (premium ≤ 10000000000) }
        ensures { OnOk result (self.new
            ≡ self.old ++ behind_commas (insurance_fields plan age years amount premium)) }
    {
        self.word(plan_word(plan))?;
        self.number(age as u32)?;
        self.number(years as u32)?;
        self.cents(amount as i64)?;
        self.cents(premium as i64)
    }

    /// Writes a whole line. After `NoMemory` none of it is written.
    pub fn line(&mut self, line: &LineEnd) -> Result<(), NoMemory>
        ensures written { OnOk result (self.new ≡ self.old ++ line.now) }
        ensures refused { OnErr result (self.new ≡ self.old) }
    {
        self.add(line.as_slice())
    }

    /// Ends the line.
    pub fn end(&mut self) -> Result<(), NoMemory>
        ensures { OnOk result (self.new ≡ self.old ++ 10 ∷ []) }
    {
        self.add(b"\n")
    }

    /// The lines.
    pub fn into_text(self) -> Text
        ensures { result ≡ self }
    {
        let LineWriter { bytes } = self;
        Text::new(bytes)
    }

    fn add(&mut self, bytes: &[u8]) -> Result<(), NoMemory>
        ensures written { OnOk result (self.new ≡ self.old ++ bytes.now) }
        ensures refused { OnErr result (self.new ≡ self.old) }
    {
        extend(&mut self.bytes, bytes)
    }
}
