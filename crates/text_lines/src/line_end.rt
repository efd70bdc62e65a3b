// A line that is written from its end to its start, so that the digits of a number are written where they stay.
ghost use Rattle.std.specs.Prelude.{◌≡◌, ◌+◌, ◌≤◌, ◌++◌, [], ◌∷◌, length, decimal};
ghost use Rattle.money_core.specs.CentsText.{cents_text};
ghost use Rattle.policy_types.specs.Words.{status_word as status_text};

use crate::words::status_word;
use itoa::write_digits;
use policy_types::Status;
use std::marker::Model;

/// The end of a line, of at most 256 bytes. Contracts see its bytes.
#[derive(Drop)]
pub struct LineEnd {
    bytes: [u8; 256],
    at: usize,
    ghost within: { at ≤ 256 },
}

impl Model for LineEnd {
    ghost use Rattle.std.specs.Prelude.{List, ℕ, drop};

    ghost Value = { List ℕ };

    ghost view = { λ l. drop l.at l.bytes };
}

impl LineEnd {
    pub fn new() -> LineEnd
        ensures { result ≡ [] }
    {
        LineEnd {
            bytes: [0; 256],
            at: 256,
        }
    }

    /// Begins another line, with the line feed.
    pub fn begin(&mut self)
        ensures { self.new ≡ 10 ∷ [] }
    {
        self.bytes[255] = b'\n';
        self.at = 255;
    }

    /// Bytes before those that stand.
    pub fn put(&mut self, bytes: &[u8])
        requires { length bytes.now + length self.old ≤ 256 }
        ensures { self.new ≡ bytes.now ++ self.old }
    {
        let end = self.at;
        let start = end - bytes.len();
        self.bytes[start..end].copy_from_slice(bytes);
        self.at = start;
    }

    /// A field behind its comma.
    pub fn field(&mut self, field: &[u8])
        requires { 1 + length field.now + length self.old ≤ 256 }
        ensures { self.new ≡ 44 ∷ (field.now ++ self.old) }
    {
        self.put(field);
        self.put(b",");
    }

    /// A field, a whole number.
    pub fn number(&mut self, number: u64)
        requires { 21 + length self.old ≤ 256 }
        ensures written { self.new ≡ 44 ∷ (decimal number ++ self.old) }
        ensures short { length self.new ≤ length self.old + 21 }
    {
        self.at = write_digits(number, &mut self.bytes, self.at);
        self.put(b",");
    }

    /// A field, an amount in cents, as `127.22`.
    pub fn cents(&mut self, cents: u64)
        requires { 24 + length self.old ≤ 256 }
        ensures written { self.new ≡ 44 ∷ (cents_text cents ++ self.old) }
        ensures short { length self.new ≤ length self.old + 24 }
    {
        let hundredths = (cents % 100) as u8;
        self.put(&[b'.', b'0' + hundredths / 10, b'0' + hundredths % 10]);
        self.number(cents / 100);
    }

    /// A field, the word of a status.
    #[tactic(auto, using(crate::proofs::WordLengths::short_status))]
    pub fn status(&mut self, status: Status)
        requires { 8 + length self.old ≤ 256 }
        ensures written { self.new ≡ 44 ∷ (status_text status ++ self.old) }
        ensures short { length self.new ≤ length self.old + 8 }
    {
        self.field(status_word(status).as_bytes());
    }

    /// The line.
    pub fn as_slice(&self) -> &[u8]
        ensures { result.now ≡ self.now }
    {
        &self.bytes[self.at..]
    }
}
