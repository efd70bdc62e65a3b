ghost use Rattle.std.specs.Prelude.{◌≡◌, ◌↔◌, IsTrue, IfOk, MatchOption, All};
ghost use Rattle.basis_book.specs.Name.{IsName, IsNameByte};

use memory_requests::text_of;
use policy_types::NoMemory;
use std::alloc::Global;
use std::marker::Model;

/// The file name of a table.
#[derive(Drop)]
pub struct Name {
    text: String,
}

impl Model for Name {
    ghost use Rattle.std.specs.Prelude.{ℕ, List};
    ghost use Rattle.std.specs.String.{string_bytes};
    ghost use Rattle.basis_book.specs.Name.{IsName};

    ghost Value = { List ℕ };

    ghost view = { λ name. string_bytes name.text };

    ghost invariant = { λ name. IsName (string_bytes name.text) };
}

fn is_name_byte(byte: u8) -> bool
    ensures { IsTrue result ↔ IsNameByte byte }
{
    byte.is_ascii_alphanumeric() || matches!(byte, b'.' | b'_' | b'-')
}

fn are_name_bytes(bytes: &[u8]) -> bool
    ensures { IsTrue result ↔ All IsNameByte bytes.now }
{
    bytes.iter().all(|byte| is_name_byte(*byte))
}

fn is_name(bytes: &[u8]) -> bool
    ensures { IsTrue result ↔ IsName bytes.now }
{
    if bytes.is_empty() || bytes.len() > 64 {
        return false;
    }
    bytes[0].is_ascii_alphanumeric() && are_name_bytes(bytes)
}

impl Name {
    /// The name that the bytes spell, or `None` if they spell no name.
    pub fn of(alloc: Global, bytes: &[u8]) -> Result<Option<Name>, NoMemory>
        ensures { IfOk result (λ found.
            MatchOption found (IsName bytes.now → ⊥) (λ name. IsName bytes.now × (name ≡ bytes.now))) }
    {
        if !is_name(bytes) {
            return Ok(None);
        }
        let Ok(text) = str::from_utf8(bytes) else {
            unreachable!();
        };
        let text = text_of(alloc, text)?;
        Ok(Some(Name { text }))
    }

    pub fn text(&self) -> &str
        ensures text { result.now ≡ self.now }
        ensures name { IsName self.now }
    {
        self.text.as_str()
    }
}
