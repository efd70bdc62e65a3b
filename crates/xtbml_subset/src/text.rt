ghost use Rattle.std.specs.Prelude.{◌≡◌, ◌≤◌, ◌+◌, length};
ghost use Rattle.std.specs.Option.{option_map, option_copied};
ghost use Rattle.xtbml_subset.specs.Texts.{trimmed};
ghost use Rattle.xtbml_subset.specs.inside.Steps.{without_end};
ghost use Rattle.xtbml_subset.specs.inside.Reading.{byte_at, from_byte, spaces_at, name_at};
ghost use Rattle.xtbml_subset.specs.Classes.{front, after};
ghost use Rattle.xtbml_subset.specs.declared.class.Class.TheVariants.{Text};

use crate::class::{Class, is_in, starts_name};
use memchr::memchr;

/// The bytes of the class at the start, and the bytes after these.
pub fn split(bytes: &[u8], class: Class) -> (&[u8], &[u8])
    ensures front { result.0.now ≡ front class bytes.now }
    ensures after { result.1.now ≡ after class bytes.now }
    ensures length { length result.0.now + length result.1.now ≡ length bytes.now }
{
    let mut count = 0;
    while count < bytes.len() && is_in(class, bytes[count]) {
        count += 1;
    }
    bytes.split_at(count)
}

/// The bytes after those of the class at the start.
pub fn skip(bytes: &[u8], class: Class) -> &[u8]
    ensures after { result.now ≡ after class bytes.now }
    ensures shorter { length result.now ≤ length bytes.now }
{
    split(bytes, class).1
}

/// The bytes from the first one of this value on.
pub fn from_byte(bytes: &[u8], byte: u8) -> &[u8]
    ensures from { result.now ≡ from_byte byte bytes.now }
    ensures shorter { length result.now ≤ length bytes.now }
{
    match memchr(byte, bytes) {
        Some(count) => bytes.split_at(count).1,
        None => bytes.split_at(bytes.len()).1,
    }
}

/// The bytes after the text at the start.
pub fn after_text(bytes: &[u8]) -> &[u8]
    ensures after { result.now ≡ after Text bytes.now }
    ensures shorter { length result.now ≤ length bytes.now }
{
    match bytes {
        [60, ..] => bytes,
        _ => from_byte(bytes, 60),
    }
}

/// The bytes after the byte, if they begin with it.
pub fn after_byte(bytes: &[u8], byte: u8) -> Option<&[u8]>
    ensures { option_copied result ≡ byte_at byte bytes.now }
{
    match bytes {
        [first, rest @ ..] if *first == byte => Some(rest),
        _ => None,
    }
}

/// The bytes after white space, of which there is at least one byte.
#[tactic(auto, unfolding(crate::specs::inside::Reading::spaces_at))]
pub fn after_spaces(bytes: &[u8]) -> Option<&[u8]>
    ensures { option_copied result ≡ spaces_at bytes.now }
{
    match bytes {
        [first, rest @ ..] if is_in(Class::White, *first) => Some(skip(rest, Class::White)),
        _ => None,
    }
}

/// The name at the start, and the bytes after it.
#[tactic(auto, unfolding(crate::specs::inside::Reading::name_at))]
pub fn name(bytes: &[u8]) -> Option<(&[u8], &[u8])>
    ensures { option_map (λ x. (x.0.now, x.1.now)) result ≡ name_at bytes.now }
{
    match bytes {
        [first, ..] if starts_name(*first) => Some(split(bytes, Class::Name)),
        _ => None,
    }
}

/// The bytes without white space at their end.
fn without_end(bytes: &[u8]) -> &[u8]
    ensures kept { result.now ≡ without_end bytes.now }
    ensures shorter { length result.now ≤ length bytes.now }
{
    let mut rest = bytes;
    while let [front @ .., last] = rest {
        if !is_in(Class::White, *last) {
            break;
        }
        rest = front;
    }
    rest
}

/// The bytes without white space at both ends.
#[tactic(auto, unfolding(crate::specs::Texts::trimmed))]
pub fn trim(bytes: &[u8]) -> &[u8]
    ensures kept { result.now ≡ trimmed bytes.now }
    ensures shorter { length result.now ≤ length bytes.now }
{
    without_end(skip(bytes, Class::White))
}
