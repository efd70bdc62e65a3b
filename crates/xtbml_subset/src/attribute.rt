ghost use Rattle.std.specs.Prelude.{◌≡◌};
ghost use Rattle.std.specs.Option.{option_map, option_copied};
ghost use Rattle.xtbml_subset.specs.Texts.{value_of};
ghost use Rattle.xtbml_subset.specs.inside.Reading.{closed_at, quoted_at, attribute_at, attributes_at};

use crate::class::Class;
use crate::text::{after_byte, after_spaces, name, skip, split};

#[tactic(auto, unfolding(crate::specs::inside::Reading::closed_at))]
fn closed(bytes: &[u8], quote: u8, class: Class) -> Option<(&[u8], &[u8])>
    ensures { option_map (λ x. (x.0.now, x.1.now)) result ≡ closed_at quote class bytes.now }
{
    let (value, rest) = split(bytes, class);
    let rest = after_byte(rest, quote)?;
    Some((value, rest))
}

#[tactic(auto, unfolding(crate::specs::inside::Reading::quoted_at))]
fn quoted(bytes: &[u8]) -> Option<(&[u8], &[u8])>
    ensures { option_map (λ x. (x.0.now, x.1.now)) result ≡ quoted_at bytes.now }
{
    match bytes {
        [34, rest @ ..] => closed(rest, 34, Class::DoubleQuoted),
        [39, rest @ ..] => closed(rest, 39, Class::SingleQuoted),
        _ => None,
    }
}

/// An attribute of a tag.
#[derive(Clone, Copy)]
pub struct Attribute<'a> {
    pub name: &'a [u8],
    pub value: &'a [u8],
}

/// The attribute at the start, and the bytes after it.
#[tactic(auto, unfolding(crate::specs::inside::Reading::attribute_at))]
pub fn next_attribute(bytes: &[u8]) -> Option<(Attribute<'_>, &[u8])>
    ensures { option_map (λ x. ((x.0.name.now, x.0.value.now), x.1.now)) result ≡ attribute_at bytes.now }
{
    let (name, rest) = name(after_spaces(bytes)?)?;
    let rest = after_byte(skip(rest, Class::White), 61)?;
    let (value, rest) = quoted(skip(rest, Class::White))?;
    Some((Attribute { name, value }, rest))
}

/// The bytes after the attributes at the start, as many as there are.
pub fn after_attributes(bytes: &[u8]) -> &[u8]
    ensures { result.now ≡ (attributes_at bytes.now).1 }
{
    let mut rest = bytes;
    while let Some((_, next)) = next_attribute(rest) {
        rest = next;
    }
    rest
}

/// The value of the first attribute of the name, of those at the start.
pub fn attribute_value<'a>(bytes: &'a [u8], name: &[u8]) -> Option<&'a [u8]>
    ensures { option_copied result ≡ value_of name.now (attributes_at bytes.now).0 }
{
    let mut rest = bytes;
    while let Some((attribute, next)) = next_attribute(rest) {
        let Attribute { name: found, value } = attribute;
        if found == name {
            return Some(value);
        }
        rest = next;
    }
    None
}
