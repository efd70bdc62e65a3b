ghost use Rattle.std.specs.Prelude.{◌≡◌};
ghost use Rattle.std.specs.Option.{option_map, option_copied};
ghost use Rattle.xtbml_subset.specs.inside.Reading.{dashes_at, comment_end_at, comment_at, declaration_at, end_tag_at, tag_at, marked_at, piece_at};
ghost use Rattle.xtbml_subset.specs.inside.Tokens.{piece_of};

use crate::attribute::after_attributes;
use crate::class::Class;
use crate::text::{after_byte, after_spaces, from_byte, name, skip};

/// A tag's name, and the bytes after the name, with which its attributes begin.
#[derive(Clone, Copy)]
pub struct Tag<'a> {
    pub name: &'a [u8],
    pub attributes: &'a [u8],
}

/// A piece of a document.
#[derive(Clone, Copy)]
pub enum Token<'a> {
    /// A byte other than `<`.
    Byte(u8),
    Comment,
    Declaration,
    Start(Tag<'a>),
    /// The whole of an element that ends with `/>`.
    Whole(Tag<'a>),
    End(&'a [u8]),
}

fn after_dashes(bytes: &[u8]) -> Option<&[u8]>
    ensures { option_copied result ≡ dashes_at bytes.now }
{
    after_byte(after_byte(after_byte(bytes, 45)?, 45)?, 62)
}

fn after_comment(bytes: &[u8]) -> Option<&[u8]>
    ensures { option_copied result ≡ comment_end_at bytes.now }
{
    let mut rest = from_byte(bytes, 45);
    while let [_, next @ ..] = rest {
        if let Some(after) = after_dashes(rest) {
            return Some(after);
        }
        rest = from_byte(next, 45);
    }
    None
}

#[tactic(auto, unfolding(crate::specs::inside::Reading::comment_at))]
fn comment(bytes: &[u8]) -> Option<(Token<'_>, &[u8])>
    ensures { option_map (λ x. (piece_of x.0, x.1.now)) result ≡ comment_at bytes.now }
{
    let rest = after_byte(after_byte(bytes, 45)?, 45)?;
    Some((Token::Comment, after_comment(rest)?))
}

#[tactic(auto, unfolding(crate::specs::inside::Reading::declaration_at))]
fn declaration(bytes: &[u8]) -> Option<(Token<'_>, &[u8])>
    ensures { option_map (λ x. (piece_of x.0, x.1.now)) result ≡ declaration_at bytes.now }
{
    let rest = after_byte(after_byte(after_byte(bytes, 120)?, 109)?, 108)?;
    let rest = skip(after_spaces(rest)?, Class::Declared);
    Some((Token::Declaration, after_byte(after_byte(rest, 63)?, 62)?))
}

#[tactic(auto, unfolding(crate::specs::inside::Reading::end_tag_at))]
fn end_tag(bytes: &[u8]) -> Option<(Token<'_>, &[u8])>
    ensures { option_map (λ x. (piece_of x.0, x.1.now)) result ≡ end_tag_at bytes.now }
{
    let (name, rest) = name(bytes)?;
    let rest = after_byte(skip(rest, Class::White), 62)?;
    Some((Token::End(name), rest))
}

#[tactic(auto, unfolding(crate::specs::inside::Reading::tag_at, crate::specs::inside::Reading::attributes_from, crate::specs::inside::Reading::attribute_at, crate::specs::inside::Reading::spaces_at))]
fn start_tag(bytes: &[u8]) -> Option<(Token<'_>, &[u8])>
    ensures { option_map (λ x. (piece_of x.0, x.1.now)) result ≡ tag_at bytes.now }
{
    let (name, attributes) = name(bytes)?;
    let tag = Tag { name, attributes };
    match attributes {
        [62, rest @ ..] => return Some((Token::Start(tag), rest)),
        [47, 62, rest @ ..] => return Some((Token::Whole(tag), rest)),
        _ => {}
    }
    let rest = skip(after_attributes(attributes), Class::White);
    if let Some(rest) = after_byte(rest, 62) {
        return Some((Token::Start(tag), rest));
    }
    let rest = after_byte(after_byte(rest, 47)?, 62)?;
    Some((Token::Whole(tag), rest))
}

#[tactic(auto, unfolding(crate::specs::inside::Reading::marked_at))]
fn marked(bytes: &[u8]) -> Option<(Token<'_>, &[u8])>
    ensures { option_map (λ x. (piece_of x.0, x.1.now)) result ≡ marked_at bytes.now }
{
    match bytes {
        [] => None,
        [33, rest @ ..] => comment(rest),
        [63, rest @ ..] => declaration(rest),
        [47, rest @ ..] => end_tag(rest),
        [_, ..] => start_tag(bytes),
    }
}

/// The piece at the start, and the bytes after it.
#[tactic(auto, unfolding(crate::specs::inside::Reading::piece_at))]
pub fn next_token(bytes: &[u8]) -> Option<(Token<'_>, &[u8])>
    ensures { option_map (λ x. (piece_of x.0, x.1.now)) result ≡ piece_at bytes.now }
{
    match bytes {
        [] => None,
        [60, rest @ ..] => marked(rest),
        [byte, rest @ ..] => Some((Token::Byte(*byte), rest)),
    }
}
