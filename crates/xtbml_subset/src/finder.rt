ghost use Rattle.std.specs.Prelude.{◌≡◌, ◌≤◌, ◌<◌, ◌+◌, ◌^◌, [], ◌∷◌, length, MatchOption, IfSome};
ghost use Rattle.std.specs.Option.{option_copied};
ghost use Rattle.xtbml_subset.specs.inside.Elements.{is_wanted, is_hit, step_of, elements_at, depth_in};
ghost use Rattle.xtbml_subset.specs.inside.Tokens.{piece_of, tag_of};
ghost use Rattle.xtbml_subset.specs.inside.Views.{found_of, step_seen};

use crate::found::Element;
use crate::text::after_text;
use crate::token::{Tag, Token, next_token};

/// Where a piece leads in a search for elements.
#[derive(Clone, Copy)]
pub enum Seen<'a> {
    /// To a depth below the level that is searched.
    On(usize),
    /// To an element of this level that is searched for, and whether it has content.
    Wanted(Tag<'a>, bool),
    /// Past the end of this level.
    Closed,
}

fn is_wanted(name: &[u8], wanted: Option<&[u8]>) -> bool
    ensures { result ≡ is_wanted (option_copied wanted.entry) name.now }
{
    match wanted {
        None => true,
        Some(wanted) => name == wanted,
    }
}

fn is_hit(tag: &Tag<'_>, depth: usize, wanted: Option<&[u8]>) -> bool
    ensures { result ≡ is_hit depth (option_copied wanted.entry) (tag_of tag.now) }
{
    depth == 0 && is_wanted(tag.name, wanted)
}

pub fn look<'a>(token: Token<'a>, depth: usize, wanted: Option<&[u8]>) -> Seen<'a>
    requires { depth < 2 ^ 63 }
    ensures { step_seen result ≡ step_of depth (option_copied wanted.entry) (piece_of token.entry) }
{
    match token {
        Token::Byte(_) | Token::Comment | Token::Declaration => Seen::On(depth),
        Token::Start(tag) => {
            if is_hit(&tag, depth, wanted) {
                Seen::Wanted(tag, true)
            } else {
                Seen::On(depth + 1)
            }
        }
        Token::Whole(tag) => {
            if is_hit(&tag, depth, wanted) {
                Seen::Wanted(tag, false)
            } else {
                Seen::On(depth)
            }
        }
        Token::End(_) => if depth == 0 {
            Seen::Closed
        } else {
            Seen::On(depth - 1)
        },
    }
}

/// The first element that is searched for, in a level that is `depth` levels above the first byte.
pub fn next_element<'a>(bytes: &'a [u8], depth: usize, wanted: Option<&[u8]>) -> Option<Element<'a>>
    requires level { depth ≤ 1 }
    requires short { length bytes.now ≤ 4194304 }
    ensures shorter { IfSome result (λ e. length e.rest.now < length bytes.now) }
    ensures elements { MatchOption result
        (elements_at depth (option_copied wanted.entry) bytes.now ≡ [])
        (λ e. elements_at depth (option_copied wanted.entry) bytes.now
        ≡ found_of e ∷ elements_at (depth_in e.is_open) (option_copied wanted.entry) e.rest.now) }
{
    let mut rest = after_text(bytes);
    let mut below = depth;
    while let Some((token, after)) = next_token(rest) {
        match look(token, below, wanted) {
            Seen::On(depth) => below = depth,
            Seen::Wanted(tag, is_open) => {
                return Some(Element {
                    from: rest,
                    tag,
                    is_open,
                    rest: after,
                });
            }
            Seen::Closed => return None,
        }
        rest = after_text(after);
    }
    None
}
