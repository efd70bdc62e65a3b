ghost use Rattle.std.specs.Prelude.{◌≡◌, ◌≤◌, [], ◌∷◌, length, MatchOption, IfSome, ◌-◌, ◌<◌, ◌^◌};
ghost use Rattle.std.specs.Option.{option_copied};
ghost use Rattle.xtbml_subset.specs.inside.Elements.{children_at, siblings_at, text_at};
ghost use Rattle.xtbml_subset.specs.Texts.{value_of};
ghost use Rattle.xtbml_subset.specs.inside.Views.{found_of};

use crate::attribute::attribute_value;
use crate::class::Class;
use crate::finder::next_element;
use crate::found::Element;
use crate::text::{after_byte, split};

impl<'a> Element<'a> {
    /// The first element of this name in the content.
    pub fn first_child(&self, name: &[u8]) -> Option<Element<'a>>
        ensures { MatchOption result
            (children_at name.now (found_of self.now) ≡ [])
            (λ e. children_at name.now (found_of self.now) ≡ found_of e ∷ siblings_at name.now (found_of e)) }
    {
        if self.is_open {
            next_element(self.rest, 0, Some(name))
        } else {
            None
        }
    }

    /// The next element of this name after this one, with the same parent.
    pub fn next_sibling(&self, name: &[u8]) -> Option<Element<'a>>
        ensures shorter { IfSome result (λ e. length e.rest.now < length self.now.rest.now) }
        ensures siblings { MatchOption result
            (siblings_at name.now (found_of self.now) ≡ [])
            (λ e. siblings_at name.now (found_of self.now) ≡ found_of e ∷ siblings_at name.now (found_of e)) }
    {
        next_element(self.rest, if self.is_open { 1 } else { 0 }, Some(name))
    }

    /// The value of the first attribute of this name.
    pub fn attribute(&self, name: &[u8]) -> Option<&'a [u8]>
        ensures { option_copied result ≡ value_of name.now (found_of self.now).tag.attributes }
    {
        attribute_value(self.tag.attributes, name)
    }

    /// The content, if it is text alone.
    #[tactic(auto, unfolding(crate::specs::inside::Elements::text_at))]
    pub fn text(&self) -> Option<&'a [u8]>
        ensures text { option_copied result ≡ text_at (found_of self.now) }
        ensures short { IfSome result (λ text. length text.now ≤ 4194304) }
    {
        if !self.is_open {
            return Some(b"");
        }
        let (text, rest) = split(self.rest, Class::Text);
        after_byte(after_byte(rest, 60)?, 47)?;
        Some(text)
    }

    /// The place of its `<`, given the length of the file.
    pub fn place(&self, total: u32) -> u32
        ensures { result ≡ total - length (found_of self.now).from }
    {
        (total as usize).saturating_sub(self.from.len()) as u32
    }
}
