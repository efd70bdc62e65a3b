ghost use Rattle.std.specs.Prelude.{◌≤◌, length};

use crate::token::Tag;

/// An element of a document.
#[derive(Clone, Copy)]
pub struct Element<'a> {
    /// From its `<` to the end of the file.
    pub from: &'a [u8],
    pub tag: Tag<'a>,
    /// Whether the tag is followed by content and an end tag.
    pub is_open: bool,
    /// The bytes after the tag.
    pub rest: &'a [u8],
    ghost small: { length rest.now ≤ 4194304 },
}
