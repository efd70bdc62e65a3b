ghost use Rattle.std.specs.Prelude.{◌≤◌, length};

use crate::token::Token;

/// A piece that the reader goes past.
#[derive(Clone, Copy)]
pub struct Passing<'a> {
    pub token: Token<'a>,
    /// How many elements are open before it.
    pub depth: usize,
    /// From the piece to the end of the file.
    pub from: &'a [u8],
    /// The bytes after it.
    pub after: &'a [u8],
    ghost small: { length after.now ≤ 4194304 },
}
