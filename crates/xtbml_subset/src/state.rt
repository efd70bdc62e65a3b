ghost use Rattle.std.specs.Prelude.{◌≤◌};

/// What may stand outside of all elements.
#[derive(Clone, Copy)]
pub enum Phase {
    /// At the start, with nothing before but white space.
    Opening,
    /// Between the start and the root.
    Prolog,
    /// After the root's start.
    Epilog,
}

/// The greatest depth of elements.
pub const DEEPEST: usize = 64;

/// The names of the open elements, as the file spells them.
#[derive(Drop)]
pub struct Nesting<'a> {
    pub phase: Phase,
    pub names: [&'a [u8]; DEEPEST],
    pub depth: usize,
    ghost in_range: { depth ≤ 64 },
}
