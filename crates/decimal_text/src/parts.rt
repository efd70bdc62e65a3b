ghost use Rattle.std.specs.Prelude.{◌<◌};

/// A decimal, split into the parts that its text has.
#[derive(Clone, Copy)]
pub struct Parts<'a> {
    pub whole: &'a [u8],
    pub fraction: &'a [u8],
    pub raised: usize,
    pub lowered: usize,
    ghost raised_below: { raised < 1000 },
    ghost lowered_below: { lowered < 1000 },
}
