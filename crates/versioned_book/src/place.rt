// Where a key is in a book, so that several calls for one key look it up once.

/// Where a key is in a book, or that it isn't there. It is right until a new key is set.
#[derive(Clone, Copy)]
pub struct KeyPlace {
    pub(crate) key: u32,
    pub(crate) index: Option<usize>,
}
