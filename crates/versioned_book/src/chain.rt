// The newest version of a key is stored by itself, so that a key with one version needs no memory besides its entry.

/// The newest version of a key, and where its older ones are.
#[derive(Drop)]
pub struct Chain<V: Copy> {
    // The index of its past among the book's pasts, if it has one. If the past at this index is another key's, it has
    // none.
    pub(crate) past: u32,
    pub(crate) position: u32,
    pub(crate) value: V,
}
