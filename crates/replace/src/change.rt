// A leaf of a stored list that gives way.
use width::TREE_WORDS;

#[derive(Clone, Copy)]
pub(crate) struct Change<'a> {
    // The list: its bytes, its tree count and its tables.
    pub(crate) b: &'a [u8],
    pub(crate) trees: u32,
    pub(crate) parts: &'a [u32],
    pub(crate) symbols: &'a [u32],
    // The leaf's tree number, and the list words of the new one.
    pub(crate) number: u32,
    pub(crate) leaf: &'a [u32; TREE_WORDS],
}
