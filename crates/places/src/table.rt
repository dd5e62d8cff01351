// The first entries of a table.
ghost use Rattle.std.specs.Prelude.{◌≤◌};
ghost use Rattle.places.specs.Key.{key_count};

use crate::key::Layout;

#[derive(Clone, Copy)]
pub(crate) struct Table<'a> {
    pub words: &'a [u32],
    pub layout: Layout,
    pub len: usize,
    ghost inside: { len ≤ key_count words.now layout },
    ghost most: { len ≤ 2097152 },
}
