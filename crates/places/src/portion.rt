// Some keys of a run that are looked for in a table at a time.
ghost use Rattle.std.specs.Prelude.{◌≡◌, ◌+◌};

use crate::index::Index;
use crate::table::Table;

// The keys of the run from number `first` on: the run begins at key `from`.
#[derive(Clone, Copy)]
pub(crate) struct Portion<'a> {
    pub table: Table<'a>,
    pub from: usize,
    pub first: usize,
    pub index: Index<'a>,
    ghost begin: { index.keys.base ≡ from + first },
}
