// The two tables that trees below the root look into.
ghost use Rattle.std.specs.Prelude.{◌≡◌, ◌*◌, ◌≤◌, length};
ghost use Rattle.format.specs.Width.{part_size};
ghost use Rattle.places.specs.declared.key.Layout.TheVariants.{Parts, Symbols};

use crate::key::Layout;
use crate::table::Table;

// Of the parts those below the limit.
#[derive(Clone, Copy)]
pub(crate) struct Tables<'a> {
    pub limit: usize,
    pub parts: &'a [u32],
    pub symbols: &'a [u32],
    ghost below: { part_size * limit ≤ length parts.now },
    ghost most_parts: { limit ≤ 2097152 },
    ghost most_symbols: { length symbols.now ≤ 1048576 },
}

impl<'a> Tables<'a> {
    #[tactic(auto, unfolding(crate::specs::Key::key_count))]
    pub(crate) fn part_table(self) -> Table<'a>
        ensures words { result.words.now ≡ self.entry.parts.now }
        ensures layout { result.layout ≡ Parts }
        ensures len { result.len ≡ self.entry.limit }
    {
        Table {
            words: self.parts,
            layout: Layout::Parts,
            len: self.limit,
        }
    }

    #[tactic(auto, unfolding(crate::specs::Key::key_count))]
    pub(crate) fn symbol_table(self) -> Table<'a>
        ensures words { result.words.now ≡ self.entry.symbols.now }
        ensures layout { result.layout ≡ Symbols }
        ensures len { result.len ≡ length self.entry.symbols.now }
    {
        Table {
            words: self.symbols,
            layout: Layout::Symbols,
            len: self.symbols.len(),
        }
    }
}
