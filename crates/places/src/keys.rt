// The keys of a run of words, from one on.
ghost use Rattle.std.specs.Prelude.{◌≡◌, ◌+◌, ◌<◌};
ghost use Rattle.places.specs.Key.{part_of, key_count};
ghost use Rattle.places.specs.Keys.{keys_of};

use crate::key::{Key, Layout, key_at};

#[derive(Clone, Copy)]
pub(crate) struct Keys<'a> {
    pub words: &'a [u32],
    pub layout: Layout,
    pub base: usize,
}

impl<'a> Keys<'a> {
    #[tactic(auto, using(crate::proofs::KeyReturns::key_cases))]
    pub(crate) fn at(self, i: usize) -> Key
        requires { self.base + i < key_count self.words.now self.layout }
        ensures { part_of result ≡ keys_of self.entry i }
    {
        key_at(self.words, self.layout, self.base + i)
    }
}
