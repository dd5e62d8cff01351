// The sort of a tree of the lent run.
ghost use Rattle.std.specs.Prelude.{◌≡◌, ◌<◌};
ghost use Rattle.format.specs.Builder.{sub_at};
ghost use Rattle.format.specs.WordList.{list_count};

use width::TREE_WORDS;
use width::sort::SUBTREE;

// Whether tree n of the run is a subtree.
#[tactic(auto, using(crate::proofs::StateReturns::sort_of))]
pub(crate) fn is_subtree(list: &[u32], n: usize) -> bool
    requires { n < list_count list.now }
    ensures { result ≡ sub_at list.now n }
{
    list[TREE_WORDS * n] == SUBTREE
}
