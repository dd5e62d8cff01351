// The open subtrees around a tree, by a stack of their ends, the outermost first.
ghost use Rattle.std.specs.Prelude.{◌≤◌};
ghost use Rattle.tree.specs.Raw.{raw_of};
ghost use Rattle.lister.specs.Ends.{Closed, Opens, Pushed};

use tree::raw::RawTree;

// As many as may nest.
pub const MAX_DEPTH: usize = 256;

// How many of them reach to tree n or past it.
pub(crate) fn still_open(ends: &[u32; MAX_DEPTH], depth: usize, n: u32) -> usize
    requires { depth ≤ 256 }
    ensures { Closed ends.now depth n result }
{
    for i in (0..depth).rev() {
        if n < ends[i] {
            return i + 1;
        }
    }
    0
}

// A subtree is opened behind tree n.
pub(crate) fn open_tree(ends: &mut [u32; MAX_DEPTH], depth: usize, n: u32, tree: RawTree) -> usize
    requires { Opens ends.old depth n (raw_of tree) }
    ensures { Pushed ends.old depth n (raw_of tree) result ends.new }
{
    let RawTree::Subtree(p) = tree else {
        return depth;
    };
    ends[depth] = n + 1 + p.len.0;
    depth + 1
}
