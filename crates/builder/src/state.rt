// A builder, its restore points, and whether a builder agrees with the run that it is lent.
ghost use Rattle.std.specs.Prelude.{◌≡◌, ◌&&◌, ◌≤◌, ◌<◌, leb, ltb};
ghost use Rattle.format.specs.Builder.{sub_at, open_fit, disagrees};
ghost use Rattle.format.specs.WordList.{list_count};
ghost use Rattle.builder.specs.State.{numbers, seen};

use crate::sort::is_subtree;
use tree::refusal::Refusal;
use width::TREE_WORDS;

pub(crate) const MOST_TREES: u32 = 1048576;

// How many subtrees may be open at once, the root apart.
pub const MOST_OPEN: usize = 255;

#[derive(Clone, Copy)]
pub struct Builder {
    pub count: u32,
    pub depth: usize,
    // The numbers of the open trees, the last opened last; entries from `depth` on are not looked at.
    pub opened: [u32; 256],
}

// A moment to come back to: so many trees, so many of them open.
#[derive(Clone, Copy, PartialEq, Eq, Debug)]
pub struct Point {
    pub trees: u32,
    pub opened: u32,
}

#[derive(Clone, Copy)]
pub struct Stepped {
    pub verdict: Result<(), Refusal>,
    pub builder: Builder,
}

// Whether m can be an open tree under one of number `top`.
fn is_open_under(list: &[u32], m: u32, top: u32) -> bool
    requires { top ≤ list_count list.now }
    ensures { result ≡ (leb 1 m && ltb m top && sub_at list.now m) }
{
    1 <= m && m < top && is_subtree(list, m as usize)
}

impl Builder {
    // Whether the open trees are rising numbers of subtrees, from 1 to below the count.
    #[tactic(auto, using(crate::proofs::StateReturns::fit_cases))]
    fn open_fit(&self, list: &[u32]) -> bool
        requires { (self.now.count ≤ list_count list.now) × (self.now.depth ≤ 255) }
        ensures { result ≡ open_fit list.now self.now.count (numbers self.now.opened self.now.depth) }
    {
        let mut top = self.count;
        for d in (0..self.depth).rev() {
            let m = self.opened[d];
            if !is_open_under(list, m, top) {
                return false;
            }
            top = m;
        }
        true
    }

    #[tactic(auto, using(crate::proofs::StateReturns::disagree_cases))]
    pub(crate) fn disagrees(&self, list: &[u32]) -> bool
        ensures { result ≡ disagrees list.now (seen self.now) }
    {
        self.count == 0
            || MOST_TREES < self.count
            || list.len() / TREE_WORDS < self.count as usize
            || MOST_OPEN < self.depth
            || !is_subtree(list, 0)
            || !self.open_fit(list)
    }
}
