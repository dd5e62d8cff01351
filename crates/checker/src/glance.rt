// One tree as the check sees it: its sort, where it ends, and a subtree's two counts.
ghost use Rattle.std.specs.Prelude.{◌≡◌, Ok};
ghost use Rattle.format.specs.Reader.{got};
ghost use Rattle.format.specs.Buffer.{raw_shape};
ghost use Rattle.format.proofs.Sight.{sight};
ghost use Rattle.tree.specs.Raw.{raw_of};
ghost use Rattle.checker.specs.Glance.{glance, glance_at, next_of};

use decode::judge::tree_in;
use pack::row::Row;
use tree::limits::Limits;
use tree::raw::{ChildrenBytes, Descendants, RawAt, RawTree};

// What is known beside the bytes: the stated tree count, and how far indices reach.
#[derive(Clone, Copy)]
pub struct Sizes {
    pub trees: u32,
    pub limits: Limits,
}

// What a subtree says of the trees and the bytes below it, and where its own bytes end.
#[derive(Clone, Copy)]
pub struct Opening {
    pub count: Descendants,
    pub kids: ChildrenBytes,
    pub next: usize,
}

#[derive(Clone, Copy)]
pub enum Glance {
    // The place behind the leaf.
    Leaf(usize),
    Subtree(Opening),
}

impl Glance {
    // The place behind the tree's own bytes.
    pub(crate) fn next(self) -> usize
        ensures { result ≡ next_of self }
    {
        match self {
            Glance::Leaf(next) => next,
            Glance::Subtree(o) => o.next,
        }
    }
}

#[tactic(auto, unfolding(crate::specs::Glance::glance, format::proofs::Sight::sight, tree::specs::Raw::raw_of))]
fn glance_of(here: RawAt) -> Glance
    ensures { Ok result ≡ glance (sight raw_shape (got (raw_of here.tree) here.next here.children.0)) }
{
    match here.tree {
        RawTree::Subtree(p) => Glance::Subtree(Opening {
            count: p.len,
            kids: here.children,
            next: here.next,
        }),
        _ => Glance::Leaf(here.next),
    }
}

// Tree n at a place.
#[tactic(auto, using(decode::proofs::ReadUse::reply_bad), unfolding(crate::specs::Glance::glance, format::proofs::Sight::sight))]
pub(crate) fn glance_at(b: &[u8], sizes: Sizes, n: u32, at: usize) -> Result<Glance, Row>
    ensures { result ≡ glance_at b.now sizes n at }
{
    let here = tree_in(b, sizes.limits, n, at)?;
    Ok(glance_of(here))
}
