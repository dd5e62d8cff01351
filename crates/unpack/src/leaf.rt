// Whether a tree of a checked buffer is a leaf. Subtrees that end before it are passed by their byte counts.
ghost use Rattle.std.specs.Prelude.{◌≡◌, not, ◌&&◌, ◌+◌, ◌<◌, ltb};
ghost use Rattle.format.specs.Verdict.{passed};
ghost use Rattle.format.specs.Reader.{got};
ghost use Rattle.format.specs.Tree.{is_subtree};
ghost use Rattle.format.specs.Plain.{sub};
ghost use Rattle.format.specs.Check.{check, listing};
ghost use Rattle.format.specs.Buffer.{raw_shape, buffer_check};
ghost use Rattle.format.specs.Replace.{is_leaf};
ghost use Rattle.tree.specs.Raw.{raw_of};
ghost use Rattle.unpack.specs.Leaf.{raw_in, raw_at, into, past, toward, is_flat};

use decode::judge::tree_in;
use tree::limits::{Limits, own_limits};
use tree::raw::{Descendants, RawTree, place};
use width::PART_WORDS;

// The tree that a search has come to, and its place.
#[derive(Clone, Copy)]
struct Reached {
    number: u32,
    at: usize,
}

// The next tree: tree m ends at `next`.
fn into(m: u32, next: usize) -> Reached
    requires { m + 1 < 4294967296 }
    ensures { result ≡ into m next }
{
    Reached {
        number: m + 1,
        at: next,
    }
}

// Past subtree m and all that it holds, unless that passes tree `number`; else into it.
#[tactic(auto, using(crate::proofs::LeafReturns::past_cases))]
fn past(m: u32, number: u32, next: usize, children: usize, count: Descendants) -> Reached
    requires m_lt_number { m < number }
    requires children_bound { next + children < 18446744073709551616 }
    ensures { result ≡ past m number next children count.0 }
{
    if count.0 < number - m {
        return Reached {
            number: m + 1 + count.0,
            at: next + children,
        };
    }
    into(m, next)
}

// From tree m towards tree `number` behind it.
#[tactic(auto, using(crate::proofs::LeafReturns::toward_cases))]
fn toward(m: u32, number: u32, next: usize, children: usize, tree: RawTree) -> Reached
    requires m_lt_number { m < number }
    requires children_bound { next + children < 18446744073709551616 }
    ensures { result ≡ toward m number (got (raw_of tree) next children) }
{
    match tree {
        RawTree::Punct(_) => into(m, next),
        RawTree::Ident(_) => into(m, next),
        RawTree::Literal(_) => into(m, next),
        RawTree::Subtree(p) => past(m, number, next, children, p.len),
    }
}

// The same by its place.
#[tactic(auto, using(crate::proofs::LeafReturns::onward_cases))]
fn onward(b: &[u8], limits: Limits, m: u32, at: usize, number: u32) -> Reached
    requires { m < number }
    ensures { result ≡ toward m number (raw_at b.now limits m at) }
{
    let Ok(here) = tree_in(b, limits, m, at) else {
        // Not in a buffer that the check has passed.
        return into(m, 0);
    };
    toward(m, number, here.next, place(here.children.0), here.tree)
}

#[tactic(auto, using(crate::proofs::LeafReturns::flat_cases))]
fn is_flat(tree: RawTree) -> bool
    ensures { result ≡ not (is_subtree (raw_of tree)) }
{
    match tree {
        RawTree::Punct(_) => true,
        RawTree::Ident(_) => true,
        RawTree::Literal(_) => true,
        RawTree::Subtree(_) => false,
    }
}

// Whether what is read at a place is no subtree.
#[tactic(auto, using(crate::proofs::LeafReturns::onward_cases))]
fn is_flat_at(b: &[u8], limits: Limits, n: u32, at: usize) -> bool
    ensures { result ≡ is_flat (raw_at b.now limits n at) }
{
    let Ok(here) = tree_in(b, limits, n, at) else {
        // Not in a buffer that the check has passed.
        return true;
    };
    is_flat(here.tree)
}

// By how far indices reach.
#[tactic(auto, using(crate::proofs::LeafReturns::leaf_cases))]
fn is_leaf_in(b: &[u8], trees: u32, limits: Limits, number: u32) -> bool
    requires { check raw_shape (raw_in b.now trees limits) ≡ passed }
    ensures { result ≡ (ltb number trees
        && not (sub raw_shape (listing raw_shape (raw_in b.now trees limits)) number)) }
{
    if trees <= number {
        return false;
    }
    let mut m: u32 = 0;
    let mut at: usize = 0;
    while m < number {
        let then = onward(b, limits, m, at, number);
        m = then.number;
        at = then.at;
    }
    is_flat_at(b, limits, number, at)
}

#[tactic(auto, using(crate::proofs::LeafReturns::is_leaf_cases))]
pub fn is_leaf(b: &[u8], trees: u32, parts: &[u32], symbols: &[u32], number: u32) -> bool
    requires { buffer_check b.now trees parts.now symbols.now ≡ passed }
    ensures { result ≡ is_leaf b.now trees parts.now symbols.now number }
{
    let limits = own_limits(parts.len() / PART_WORDS, symbols.len());
    is_leaf_in(b, trees, limits, number)
}
