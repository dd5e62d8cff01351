// The last span of the trees that a walk has left.
ghost use Rattle.std.specs.Prelude.{◌≡◌, Ok};
ghost use Rattle.format.specs.LastSpan.{end_span};
ghost use Rattle.tree.specs.Types.{span_list, tree_words_of};
ghost use Rattle.tree.specs.Tables.{mode_in};
ghost use Rattle.tree.specs.declared.types.TokenTree.TheVariants as trees;
ghost use Rattle.walk.specs.Walk.{walk_of};
ghost use Rattle.walk.specs.Last.{last_of, last_in, AtLast, Goes, LastFound};

use crate::buffer::Buffer;
use crate::sizes::own_buffer;
use crate::walk::{Walk, walk_in};
use tree::loose::{ReportedTree, closing_loose, opening_loose};
use tree::refusal::Refusal;
use tree::types::{Leaf, Span, TokenTree};

// A span, and whether a form of fewer bytes than those it was read from holds it.
#[derive(Clone, Copy)]
pub struct ReportedSpan {
    pub span: Span,
    pub loose: bool,
}

// What is last of a walk: found, or what is last of another one.
#[derive(Clone, Copy)]
enum Last {
    Found(Option<ReportedSpan>),
    Of(Walk),
}

#[tactic(auto, unfolding(tree::specs::Types::tree_words_of))]
fn leaf_span(leaf: Leaf) -> Span
    ensures { span_list result ≡ end_span (tree_words_of (trees.Leaf leaf)) }
{
    match leaf {
        Leaf::Punct(p) => p.span,
        Leaf::Ident(p) => p.span,
        Leaf::Literal(p) => p.span,
    }
}

// The last tree of a walk, and into it if it holds any.
#[tactic(auto, using(crate::proofs::LastReturns::last_cases))]
fn into(buffer: &Buffer, walk: Walk, last: ReportedTree) -> Last
    requires { AtLast buffer.now.bytes.now buffer.now.trees (mode_in buffer.now.tables) walk last }
    ensures { Goes buffer.now.bytes.now buffer.now.trees (mode_in buffer.now.tables) walk
        (Ok result) }
{
    match last.tree {
        TokenTree::Leaf(leaf) => Last::Found(Some(ReportedSpan {
            span: leaf_span(leaf),
            loose: opening_loose(last.loose),
        })),
        TokenTree::Subtree(subtree) => {
            if subtree.len.0 == 0 {
                let closing = subtree.closing;
                return Last::Found(Some(ReportedSpan {
                    span: closing,
                    loose: closing_loose(last.loose),
                }));
            }
            Last::Of(walk_in(buffer, walk, false).walk)
        }
    }
}

// Past one tree, or into it if it is the last.
#[tactic(auto, using(crate::proofs::LastReturns::last_cases))]
fn go_on(buffer: &Buffer, walk: Walk) -> Result<Last, Refusal>
    ensures { Goes buffer.now.bytes.now buffer.now.trees (mode_in buffer.now.tables) walk result }
{
    let step = walk_in(buffer, walk, true);
    let Some(tree) = step.answer? else {
        return Ok(Last::Found(None));
    };
    let then = step.walk;
    if 0 < then.left {
        return Ok(Last::Of(then));
    }
    Ok(into(buffer, walk, tree))
}

// Of a leaf its span, of a subtree that of its last descendant, of an empty one its closing span.
#[tactic(auto, using(crate::proofs::LastReturns::loop_cases))]
pub fn last_in(buffer: &Buffer, walk: Walk) -> Result<Option<ReportedSpan>, Refusal>
    ensures { last_of result ≡ last_in buffer.now.bytes.now buffer.now.trees
        (mode_in buffer.now.tables) (walk_of walk) }
{
    let mut here = walk;
    loop {
        match go_on(buffer, here)? {
            Last::Found(found) => return Ok(found),
            Last::Of(then) => here = then,
        }
    }
}

// Over a part table whose last two are the root's, row 1 first.
pub fn last_span(
    b: &[u8],
    trees: u32,
    parts: &[u32],
    symbols: &[u32],
    walk: Walk,
) -> Result<Option<ReportedSpan>, Refusal>
    ensures { LastFound b.now trees parts.now symbols.now walk result }
{
    let buffer = own_buffer(b, trees, parts, symbols)?;
    last_in(&buffer, walk)
}
