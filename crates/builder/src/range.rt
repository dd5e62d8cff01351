// Row 2 of what a step is given, and the words of it.
ghost use Rattle.std.specs.Prelude.{◌≡◌};
ghost use Rattle.format.specs.Root.{range_fits};
ghost use Rattle.format.specs.Builder.{leaf_fits, subtree_words};
ghost use Rattle.tree.specs.Words.{token_fits};
ghost use Rattle.tree.specs.Types.{words_of};
ghost use Rattle.tree.specs.declared.types.TokenTree.TheVariants as trees;
ghost use Rattle.tree.specs.declared.types.Leaf.TheVariants as leaves;
ghost use Rattle.builder.specs.Given.{pushed};

use pack::span::range_fits;
use tree::fields::is_scalar;
use tree::kinds::lit_kind_word;
use tree::types::{Leaf, Literal, Punct, Span, TokenTree};
use tree::words::{tree_from_words, tree_words, words_of};
use width::TREE_WORDS;
use width::sort::SUBTREE;

pub(crate) fn span_fits(span: Span) -> bool
    ensures { result ≡ range_fits (words_of span) }
{
    range_fits(span.start, span.len)
}

#[tactic(auto, using(crate::proofs::RangeReturns::leaf_cases))]
fn punct_fits(p: Punct) -> bool
    ensures { result ≡ token_fits (trees.Leaf (leaves.Punct p)) }
{
    span_fits(p.span) && is_scalar(p.char)
}

#[tactic(auto, using(crate::proofs::RangeReturns::leaf_cases))]
fn literal_fits(p: Literal) -> bool
    ensures { result ≡ token_fits (trees.Leaf (leaves.Literal p)) }
{
    // A raw count above 255 passes the two low bytes.
    span_fits(p.span) && lit_kind_word(p.kind) <= 65535 && p.suffix_len <= 255
}

#[tactic(auto, using(crate::proofs::RangeReturns::leaf_cases))]
pub(crate) fn leaf_fits(leaf: Leaf) -> bool
    ensures { result ≡ token_fits (trees.Leaf leaf) }
{
    match leaf {
        Leaf::Punct(p) => punct_fits(p),
        Leaf::Ident(p) => span_fits(p.span),
        Leaf::Literal(p) => literal_fits(p),
    }
}

// Whether words say a leaf.
pub fn words_fit(words: &[u32; TREE_WORDS]) -> bool
    ensures { result ≡ leaf_fits words.now }
{
    match tree_from_words(words) {
        Err(_) => false,
        Ok(tree) => match tree {
            TokenTree::Leaf(_) => true,
            TokenTree::Subtree(_) => false,
        },
    }
}

// The words of a leaf; those of no tree where it is out of range, since it may have no place in words.
#[tactic(auto, using(crate::proofs::RangeReturns::words_cases))]
pub fn leaf_words(leaf: Leaf) -> [u32; TREE_WORDS]
    ensures { result ≡ pushed leaf }
{
    if !leaf_fits(leaf) {
        let mut none = [0u32; TREE_WORDS];
        none[0] = 4;
        return none;
    }
    tree_words(TokenTree::Leaf(leaf))
}

// The words of a subtree that holds nothing yet.
pub(crate) fn subtree_words(kind: u32, opening: Span, closing: Span) -> [u32; TREE_WORDS]
    ensures { result ≡ subtree_words 0 kind (words_of opening) (words_of closing) }
{
    words_of(SUBTREE, 0, kind, opening, closing)
}
