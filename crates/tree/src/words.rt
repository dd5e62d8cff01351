// One tree by its list words, where row 2 is silent on them, and its words again.
ghost use Rattle.std.specs.Prelude.{◌≡◌, ◌∷◌, ◌++◌, true, ◌+◌, ◌*◌, ◌%◌, ◌<◌, ◌≤◌};
ghost use Rattle.format.specs.Width.{span_size, tree_size};
ghost use Rattle.format.specs.Part.{span_from};
ghost use Rattle.format.specs.WordList.{list_count, word_of, raw_from, no_close, word_fields};
ghost use Rattle.tree.specs.Raw.{raw_tree};
ghost use Rattle.tree.specs.Types.{lit_kind_word, tree_span, span_list, tree_words_of};
ghost use Rattle.tree.specs.declared.types.TokenTree.TheVariants as trees;
ghost use Rattle.tree.specs.Words.{tree_from, words_answer, raw_words_answer};

use crate::fields::tree_fits;
use crate::kinds::{lit_kind_from, lit_kind_word};
use crate::listed::{ident_at, literal_at, punct_at, sort_at, subtree_at};
use crate::raw::{Descendants, RawTree};
use crate::sort;
use crate::sort::Sort;
use crate::types::{
    DelimiterKind, Ident, IdentIsRaw, Leaf, LitKind, Literal, Punct, Spacing, Span, Subtree,
    TokenTree,
};
use pack::row;
use pack::row::Row;
use width::{CLOSE_AT, OPEN_AT, PART_WORDS, SPAN_WORDS, TREE_WORDS};

// The closing span of a leaf.
const NO_SPAN: Span = Span {
    file: 0,
    ast_id: 0,
    context: 0,
    start: 0,
    len: 0,
};

// Tree n, if its first word says a sort, with the indices of its open and close part and of its symbol.
#[tactic(auto, unfolding(crate::specs::Raw::raw_tree, format::specs::WordList::raw_from))]
fn raw_of(l: &[u32], n: usize, open_index: u32, close_index: u32, symbol_index: u32) -> RawTree
    requires { (n < list_count l.now) × (word_of l.now n 0 ≤ 3) }
    ensures { result ≡ raw_tree (raw_from open_index close_index symbol_index (word_of l.now n)) }
{
    match sort_at(l, n) {
        sort::PUNCT => RawTree::Punct(punct_at(l, n, open_index)),
        sort::IDENT => RawTree::Ident(ident_at(l, n, open_index, symbol_index)),
        sort::LITERAL => RawTree::Literal(literal_at(l, n, open_index, symbol_index)),
        _ => RawTree::Subtree(subtree_at(l, n, open_index, close_index)),
    }
}

// The span whose file is word j.
fn whole_span(l: &[u32], n: usize, j: usize) -> Span
    requires { (n < list_count l.now) × (j + span_size ≤ tree_size) }
    ensures { result ≡ tree_span (span_from (word_of l.now n) j) }
{
    let at = TREE_WORDS * n + j;
    Span {
        file: l[at],
        ast_id: l[at + 1],
        context: l[at + 2],
        start: l[at + PART_WORDS],
        len: l[at + PART_WORDS + 1],
    }
}

// Whether the closing span is zero, as it is in a leaf.
fn no_close(l: &[u32], n: usize) -> bool
    requires { n < list_count l.now }
    ensures { result ≡ no_close (word_of l.now n) }
{
    whole_span(l, n, CLOSE_AT) == NO_SPAN
}

// Whether row 2 is silent at tree n.
#[tactic(auto, using(crate::proofs::RawAgain::raw_again))]
pub(crate) fn word_fields(l: &[u32], n: usize) -> bool
    requires { n < list_count l.now }
    ensures { result ≡ word_fields (word_of l.now n) }
{
    let sort = sort_at(l, n);
    let is_subtree = sort == sort::SUBTREE;
    sort <= sort::SUBTREE && tree_fits(raw_of(l, n, 0, 0, 0)) && (is_subtree || no_close(l, n))
}

// The tree of these words with the indices of its open and close part and of its symbol.
#[tactic(auto, unfolding(crate::specs::Words::raw_words_answer))]
pub fn raw_from_words(
    words: &[u32; TREE_WORDS],
    open_index: u32,
    close_index: u32,
    symbol_index: u32,
) -> Result<RawTree, Row>
    ensures { result ≡ raw_words_answer open_index close_index symbol_index (word_of words.now 0) }
{
    if word_fields(words, 0) {
        Ok(raw_of(words, 0, open_index, close_index, symbol_index))
    } else {
        Err(row::FIELD)
    }
}

// ---- the source's tree, whose entries are the words themselves

// Row 2 was silent, so each number is that of a kind.
#[tactic(auto, unfolding(crate::specs::Words::tree_from))]
fn whole_tree(l: &[u32], n: usize) -> Result<TokenTree, Row>
    requires { (n < list_count l.now) × (word_fields (word_of l.now n) ≡ true) }
    ensures { result ≡ Ok (tree_from (word_of l.now n)) }
{
    let first = l[TREE_WORDS * n + 1];
    let second = l[TREE_WORDS * n + 2];
    let span = whole_span(l, n, OPEN_AT);
    match sort_at(l, n) {
        sort::PUNCT => Ok(TokenTree::Leaf(Leaf::Punct(Punct {
            char: first,
            spacing: Spacing::try_from(second)?,
            span,
        }))),
        sort::IDENT => Ok(TokenTree::Leaf(Leaf::Ident(Ident {
            sym: first,
            span,
            is_raw: IdentIsRaw::try_from(second)?,
        }))),
        sort::LITERAL => Ok(TokenTree::Leaf(Leaf::Literal(Literal {
            text_and_suffix: first,
            span,
            kind: lit_kind_from(second % 256, second / 256 % 256)?,
            suffix_len: second / 65536,
        }))),
        _ => Ok(TokenTree::Subtree(Subtree {
            opening: span,
            closing: whole_span(l, n, CLOSE_AT),
            len: Descendants(first),
            kind: DelimiterKind::try_from(second)?,
        })),
    }
}

// The tree of these words, if row 2 is silent on them.
#[tactic(auto, unfolding(crate::specs::Words::words_answer))]
pub fn tree_from_words(words: &[u32; TREE_WORDS]) -> Result<TokenTree, Row>
    ensures { result ≡ words_answer (word_of words.now 0) }
{
    if word_fields(words, 0) {
        whole_tree(words, 0)
    } else {
        Err(row::FIELD)
    }
}

// ---- its words again

// A raw count or a suffix length out of range may pass the word: what is past it falls away.
fn literal_word(kind: LitKind, suffix_len: u32) -> u32
    ensures { result ≡ (lit_kind_word kind + 65536 * suffix_len) % 4294967296 }
{
    ((lit_kind_word(kind) + 65536 * (suffix_len as u64)) % 4294967296) as u32
}

// The list words of a span.
pub fn span_words(span: Span) -> [u32; SPAN_WORDS]
    ensures { result ≡ span_list span }
{
    [span.file, span.ast_id, span.context, span.start, span.len]
}

// The list words of a tree by its sort, its own two words and its spans.
pub fn words_of(sort: Sort, first: u32, second: u32, span: Span, closing: Span) -> [u32; TREE_WORDS]
    ensures { result ≡ (sort ∷ first ∷ second ∷ span_list span ++ span_list closing) }
{
    [
        sort,
        first,
        second,
        span.file,
        span.ast_id,
        span.context,
        span.start,
        span.len,
        closing.file,
        closing.ast_id,
        closing.context,
        closing.start,
        closing.len,
    ]
}

#[tactic(auto, unfolding(crate::specs::Types::tree_words_of, crate::specs::Types::spacing_word, crate::specs::Types::is_raw_word))]
fn leaf_words(leaf: Leaf) -> [u32; TREE_WORDS]
    ensures { result ≡ tree_words_of (trees.Leaf leaf) }
{
    match leaf {
        Leaf::Punct(p) => words_of(sort::PUNCT, p.char, p.spacing as u32, p.span, NO_SPAN),
        Leaf::Ident(p) => words_of(sort::IDENT, p.sym, p.is_raw as u32, p.span, NO_SPAN),
        Leaf::Literal(p) => {
            let second = literal_word(p.kind, p.suffix_len);
            words_of(sort::LITERAL, p.text_and_suffix, second, p.span, NO_SPAN)
        }
    }
}

// The list words of a tree.
#[tactic(auto, unfolding(crate::specs::Types::tree_words_of, crate::specs::Types::delimiter_word))]
pub fn tree_words(tree: TokenTree) -> [u32; TREE_WORDS]
    ensures { result ≡ tree_words_of tree }
{
    match tree {
        TokenTree::Leaf(leaf) => leaf_words(leaf),
        TokenTree::Subtree(p) => {
            words_of(sort::SUBTREE, p.len.0, p.kind as u32, p.opening, p.closing)
        }
    }
}
