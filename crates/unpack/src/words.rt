// The list words of a tree that was read and judged, with its entries looked up. The source's tree is not made in
// between, which would be taken apart again at once.
ghost use Rattle.std.specs.Prelude.{◌≡◌, true, ◌+◌, ◌*◌, ◌≤◌, length};
ghost use Rattle.format.specs.Width.{part_size};
ghost use Rattle.format.specs.Part.{part_at};
ghost use Rattle.format.specs.Fields.{fields};
ghost use Rattle.format.specs.Tables.{row_eight, tree_words};
ghost use Rattle.pack.specs.Answer.{span_of};
ghost use Rattle.tree.specs.Raw.{raw_of, literal_raw};
ghost use Rattle.tree.specs.Mode.{limits_of};
ghost use Rattle.tree.specs.Tables.{mode_in};
ghost use Rattle.unpack.specs.Words.{leaf_list, subtree_list};

use decode::decode::{span_from, symbol_from};
use pack::span::PackedSpan;
use tree::raw::{RawLiteral, RawSubtree, RawTree, place};
use tree::tables::Tables;
use tree::types::Span;
use tree::words::words_of;
use width::TREE_WORDS;

// A leaf by its sort and its own two words.
#[tactic(auto, using(crate::proofs::WordsReturns::one_cases))]
fn leaf_words(
    parts: &[u32],
    sort: u32,
    first: u32,
    second: u32,
    span: PackedSpan,
) -> [u32; TREE_WORDS]
    requires { part_size * span.index + part_size ≤ length parts.now }
    ensures { result ≡ leaf_list (part_at parts.now span.index) sort first second (span_of span) }
{
    let at = place(span.index);
    let none = Span {
        file: 0,
        ast_id: 0,
        context: 0,
        start: 0,
        len: 0,
    };
    words_of(sort, first, second, span_from(parts, at, span), none)
}

// Kind, raw count and suffix length in one word.
#[tactic(auto, using(crate::proofs::WordsReturns::literal_cases))]
fn literal_word(p: RawLiteral) -> u32
    requires { fields (literal_raw p) ≡ true }
    ensures { result ≡ p.kind + 256 * p.raw_count + 65536 * p.suffix_len }
{
    p.kind + 256 * p.raw_count + 65536 * p.suffix_len
}

// A subtree with two entries of a table.
#[tactic(auto, using(crate::proofs::WordsReturns::one_cases))]
fn subtree_words(table: &[u32], opens: usize, closes: usize, p: RawSubtree) -> [u32; TREE_WORDS]
    requires { (part_size * opens + part_size ≤ length table.now)
        × (part_size * closes + part_size ≤ length table.now) }
    ensures { result ≡ subtree_list (part_at table.now opens) (part_at table.now closes) p }
{
    words_of(
        3,
        p.len.0,
        p.kind,
        span_from(table, opens, p.opening),
        span_from(table, closes, p.closing),
    )
}

// Tree n over the tables of a mode. Row 2 has passed its fields, row 8 its indices.
#[tactic(auto, using(crate::proofs::WordsReturns::raw_cases))]
pub(crate) fn raw_words(tables: &Tables, n: u32, tree: RawTree) -> [u32; TREE_WORDS]
    requires { (fields (raw_of tree) ≡ true) × (row_eight (limits_of tables.now.limits) n (raw_of tree) ≡ 0) }
    ensures { result ≡ tree_words (mode_in tables.now) n (raw_of tree) }
{
    match tree {
        RawTree::Punct(p) => leaf_words(tables.parts, 0, p.char, p.spacing, p.span),
        RawTree::Ident(p) => {
            let symbol = symbol_from(tables.symbols, p.symbol);
            leaf_words(tables.parts, 1, symbol, p.raw, p.span)
        }
        RawTree::Literal(p) => {
            let symbol = symbol_from(tables.symbols, p.symbol);
            leaf_words(tables.parts, 2, symbol, literal_word(p), p.span)
        }
        RawTree::Subtree(p) => {
            // The root's two parts stand in a run of their own.
            if n == 0 {
                return subtree_words(tables.pair, 0, 1, p);
            }
            let opens = place(p.opening.index);
            let closes = place(p.closing.index);
            subtree_words(tables.parts, opens, closes, p)
        }
    }
}
