// Tree n of a buffer as the source's tree: its indices looked up in the tables of one mode.
ghost use Rattle.std.specs.Prelude.{◌≡◌, true, ◌+◌, ◌*◌, ◌/◌, ◌<◌, ◌≤◌, length, get_or};
ghost use Rattle.pack.specs.Answer.{span_of};
ghost use Rattle.format.specs.Width.{part_size};
ghost use Rattle.format.specs.Part.{part_at};
ghost use Rattle.format.specs.Fields.{fields};
ghost use Rattle.format.specs.Loose.{beside, loose_at};
ghost use Rattle.tree.specs.Raw.{raw_of, punct_raw, ident_raw, literal_raw, subtree_raw};
ghost use Rattle.tree.specs.Types.{span_with, punct_with, ident_with, literal_with, subtree_with};
ghost use Rattle.tree.specs.Tables.{mode_in};
ghost use Rattle.decode.specs.Decode.{tree_answer, decoded_of, read_in, decoded, shown_as};

use crate::judge::{punct_row, subtree_row, symbol_row};
use crate::loose::{Reported, loose_at, with_report};
use crate::read::raw_at;
use pack::row;
use pack::row::Row;
use pack::span::PackedSpan;
use tree::own::own_tables;
use tree::ranged::{delimiter_of, is_raw_of, lit_kind_of, spacing_of};
use tree::raw::{At, RawAt, RawIdent, RawLiteral, RawPunct, RawSubtree, RawTree, place};
use tree::sizes::tables_sized;
use tree::tables::Tables;
use tree::types::{Ident, Leaf, Literal, Punct, Span, Subtree, TokenTree};
use width::PART_WORDS;

// With its entries.
pub type TreeAt = At<TokenTree>;

// ---- table entries

// With entry `at` of a table.
pub fn span_from(table: &[u32], at: usize, span: PackedSpan) -> Span
    requires { part_size * at + part_size ≤ length table.now }
    ensures { result ≡ span_with (part_at table.now at) (span_of span) }
{
    let word = PART_WORDS * at;
    Span {
        file: table[word],
        ast_id: table[word + 1],
        context: table[word + 2],
        start: span.start,
        len: span.len,
    }
}

pub fn symbol_from(symbols: &[u32], index: u32) -> u32
    requires { index < length symbols.now }
    ensures { result ≡ get_or symbols.now index 0 }
{
    symbols[place(index)]
}

// ---- one tree: a leaf stands below the root

fn punct_from(parts: &[u32], p: RawPunct) -> Leaf
    requires { (part_size * p.span.index + part_size ≤ length parts.now) × (fields (punct_raw p) ≡ true) }
    ensures { result ≡ punct_with (part_at parts.now p.span.index) (span_of p.span) p.char p.spacing }
{
    Leaf::Punct(Punct {
        char: p.char,
        spacing: spacing_of(p.spacing),
        span: span_from(parts, place(p.span.index), p.span),
    })
}

fn ident_from(parts: &[u32], symbols: &[u32], p: RawIdent) -> Leaf
    requires { (part_size * p.span.index + part_size ≤ length parts.now) × (p.symbol < length symbols.now)
        × (fields (ident_raw p) ≡ true) }
    ensures { result ≡ ident_with (part_at parts.now p.span.index) symbols.now (span_of p.span)
        p.symbol p.raw }
{
    Leaf::Ident(Ident {
        sym: symbol_from(symbols, p.symbol),
        span: span_from(parts, place(p.span.index), p.span),
        is_raw: is_raw_of(p.raw),
    })
}

fn literal_from(parts: &[u32], symbols: &[u32], p: RawLiteral) -> Leaf
    requires { (part_size * p.span.index + part_size ≤ length parts.now) × (p.symbol < length symbols.now)
        × (fields (literal_raw p) ≡ true) }
    ensures { result ≡ literal_with (part_at parts.now p.span.index) symbols.now (span_of p.span)
        p.symbol p.kind p.raw_count p.suffix_len }
{
    Leaf::Literal(Literal {
        text_and_suffix: symbol_from(symbols, p.symbol),
        span: span_from(parts, place(p.span.index), p.span),
        kind: lit_kind_of(p.kind, p.raw_count),
        suffix_len: p.suffix_len,
    })
}

// With two entries of a table.
fn subtree_from(table: &[u32], opens: usize, closes: usize, p: RawSubtree) -> Subtree
    requires { (part_size * opens + part_size ≤ length table.now)
        × (part_size * closes + part_size ≤ length table.now) × (fields (subtree_raw p) ≡ true) }
    ensures { result ≡ subtree_with (part_at table.now opens) (part_at table.now closes)
        (span_of p.opening) (span_of p.closing) p.len.0 p.kind }
{
    Subtree {
        opening: span_from(table, opens, p.opening),
        closing: span_from(table, closes, p.closing),
        len: p.len,
        kind: delimiter_of(p.kind),
    }
}

// ---- tree n, judged and looked up in one place, so that its sort is asked for once

fn found(tables: &Tables, n: u32, at: usize, here: RawAt) -> Result<TreeAt, Row>
    requires { fields (raw_of here.tree) ≡ true }
    ensures { result ≡ tree_answer (shown_as (mode_in tables.now)
        n at here.next here.children.0 (raw_of here.tree)) }
{
    let limits = &tables.limits;
    let next = here.next;
    let children = here.children;
    match here.tree {
        RawTree::Punct(p) => {
            punct_row(limits, n, at, next, p.span.index)?;
            let tree = TokenTree::Leaf(punct_from(tables.parts, p));
            Ok(At {
                tree,
                next,
                children,
            })
        }
        RawTree::Ident(p) => {
            symbol_row(limits, n, at, next, p.span.index, p.symbol)?;
            let tree = TokenTree::Leaf(ident_from(tables.parts, tables.symbols, p));
            Ok(At {
                tree,
                next,
                children,
            })
        }
        RawTree::Literal(p) => {
            symbol_row(limits, n, at, next, p.span.index, p.symbol)?;
            let tree = TokenTree::Leaf(literal_from(tables.parts, tables.symbols, p));
            Ok(At {
                tree,
                next,
                children,
            })
        }
        RawTree::Subtree(p) => {
            subtree_row(limits, n, at, next, p.opening.index, p.closing.index)?;
            // The root's two parts stand in a run of their own.
            let subtree = if n == 0 {
                subtree_from(tables.pair, 0, 1, p)
            } else {
                subtree_from(
                    tables.parts,
                    place(p.opening.index),
                    place(p.closing.index),
                    p,
                )
            };
            let tree = TokenTree::Subtree(subtree);
            Ok(At {
                tree,
                next,
                children,
            })
        }
    }
}

// Tree n at a place by its entries in the tables of a mode, or the first of the rows 7, 2 and 8 that refuses it. Row 1
// was asked by whoever knows the mode.
pub fn decode_in(b: &[u8], tables: &Tables, n: u32, at: usize) -> Result<TreeAt, Row>
    ensures { result ≡ tree_answer (read_in b.now (mode_in tables.now) n at) }
{
    let here = raw_at(b, at)?;
    found(tables, n, at, here)
}

// Over a part table whose last two are the root's, row 1 of the tables first.
#[tactic(auto, using(crate::proofs::DecodeUse::decoded_got, crate::proofs::DecodeUse::decoded_refused), unfolding(crate::specs::Decode::decoded, crate::specs::Decode::decoded_of))]
pub fn decode(
    b: &[u8],
    parts: &[u32],
    symbols: &[u32],
    n: u32,
    at: usize,
) -> Result<Reported<TokenTree>, Row>
    ensures { decoded_of result ≡ beside (loose_at b.now at)
        (decoded b.now parts.now symbols.now n at) }
{
    if !tables_sized(parts, symbols) {
        return Err(row::SIZE);
    }
    let tables = own_tables(parts, symbols);
    let here = decode_in(b, &tables, n, at)?;
    Ok(with_report(here, loose_at(b, at)))
}
