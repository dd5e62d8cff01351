// One tree of a buffer, judged by its number and how far its indices may reach: 7, 2 and 8 in turn.
ghost use Rattle.std.specs.Prelude.{◌≡◌, false, ◌&&◌, ◌+◌, ltb, eqb};
ghost use Rattle.format.specs.Tree.{tree_at};
ghost use Rattle.format.specs.Tables.{count_rules};
ghost use Rattle.format.specs.Buffer.{formed, judge};
ghost use Rattle.format.specs.Loose.{beside, loose_at};
ghost use Rattle.tree.specs.Raw.{raw_of, raw_answer};
ghost use Rattle.tree.specs.Mode.{limits_of};
ghost use Rattle.decode.specs.Judge.{row_answer, row_from, row_of, limit_rules, judged_of};

use crate::loose::{Reported, loose_at, with_report};
use crate::read::raw_at;
use pack::row;
use pack::row::Row;
use tree::limits::{Limits, own_limits};
use tree::raw::{RawAt, RawTree, place};

// The bytes of the root's form, which no other form has.
const ROOT_BYTES: usize = 33;

fn is_below(index: u32, limit: usize) -> bool
    ensures { result ≡ ltb index limit }
{
    place(index) < limit
}

// The part and the symbol of an ident or a literal, or the two parts of a subtree.
fn both_below(first: u32, limit: usize, second: u32, other: usize) -> bool
    ensures { result ≡ (ltb first limit && ltb second other) }
{
    is_below(first, limit) && is_below(second, other)
}

// The root's two parts, in this order.
fn root_parts(root: usize, opening: u32, closing: u32) -> bool
    ensures { result ≡ (eqb opening root && eqb closing (root + 1)) }
{
    let first = place(opening);
    first == root && place(closing) == first + 1
}

// Whether tree n, read from `at` to `next`, has the form that its number asks for.
fn has_form(n: u32, at: usize, next: usize) -> bool
    ensures { result ≡ formed n at next }
{
    n != 0 || ROOT_BYTES <= next && next - ROOT_BYTES == at
}

// Row 2 or 8 for tree n: whether its indices are a root's, and whether they are another tree's.
#[tactic(auto, unfolding(crate::specs::Judge::row_from))]
fn row_from(n: u32, at: usize, next: usize, root: bool, below: bool) -> Result<(), Row>
    ensures { result ≡ row_answer (row_from n at next root below) }
{
    if !has_form(n, at, next) {
        return Err(row::FIELD);
    }
    let reached = if n == 0 { root } else { below };
    if !reached {
        return Err(row::INDEX);
    }
    Ok(())
}

// ---- the rows of tree n by its sort. They take numbers: a span handed on whole would be copied where it is not needed

pub(crate) fn punct_row(
    limits: &Limits,
    n: u32,
    at: usize,
    next: usize,
    part: u32,
) -> Result<(), Row>
    ensures { result ≡ row_answer (row_from n at next false (ltb part limits.now.limit)) }
{
    row_from(n, at, next, false, is_below(part, limits.limit))
}

// An ident or a literal.
pub(crate) fn symbol_row(
    limits: &Limits,
    n: u32,
    at: usize,
    next: usize,
    part: u32,
    symbol: u32,
) -> Result<(), Row>
    ensures { result ≡ row_answer (row_from n at next false
        (ltb part limits.now.limit && ltb symbol limits.now.symbols)) }
{
    let below = both_below(part, limits.limit, symbol, limits.symbols);
    row_from(n, at, next, false, below)
}

pub(crate) fn subtree_row(
    limits: &Limits,
    n: u32,
    at: usize,
    next: usize,
    opening: u32,
    closing: u32,
) -> Result<(), Row>
    ensures { result ≡ row_answer (row_from n at next
        (eqb opening limits.now.root && eqb closing (limits.now.root + 1))
        (ltb opening limits.now.limit && ltb closing limits.now.limit)) }
{
    let root = root_parts(limits.root, opening, closing);
    let below = both_below(opening, limits.limit, closing, limits.limit);
    row_from(n, at, next, root, below)
}

// Row 2 or 8 for tree n, read from `at` to `next` with its fields in range.
#[tactic(auto, unfolding(tree::specs::Raw::raw_of))]
fn tree_row(limits: &Limits, n: u32, at: usize, next: usize, tree: &RawTree) -> Result<(), Row>
    ensures { result ≡ row_answer (row_of (limits_of limits.now) n at next (raw_of tree.now)) }
{
    match tree {
        RawTree::Punct(p) => punct_row(limits, n, at, next, p.span.index),
        RawTree::Ident(p) => symbol_row(limits, n, at, next, p.span.index, p.symbol),
        RawTree::Literal(p) => symbol_row(limits, n, at, next, p.span.index, p.symbol),
        RawTree::Subtree(p) => subtree_row(limits, n, at, next, p.opening.index, p.closing.index),
    }
}

// Tree n at a place, or the first of the rows 7, 2 and 8 that refuses it.
pub fn tree_in(b: &[u8], limits: Limits, n: u32, at: usize) -> Result<RawAt, Row>
    ensures { result ≡ raw_answer (judge (λ n t. t) (limit_rules (limits_of limits)) n at (tree_at b.now at)) }
{
    let here = raw_at(b, at)?;
    tree_row(&limits, n, at, here.next, &here.tree)?;
    Ok(here)
}

// The same by the sizes of tables of which the last two parts are the root's, with its report.
pub fn tree_at(
    b: &[u8],
    parts: usize,
    symbols: usize,
    n: u32,
    at: usize,
) -> Result<Reported<RawTree>, Row>
    ensures { judged_of result ≡ beside (loose_at b.now at)
        (judge (λ n t. t) (count_rules parts symbols) n at (tree_at b.now at)) }
{
    let here = tree_in(b, own_limits(parts, symbols), n, at)?;
    Ok(with_report(here, loose_at(b, at)))
}
