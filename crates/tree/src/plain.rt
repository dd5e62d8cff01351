// Row 2 at a tree of a list that holds it. Most trees keep to limits that a look at their first word gives: these are
// compared without a branch by sort, and a tree that is past one of them is looked at in full.
ghost use Rattle.std.specs.Prelude.{◌≡◌, true, ◌+◌, ◌<◌, ◌≤◌};
ghost use Rattle.format.specs.Width.{close_at};
ghost use Rattle.format.specs.Part.{span_from};
ghost use Rattle.format.specs.WordList.{list_count, word_of, word_fields};
ghost use Rattle.tree.specs.Plain.{second_most, first_most, close_most, span_sum, Low, LowClose};

use crate::listed::sort_at;
use crate::sort;
use crate::sort::Sort;
use crate::words::word_fields;
use pack::span::range_fits;
use width::{
    CLOSE_AST, CLOSE_CONTEXT, CLOSE_FILE, CLOSE_LEN, CLOSE_START, OPEN_LEN, OPEN_START, SPAN_WORDS,
    TREE_WORDS,
};

// No sum of a closing span's words is above it.
const CLOSE_MOST: u64 = SPAN_WORDS as u64 * 4294967295;

fn second_most(sort: Sort) -> u32
    ensures { result ≡ second_most sort }
{
    match sort {
        sort::PUNCT => 2,
        sort::IDENT => 1,
        sort::LITERAL => 10,
        _ => 3,
    }
}

fn first_most(sort: Sort) -> u32
    ensures { result ≡ first_most sort }
{
    if sort == sort::PUNCT {
        0xD7FF
    } else {
        4294967294
    }
}

fn close_most(sort: Sort) -> u64
    ensures { result ≡ close_most sort }
{
    if sort == sort::SUBTREE { CLOSE_MOST } else { 0 }
}

fn close_sum(l: &[u32], n: usize) -> u64
    requires { n < list_count l.now }
    ensures { result ≡ span_sum (span_from (word_of l.now n) close_at) }
{
    l[TREE_WORDS * n + CLOSE_FILE] as u64
        + l[TREE_WORDS * n + CLOSE_AST] as u64
        + l[TREE_WORDS * n + CLOSE_CONTEXT] as u64
        + l[TREE_WORDS * n + CLOSE_START] as u64
        + l[TREE_WORDS * n + CLOSE_LEN] as u64
}

// Whether the first three words of tree n keep to the limits.
fn is_low(l: &[u32], n: usize) -> bool
    requires { n < list_count l.now }
    ensures { (result ≡ true) → Low (word_of l.now n) }
{
    let sort = sort_at(l, n);
    sort <= 3
        && l[TREE_WORDS * n + 2] <= second_most(sort)
        && l[TREE_WORDS * n + 1] <= first_most(sort)
}

// Whether the sum of the closing span's words does.
fn is_low_close(l: &[u32], n: usize) -> bool
    requires { n < list_count l.now }
    ensures { (result ≡ true) → LowClose (word_of l.now n) }
{
    close_sum(l, n) <= close_most(sort_at(l, n))
}

// Whether tree n keeps to the limits, and its spans end in range.
fn is_plain(l: &[u32], n: usize) -> bool
    requires { n < list_count l.now }
    ensures { (result ≡ true) → (word_fields (word_of l.now n) ≡ true) }
{
    is_low(l, n)
        && is_low_close(l, n)
        && range_fits(l[TREE_WORDS * n + OPEN_START], l[TREE_WORDS * n + OPEN_LEN])
        && range_fits(
            l[TREE_WORDS * n + CLOSE_START],
            l[TREE_WORDS * n + CLOSE_LEN],
        )
}

// Whether row 2 is silent at tree n.
pub fn fields_at(l: &[u32], n: usize) -> bool
    requires { n < list_count l.now }
    ensures { result ≡ word_fields (word_of l.now n) }
{
    is_plain(l, n) || word_fields(l, n)
}
