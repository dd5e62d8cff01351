// The lines of the listing, put into a lent run one behind the other.
ghost use Rattle.std.specs.Prelude.{◌++◌, ◌≤◌, length};
ghost use Rattle.format.specs.Lister.{decimal, gap, newline, sort_text, header, refusal_line, line};
ghost use Rattle.text.specs.Typed.{Typed};
ghost use Rattle.tree.specs.Raw.{raw_of};
ghost use Rattle.lister.specs.BySizes.{sort_of, tables_text};

use text::{put_char, put_decimal, put_text};
use tree::raw::RawTree;

const GAP: u8 = 32;

const NEWLINE: u8 = 10;

fn put_field(out: &mut [u8], at: usize, n: usize) -> usize
    requires { at ≤ length out.old }
    ensures { Typed out.old at (decimal n ++ gap) result out.new }
{
    let next = put_decimal(out, at, n);
    put_char(out, next, GAP)
}

fn put_sort(out: &mut [u8], at: usize, tree: RawTree) -> usize
    requires { at ≤ length out.old }
    ensures { Typed out.old at (sort_text (sort_of (raw_of tree)) ++ newline) result out.new }
{
    match tree {
        RawTree::Punct(_) => put_text(out, at, b"punct\n"),
        RawTree::Ident(_) => put_text(out, at, b"ident\n"),
        RawTree::Literal(_) => put_text(out, at, b"literal\n"),
        RawTree::Subtree(_) => put_text(out, at, b"subtree\n"),
    }
}

// Tree number, first byte, depth, sort.
pub(crate) fn put_line(
    out: &mut [u8],
    at: usize,
    n: usize,
    first: usize,
    depth: usize,
    tree: RawTree,
) -> usize
    requires { at ≤ length out.old }
    ensures { Typed out.old at (line n first depth (sort_of (raw_of tree))) result out.new }
{
    let after_number = put_field(out, at, n);
    let after_first = put_field(out, after_number, first);
    let after_depth = put_field(out, after_first, depth);
    put_sort(out, after_depth, tree)
}

fn put_count(out: &mut [u8], at: usize, label: &[u8], n: usize) -> usize
    requires { at ≤ length out.old }
    ensures { Typed out.old at (label.now ++ decimal n) result out.new }
{
    let next = put_text(out, at, label);
    put_decimal(out, next, n)
}

// The second half of the header.
fn put_tables(out: &mut [u8], at: usize, parts: usize, symbols: usize, loose: usize) -> usize
    requires { at ≤ length out.old }
    ensures { Typed out.old at (tables_text parts symbols loose) result out.new }
{
    let after_parts = put_count(out, at, b" parts ", parts);
    let after_symbols = put_count(out, after_parts, b" symbols ", symbols);
    let after_loose = put_count(out, after_symbols, b" loose ", loose);
    put_char(out, after_loose, NEWLINE)
}

pub(crate) fn put_header(
    out: &mut [u8],
    at: usize,
    trees: usize,
    bytes: usize,
    parts: usize,
    symbols: usize,
    loose: usize,
) -> usize
    requires { at ≤ length out.old }
    ensures { Typed out.old at (header trees bytes parts symbols loose) result out.new }
{
    let after_trees = put_count(out, at, b"trees ", trees);
    let after_bytes = put_count(out, after_trees, b" bytes ", bytes);
    put_tables(out, after_bytes, parts, symbols, loose)
}

pub(crate) fn put_refusal(out: &mut [u8], at: usize, number: usize, tree: usize) -> usize
    requires { at ≤ length out.old }
    ensures { Typed out.old at (refusal_line number tree) result out.new }
{
    let after_number = put_count(out, at, b"refused ", number);
    let after_tree = put_count(out, after_number, b" at ", tree);
    put_char(out, after_tree, NEWLINE)
}
