// One tree, by its list words and its indices.
ghost use Rattle.std.specs.Prelude.{◌≡◌, ◌∷◌, [], ◌++◌, ◌+◌, ◌≤◌, length};
ghost use Rattle.format.specs.Width.{tree_size};
ghost use Rattle.format.specs.Word.{put};
ghost use Rattle.tree.specs.Loose.{loose_of};
ghost use Rattle.export.specs.Steps.{loose_words};
ghost use Rattle.export.specs.Code.{found_size, TreeStored, RootStored, TreeFound};

use crate::replies::{Code, reply};
use crate::unchecked::{LOOSE_WORDS, store_loose};
use decode::decode::decode;
use encode::encode::{encode, encode_top_subtree};
use pack::row;
use pack::span::PackedSpan;
use tree::loose::Loose;
use tree::raw::{ChildrenBytes, Descendants, RawSubtree};
use tree::unchecked::put_words;
use tree::words::{raw_from_words, tree_words};
use width::TREE_WORDS;

// The tree of these list words, with the indices of its open and close part and of its symbol.
#[unsafe(no_mangle)]
pub extern "C" fn tt_encode_tree(
    out: &mut [u8],
    at: usize,
    tree: &[u32; TREE_WORDS],
    open_index: u32,
    close_index: u32,
    symbol_index: u32,
    children: u32,
) -> u64
    ensures { TreeStored out.old at tree.now open_index close_index symbol_index
        children result out.new }
{
    match raw_from_words(tree, open_index, close_index, symbol_index) {
        Err(number) => number.code(),
        Ok(raw) => reply(encode(out, at, raw, ChildrenBytes(children))),
    }
}

// The root: its spans by index, start and length, its delimiter kind, its descendants and their bytes.
#[unsafe(no_mangle)]
pub extern "C" fn tt_encode_top_subtree(
    out: &mut [u8],
    at: usize,
    open_index: u32,
    open_start: u32,
    open_len: u32,
    close_index: u32,
    close_start: u32,
    close_len: u32,
    len: u32,
    kind: u32,
    children: u32,
) -> u64
    ensures { RootStored out.old at
        (record { index = open_index; start = open_start; len = open_len })
        (record { index = close_index; start = close_start; len = close_len }) len kind children result
        out.new }
{
    let opening = PackedSpan {
        index: open_index,
        start: open_start,
        len: open_len,
    };
    let closing = PackedSpan {
        index: close_index,
        start: close_start,
        len: close_len,
    };
    let root = RawSubtree {
        opening,
        closing,
        len: Descendants(len),
        kind,
    };
    reply(encode_top_subtree(out, at, root, ChildrenBytes(children)))
}

// A tree's words, its children bytes and its report.
const LOOSE_AT: usize = TREE_WORDS + 1;

const FOUND_WORDS: usize = LOOSE_AT + LOOSE_WORDS;

fn store_counted(words: &mut [u32], from: [u32; TREE_WORDS], children: u32)
    requires { tree_size + 1 ≤ length words.old }
    ensures { words.new ≡ put words.old 0 (from ++ children ∷ []) }
{
    put_words(words, 0, &from);
    words[TREE_WORDS] = children;
}

fn store_tree(words: &mut [u32], from: [u32; TREE_WORDS], children: u32, loose: Loose)
    requires { found_size ≤ length words.old }
    ensures { words.new ≡ put words.old 0 (from ++ children ∷ loose_words (loose_of loose)) }
{
    store_counted(words, from, children);
    store_loose(words, LOOSE_AT, loose);
}

// The list words of tree n, its children bytes and its report are stored; the answer is the place behind the tree.
#[unsafe(no_mangle)]
pub extern "C" fn tt_decode_tree(
    b: &[u8],
    parts: &[u32],
    symbols: &[u32],
    n: u32,
    at: usize,
    words: &mut [u32],
) -> u64
    ensures { TreeFound b.now parts.now symbols.now n at
        words.old result words.new }
{
    if words.len() < FOUND_WORDS {
        return row::ROOM.code();
    }
    let read = decode(b, parts, symbols, n, at);
    match read {
        Err(k) => k.code(),
        Ok(y) => {
            let tree = y.tree;
            let children = y.children;
            let loose = y.loose;
            store_tree(words, tree_words(tree), children.0, loose);
            y.next.code()
        }
    }
}
