// Stores into the lent run.
ghost use Rattle.std.specs.Prelude.{◌≡◌, ◌+◌, ◌*◌, ◌≤◌, ◌<◌, length};
ghost use Rattle.format.specs.Word.{put};
ghost use Rattle.format.specs.WordList.{list_count};
ghost use Rattle.tree.specs.Types.{words_of};
ghost use Rattle.builder.specs.State.{closed_at};

use tree::types::Span;
use tree::unchecked::put_words;
use tree::words::span_words;
use width::{CLOSE_AT, TREE_WORDS};

// The descendant count and the close span of tree m, and nothing else.
pub(crate) fn close_tree(list: &mut [u32], m: usize, count: u32, closing: Span)
    requires { m < list_count list.old }
    ensures { list.new ≡ closed_at list.old m count (words_of closing) }
{
    let one = [count];
    put_words(list, TREE_WORDS * m + 1, &one);
    let words = span_words(closing);
    put_words(list, TREE_WORDS * m + CLOSE_AT, &words);
}
