// The list words of all trees that are handed back, added up: so no part of a tree can be left unread.
ghost use Rattle.std.specs.Prelude.{◌≡◌, ◌+◌, ◌*◌, ◌<◌};
ghost use Rattle.format.specs.Width.{span_size, open_at};
ghost use Rattle.tree.specs.Plain.{span_sum};
ghost use Rattle.tree.specs.Types.{tree_words_of};
ghost use Rattle.measure.specs.Sum.{plus, refused_code};

use tree::types::TokenTree;
use tree::words::tree_words;
use width::{
    CLOSE_AST, CLOSE_CONTEXT, CLOSE_FILE, CLOSE_LEN, CLOSE_START, OPEN_AT, OPEN_LEN, OPEN_START,
};

const OPEN_FILE: usize = OPEN_AT;

const OPEN_AST: usize = OPEN_AT + 1;

const OPEN_CONTEXT: usize = OPEN_AT + 2;

// The words before the spans.
fn head_sum(sort: u32, first: u32, second: u32) -> u64
    ensures { (result ≡ sort + first + second) × (result < open_at * 4294967296) }
{
    u64::from(sort) + u64::from(first) + u64::from(second)
}

fn span_sum(file: u32, ast: u32, context: u32, start: u32, len: u32) -> u64
    ensures { (result ≡ span_sum
        (record { part = record { file = file; ast = ast; context = context }; start = start; len = len }))
        × (result < span_size * 4294967296) }
{
    u64::from(file) + u64::from(ast) + u64::from(context) + u64::from(start) + u64::from(len)
}

// Modulo 2^32, so that a sum fits whatever is added.
#[tactic(auto, using(crate::proofs::SumReturns::added_is))]
pub(crate) fn added(sum: u64, tree: TokenTree) -> u64
    ensures { (result ≡ plus sum (tree_words_of tree)) × (result < 4294967296) }
{
    let w = tree_words(tree);
    let head = head_sum(w[0], w[1], w[2]);
    let span = span_sum(
        w[OPEN_FILE],
        w[OPEN_AST],
        w[OPEN_CONTEXT],
        w[OPEN_START],
        w[OPEN_LEN],
    );
    let closing = span_sum(
        w[CLOSE_FILE],
        w[CLOSE_AST],
        w[CLOSE_CONTEXT],
        w[CLOSE_START],
        w[CLOSE_LEN],
    );
    (sum % 4294967296 + head + span + closing) % 4294967296
}

// A refusal by its number.
pub(crate) fn refused_code(number: u32) -> u64
    ensures { result ≡ refused_code number }
{
    9223372036854775808 + u64::from(number)
}
