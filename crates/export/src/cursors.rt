// Cursor calls over three lent arrays.
ghost use Rattle.std.specs.Prelude.{◌≡◌, ◌≤◌};
ghost use Rattle.walk.specs.Source.{answer_report};
ghost use Rattle.cursor.specs.Plan.{answer_of};
ghost use Rattle.export.specs.Steps.{answer_list};
ghost use Rattle.export.specs.Cursors.{call_of, Called, CursorReplied};

use crate::replies::TOO_SHORT;
use crate::unchecked::{TWO_TREES, store_answer, store_leaves};
use cursor::lent::{Moved, bump, bump_or_end, end};
use cursor::look::{peek_two_leaves, token_tree};
use cursor::state::At;

// Every call but `peek_two_leaves`.
fn lent_call(
    b: &[u8],
    trees: u32,
    parts: &[u32],
    symbols: &[u32],
    call: u32,
    at: At,
    numbers: &mut [u32; 256],
    counts: &mut [u32; 256],
    places: &mut [usize; 256],
) -> Moved
    requires { call ≤ 3 }
    ensures { Called b.now trees parts.now symbols.now (call_of call) at
        numbers.old counts.old places.old
        (answer_list (answer_report (answer_of result.answer))) result.at
        numbers.new counts.new places.new }
{
    match call {
        0 => bump(b, trees, parts, symbols, at, numbers, counts, places),
        1 => end(b, trees, parts, symbols, at, numbers, counts, places),
        2 => bump_or_end(b, trees, parts, symbols, at, numbers, counts, places),
        _ => {
            let answer = token_tree(b, trees, parts, symbols, at, numbers, counts, places);
            Moved { answer, at }
        }
    }
}

// The answer is 0 for none, 1 for a tree, 2 for two leaves, the list words and the report of each being stored, 3 for
// nothing to hand back, or a refusal. Unless refused, place, number and depth of the next cursor are stored.
#[unsafe(no_mangle)]
pub extern "C" fn tt_cursor(
    b: &[u8],
    trees: u32,
    parts: &[u32],
    symbols: &[u32],
    call: u32,
    place: usize,
    number: u32,
    depth: usize,
    numbers: &mut [u32; 256],
    counts: &mut [u32; 256],
    places: &mut [usize; 256],
    next: &mut [usize],
    words: &mut [u32],
) -> u64
    ensures { CursorReplied b.now trees parts.now symbols.now (call_of call)
        (record { place = place; number = number; depth = depth })
        numbers.old counts.old places.old next.old words.old result
        next.new words.new numbers.new counts.new places.new }
{
    if next.len() < 3 || words.len() < TWO_TREES {
        return TOO_SHORT;
    }
    let at = At {
        place,
        number,
        depth,
    };
    if 4 <= call {
        let two = peek_two_leaves(b, trees, parts, symbols, at, numbers, counts, places);
        return store_leaves(two, at, next, words);
    }
    let moved = lent_call(b, trees, parts, symbols, call, at, numbers, counts, places);
    store_answer(moved.answer, moved.at, next, words)
}
