// Cursor calls by the methods on the cursor itself; its arrays are copied in and out.
ghost use Rattle.std.specs.Prelude.{◌≡◌, ◌≤◌};
ghost use Rattle.walk.specs.Source.{answer_report};
ghost use Rattle.cursor.specs.Plan.{answer_of};
ghost use Rattle.cursor.specs.Moves.{at_of};
ghost use Rattle.export.specs.Steps.{answer_list};
ghost use Rattle.export.specs.Cursors.{call_of, Called, CursorReplied};

use crate::replies::TOO_SHORT;
use crate::unchecked::{TWO_TREES, store_answer, store_leaves};
use cursor::cursor::{Cursor, Next};
use cursor::state::At;

// Every call but `peek_two_leaves`.
fn value_call(
    b: &[u8],
    trees: u32,
    parts: &[u32],
    symbols: &[u32],
    call: u32,
    cursor: Cursor,
) -> Next
    requires { call ≤ 3 }
    ensures { Called b.now trees parts.now symbols.now (call_of call)
        (at_of cursor)
        cursor.numbers cursor.counts cursor.places
        (answer_list (answer_report (answer_of result.answer))) (at_of result.cursor)
        result.cursor.numbers result.cursor.counts result.cursor.places }
{
    match call {
        0 => cursor.bump(b, trees, parts, symbols),
        1 => cursor.end(b, trees, parts, symbols),
        2 => cursor.bump_or_end(b, trees, parts, symbols),
        _ => {
            let answer = cursor.token_tree(b, trees, parts, symbols);
            Next { answer, cursor }
        }
    }
}

// As `tt_cursor`.
#[unsafe(no_mangle)]
pub extern "C" fn tt_cursor_by_value(
    b: &[u8],
    trees: u32,
    parts: &[u32],
    symbols: &[u32],
    call: u32,
    place: usize,
    number: u32,
    depth: usize,
    numbers: &mut [u32; 256],
    counts: &mut [u32; 256],
    places: &mut [usize; 256],
    next: &mut [usize],
    words: &mut [u32],
) -> u64
    ensures { CursorReplied b.now trees parts.now symbols.now (call_of call)
        (record { place = place; number = number; depth = depth })
        numbers.old counts.old places.old next.old words.old result
        next.new words.new numbers.new counts.new places.new }
{
    if next.len() < 3 || words.len() < TWO_TREES {
        return TOO_SHORT;
    }
    let opened = *numbers;
    let held = *counts;
    let begun = *places;
    let cursor = Cursor {
        place,
        number,
        depth,
        numbers: opened,
        counts: held,
        places: begun,
    };
    let at = At {
        place,
        number,
        depth,
    };
    if 4 <= call {
        let two = cursor.peek_two_leaves(b, trees, parts, symbols);
        return store_leaves(two, at, next, words);
    }
    let moved = value_call(b, trees, parts, symbols, call, cursor);
    let answer = moved.answer;
    let then = moved.cursor;
    let opened = then.numbers;
    let held = then.counts;
    let begun = then.places;
    *numbers = opened;
    *counts = held;
    *places = begun;
    let after = At {
        place: then.place,
        number: then.number,
        depth: then.depth,
    };
    store_answer(answer, after, next, words)
}
