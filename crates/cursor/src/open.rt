// The open subtrees of a cursor, in three lent arrays: tree number, descendant count and byte place of each.
// Any state may be handed in with any arrays, so each call goes over all that are open: no smaller test tells
// whether they nest.
ghost use Rattle.std.specs.Prelude.{◌≡◌, ◌+◌, ◌≤◌, length};
ghost use Rattle.format.specs.Cursor.{nested_in};
ghost use Rattle.cursor.specs.Open.{opened, closes, inside, cursor_of, agreed};

use crate::state::{At, MOST_OPEN};
use walk::buffer::Buffer;

// The number behind the last descendant. The sum may pass every tree number.
fn end_of(number: u32, count: u32) -> u64
    ensures { result ≡ number + 1 + count }
{
    u64::from(number) + 1 + u64::from(count)
}

// Whether each begins before the cursor, ends at or after it, and lies in the one before.
#[tactic(auto, using(crate::proofs::OpenReturns::nested_cases))]
fn nested(at: At, numbers: &[u32; 256], counts: &[u32; 256], places: &[usize; 256]) -> bool
    requires { at.depth ≤ 256 }
    ensures { result ≡ nested_in at.number at.place at.number
        (opened numbers.now counts.now places.now at.depth) }
{
    let mut left = at.depth;
    let mut from = at.number;
    let mut place = at.place;
    let mut to = u64::from(at.number);
    while 0 < left {
        left -= 1;
        let end = end_of(numbers[left], counts[left]);
        if from <= numbers[left] || place <= places[left] || end < to {
            return false;
        }
        from = numbers[left];
        place = places[left];
        to = end;
    }
    true
}

// Whether row 10 is silent.
#[tactic(auto, using(crate::proofs::OpenReturns::agrees_cases))]
pub(crate) fn agrees(
    buffer: &Buffer,
    at: At,
    numbers: &[u32; 256],
    counts: &[u32; 256],
    places: &[usize; 256],
) -> bool
    ensures { result ≡ agreed buffer.now.trees (length buffer.now.bytes.now)
        (cursor_of at numbers.now counts.now places.now) }
{
    at.number <= buffer.trees
        && at.place <= buffer.bytes.len()
        && at.depth <= MOST_OPEN
        && nested(at, numbers, counts, places)
}

// Whether all that the last open subtree holds lies before the cursor.
#[tactic(auto, using(crate::proofs::OpenReturns::last_cases))]
pub(crate) fn closes_last(at: At, numbers: &[u32; 256], counts: &[u32; 256]) -> bool
    requires { at.depth ≤ 256 }
    ensures { result ≡ closes at.number numbers.now counts.now at.depth }
{
    if at.depth == 0 {
        return false;
    }
    let last = at.depth - 1;
    u64::from(at.number) == end_of(numbers[last], counts[last])
}

// Whether the tree `ahead` on lies in the list and in the last open subtree.
#[tactic(auto, using(crate::proofs::OpenReturns::last_cases))]
pub(crate) fn lies_inside(
    trees: u32,
    at: At,
    ahead: u32,
    numbers: &[u32; 256],
    counts: &[u32; 256],
) -> bool
    requires { at.depth ≤ 256 }
    ensures { result ≡ inside trees (at.number + ahead) numbers.now counts.now
        at.depth }
{
    let n = u64::from(at.number) + u64::from(ahead);
    if u64::from(trees) <= n {
        return false;
    }
    if at.depth == 0 {
        return true;
    }
    let last = at.depth - 1;
    n < end_of(numbers[last], counts[last])
}
