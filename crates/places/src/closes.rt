// The close parts of a run whose open parts have their places: as a rule they are the same.
ghost use Rattle.std.specs.Prelude.{◌≡◌, ◌+◌, ◌<◌, ◌≤◌, length};
ghost use Rattle.format.specs.WordList.{list_count};
ghost use Rattle.places.specs.Places.{Placed, Tells, Closed, Copied};
ghost use Rattle.places.specs.declared.key.Layout.TheVariants.{Parts, Open};

use crate::key::{Layout, key_at};
use crate::keys::Keys;
use crate::stream::place_run;
use crate::table::Table;
use width::TREE_WORDS;
use width::sort::LITERAL;

// Whether tree n, if it is a subtree, closes with its open part.
#[tactic(auto, using(crate::proofs::ClosesReturns::as_open_cases))]
fn closes_as_open(l: &[u32], n: usize) -> bool
    requires { n < list_count l.now }
    ensures { Tells result l.now n 1 }
{
    l[TREE_WORDS * n] <= LITERAL || key_at(l, Layout::Close, n) == key_at(l, Layout::Open, n)
}

// Whether all of them do, as a rule.
#[tactic(auto, using(crate::proofs::ClosesReturns::all_as_open_cases))]
fn all_close_as_open(l: &[u32], from: usize, m: usize) -> bool
    requires { from + m ≤ list_count l.now }
    ensures { Tells result l.now from m }
{
    for i in 0..m {
        if !closes_as_open(l, from + i) {
            return false;
        }
    }
    true
}

// By a loop: the library's copy between two lent runs would have every archive ask for `memmove`.
#[tactic(auto, using(crate::proofs::ClosesReturns::copy_cases))]
fn copy(a: &[u32], b: &mut [u32], m: usize)
    requires { (m ≤ length a.now) × (m ≤ length b.old) }
    ensures { Copied m a.now b.new }
{
    for i in 0..m {
        b[i] = a[i];
    }
}

// The close parts, where the open ones have their places.
#[tactic(auto, using(crate::proofs::ClosesReturns::closes_cases))]
pub(crate) fn stream_closes(
    parts: Table,
    l: &[u32],
    from: usize,
    slots: &mut [u32],
    m: usize,
    opens: &[u32],
    closes: &mut [u32],
)
    requires of_parts { parts.layout ≡ Parts }
    requires m_bound { from + m ≤ list_count l.now }
    requires m_in_bounds { (m ≤ length opens.now) × (m ≤ length closes.old) }
    requires slots_nonzero { (0 < length slots.old) × (length slots.old ≤ 1048576) }
    requires placed { Placed parts.words.now Parts parts.len l.now Open from m opens.now }
    ensures { Closed parts.entry.words.now parts.entry.len l.now from m closes.new }
{
    if all_close_as_open(l, from, m) {
        copy(opens, closes, m);
    } else {
        let run = Keys {
            words: l,
            layout: Layout::Close,
            base: from,
        };
        place_run(parts, run, slots, m, closes);
    }
}
